//! Operators before and behind one operand (ECMA-262 §13.4, §13.5).

ghost use Rattle.std.specs.Prelude.{◌≡◌, ◌+◌, ◌≤◌, IfOk};
ghost use Rattle.actx_cursor.specs.Nests.{Nests};
ghost use Rattle.actx_grammar.specs.Lines as spec;
ghost use Rattle.actx_grammar.specs.Reads.{Reads};

use crate::ahead::step_at;
use crate::operators::{step_op, unary_op};
use actx_cursor::{Cursor, Inner};
use actx_grammar::{Cause, Line};
use actx_primary::{is_place, left};
use actx_tree::{Expr, StepOp, Target};
use sqlite_items::Boxed;
use std::alloc::Global;

/// What a Unary is behind its Left, which has so many levels: a `++` or `--` on the line goes on
/// with it.
#[tactic(auto, unfolding(actx_grammar::specs::Lines::unary_after, actx_grammar::specs::Reader::and_then))]
fn unary_after<
    F: Fn(Global, &mut Cursor<'_>, usize, Line) -> Result<(Expr, usize), Cause>,
    G: Fn(Global, &mut Cursor<'_>, usize) -> Result<(Target, usize), Cause>,
>(
    inner: &Inner<F, G>,
    cursor: &mut Cursor<'_>,
    tree: Expr,
    levels: usize,
) -> Result<(Expr, usize), Cause>
    requires nests { Nests inner.now.room (F.pre inner.now.read) (F.post inner.now.read) (G.pre inner.now.target) (G.post inner.now.target) }
    requires room { levels ≤ inner.now.room + 1 }
    ensures reads { Reads (spec.unary_after (spec.below inner.now.room) (tree, levels) cursor.old) result cursor.new }
    ensures low { IfOk result (λ x. x.1 ≤ inner.now.room + 1) }
{
    let Some(op) = step_at(cursor) else {
        return Ok((tree, levels));
    };
    if !is_place(&tree) {
        return Err(Cause::NoTree);
    }
    inner.fits(levels)?;
    cursor.skip();
    Ok((
        Expr::StepAfter(Boxed::new(inner.alloc, tree)?, op),
        levels + 1,
    ))
}

/// A Unary that no unary operator begins: `++` or `--` and a place, or a Left and what goes on
/// with it.
#[tactic(auto, unfolding(actx_grammar::specs::Reader::and_then))]
fn step_before<
    F: Fn(Global, &mut Cursor<'_>, usize, Line) -> Result<(Expr, usize), Cause>,
    G: Fn(Global, &mut Cursor<'_>, usize) -> Result<(Target, usize), Cause>,
>(
    inner: &Inner<F, G>,
    cursor: &mut Cursor<'_>,
    step: Option<StepOp>,
) -> Result<(Expr, usize), Cause>
    requires nests { Nests inner.now.room (F.pre inner.now.read) (F.post inner.now.read) (G.pre inner.now.target) (G.post inner.now.target) }
    ensures reads { Reads (spec.step_before (spec.below inner.now.room) step cursor.old) result cursor.new }
    ensures low { IfOk result (λ x. x.1 ≤ inner.now.room + 1) }
{
    let Some(op) = step else {
        let (tree, levels) = left(inner, cursor)?;
        return unary_after(inner, cursor, tree, levels);
    };
    cursor.skip();
    let (tree, levels) = inner.read(cursor, Line::Left)?;
    if !is_place(&tree) {
        return Err(Cause::NoTree);
    }
    Ok((
        Expr::StepBefore(op, Boxed::new(inner.alloc, tree)?),
        levels + 1,
    ))
}

/// Reads a Unary (§13.4, §13.5, and `await` of §15.8).
#[tactic(auto, unfolding(actx_grammar::specs::Lines::unary, actx_grammar::specs::Reader::and_then))]
pub fn unary<
    F: Fn(Global, &mut Cursor<'_>, usize, Line) -> Result<(Expr, usize), Cause>,
    G: Fn(Global, &mut Cursor<'_>, usize) -> Result<(Target, usize), Cause>,
>(inner: &Inner<F, G>, cursor: &mut Cursor<'_>) -> Result<(Expr, usize), Cause>
    requires nests { Nests inner.now.room (F.pre inner.now.read) (F.post inner.now.read) (G.pre inner.now.target) (G.post inner.now.target) }
    ensures reads { Reads (spec.unary (spec.below inner.now.room) cursor.old) result cursor.new }
    ensures low { IfOk result (λ x. x.1 ≤ inner.now.room + 1) }
{
    let next = cursor.next();
    let Some(op) = unary_op(next) else {
        return step_before(inner, cursor, step_op(next));
    };
    cursor.skip();
    let (tree, levels) = inner.read(cursor, Line::Unary)?;
    Ok((Expr::Unary(op, Boxed::new(inner.alloc, tree)?), levels + 1))
}
