//! `??` and `? :` (ECMA-262 §13.13, §13.14).

ghost use Rattle.std.specs.Prelude.{◌≡◌, ◌+◌, ◌≤◌, IfOk};
ghost use Rattle.actx_cursor.specs.Nests.{Nests};
ghost use Rattle.actx_grammar.specs.Lines as spec;
ghost use Rattle.actx_grammar.specs.Reads.{Reads};

use crate::ahead::has_operator;
use crate::chains::{chain_after, level};
use crate::operators::is_question;
use actx_cursor::{Cursor, Inner};
use actx_grammar::{Cause, Line};
use actx_primary::is_logical;
use actx_tree::{Expr, Target};
use sqlite_items::Boxed;
use std::alloc::Global;

/// What follows an Or: operands of `??`, unless it is a chain of `||` or `&&`.
#[tactic(auto, unfolding(actx_grammar::specs::Lines::short_after))]
fn short_after<
    F: Fn(Global, &mut Cursor<'_>, usize, Line) -> Result<(Expr, usize), Cause>,
    G: Fn(Global, &mut Cursor<'_>, usize) -> Result<(Target, usize), Cause>,
>(
    inner: &Inner<F, G>,
    cursor: &mut Cursor<'_>,
    first: Expr,
    levels: usize,
) -> Result<(Expr, usize), Cause>
    requires nests { Nests inner.now.room (F.pre inner.now.read) (F.post inner.now.read) (G.pre inner.now.target) (G.post inner.now.target) }
    requires room { levels ≤ inner.now.room + 1 }
    ensures reads { Reads (spec.short_after (spec.below inner.now.room) (first, levels) cursor.old) result cursor.new }
    ensures low { IfOk result (λ x. x.1 ≤ inner.now.room + 1) }
{
    if has_operator(7, cursor) && is_logical(&first) {
        return Err(Cause::NoTree);
    }
    chain_after(inner, cursor, 7, 4, first, levels)
}

/// Reads an Or, or a chain of `??`.
#[tactic(auto, unfolding(actx_grammar::specs::Lines::short, actx_grammar::specs::Reader::and_then))]
fn short<
    F: Fn(Global, &mut Cursor<'_>, usize, Line) -> Result<(Expr, usize), Cause>,
    G: Fn(Global, &mut Cursor<'_>, usize) -> Result<(Target, usize), Cause>,
>(inner: &Inner<F, G>, cursor: &mut Cursor<'_>) -> Result<(Expr, usize), Cause>
    requires nests { Nests inner.now.room (F.pre inner.now.read) (F.post inner.now.read) (G.pre inner.now.target) (G.post inner.now.target) }
    ensures reads { Reads (spec.short (spec.below inner.now.room) cursor.old) result cursor.new }
    ensures low { IfOk result (λ x. x.1 ≤ inner.now.room + 1) }
{
    let (first, levels) = level(inner, cursor, 6)?;
    short_after(inner, cursor, first, levels)
}

/// What a Cond is behind its test, which has so many levels.
#[tactic(auto, unfolding(actx_grammar::specs::Lines::cond_after, actx_grammar::specs::Reader::and_then))]
fn cond_after<
    F: Fn(Global, &mut Cursor<'_>, usize, Line) -> Result<(Expr, usize), Cause>,
    G: Fn(Global, &mut Cursor<'_>, usize) -> Result<(Target, usize), Cause>,
>(
    inner: &Inner<F, G>,
    cursor: &mut Cursor<'_>,
    test: Expr,
    levels: usize,
) -> Result<(Expr, usize), Cause>
    requires nests { Nests inner.now.room (F.pre inner.now.read) (F.post inner.now.read) (G.pre inner.now.target) (G.post inner.now.target) }
    requires room { levels ≤ inner.now.room + 1 }
    ensures reads { Reads (spec.cond_after (spec.below inner.now.room) (test, levels) cursor.old) result cursor.new }
    ensures low { IfOk result (λ x. x.1 ≤ inner.now.room + 1) }
{
    if !is_question(cursor.next()) {
        return Ok((test, levels));
    }
    inner.fits(levels)?;
    cursor.skip();
    let (yes, yes_levels) = inner.read(cursor, Line::Assign)?;
    cursor.colon()?;
    let (no, no_levels) = inner.read(cursor, Line::Assign)?;
    Ok((
        Expr::Conditional(
            Boxed::new(inner.alloc, test)?,
            Boxed::new(inner.alloc, yes)?,
            Boxed::new(inner.alloc, no)?,
        ),
        levels.max(yes_levels.max(no_levels)) + 1,
    ))
}

/// Reads a Cond.
#[tactic(auto, unfolding(actx_grammar::specs::Lines::cond, actx_grammar::specs::Reader::and_then))]
pub fn cond<
    F: Fn(Global, &mut Cursor<'_>, usize, Line) -> Result<(Expr, usize), Cause>,
    G: Fn(Global, &mut Cursor<'_>, usize) -> Result<(Target, usize), Cause>,
>(inner: &Inner<F, G>, cursor: &mut Cursor<'_>) -> Result<(Expr, usize), Cause>
    requires nests { Nests inner.now.room (F.pre inner.now.read) (F.post inner.now.read) (G.pre inner.now.target) (G.post inner.now.target) }
    ensures reads { Reads (spec.cond (spec.below inner.now.room) cursor.old) result cursor.new }
    ensures low { IfOk result (λ x. x.1 ≤ inner.now.room + 1) }
{
    let (test, levels) = short(inner, cursor)?;
    cond_after(inner, cursor, test, levels)
}
