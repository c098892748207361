//! Assignments and `yield` (ECMA-262 §13.15, §15.5).

ghost use Rattle.std.specs.Prelude.{◌≡◌, ◌+◌, ◌≤◌, true, Some, None, IfOk};
ghost use Rattle.actx_cursor.specs.Nests.{Nests};
ghost use Rattle.actx_grammar.specs.Lines as spec;
ghost use Rattle.actx_grammar.specs.Places.{is_place};
ghost use Rattle.actx_grammar.specs.Reads.{Reads};

use crate::arrows::arrow;
use crate::conditionals::cond;
use crate::operators::{assign_op, is_yield_word};
use actx_cursor::{Cursor, Inner};
use actx_grammar::{Cause, Line};
use actx_primary::is_place;
use actx_tree::{AssignOp, Expr, Target};
use sqlite_items::Boxed;
use std::alloc::Global;

/// Reads what follows `yield`: an Assign that begins on its line, or nothing.
#[tactic(auto, unfolding(actx_grammar::specs::Lines::yield_form, actx_grammar::specs::Reader::and_then))]
fn yield_form<
    F: Fn(Global, &mut Cursor<'_>, usize, Line) -> Result<(Expr, usize), Cause>,
    G: Fn(Global, &mut Cursor<'_>, usize) -> Result<(Target, usize), Cause>,
>(inner: &Inner<F, G>, cursor: &mut Cursor<'_>) -> Result<(Expr, usize), Cause>
    requires nests { Nests inner.now.room (F.pre inner.now.read) (F.post inner.now.read) (G.pre inner.now.target) (G.post inner.now.target) }
    ensures reads { Reads (spec.yield_form (spec.below inner.now.room) cursor.old) result cursor.new }
    ensures low { IfOk result (λ x. x.1 ≤ inner.now.room + 1) }
{
    if !cursor.has_operand() {
        return Ok((Expr::Yield(None), 1));
    }
    let (value, levels) = inner.read(cursor, Line::Assign)?;
    Ok((
        Expr::Yield(Some(Boxed::new(inner.alloc, value)?)),
        levels + 1,
    ))
}

/// Reads an operator of assignment and its right operand, behind a place of so many levels.
#[tactic(auto, unfolding(actx_grammar::specs::Reader::and_then))]
fn assign_place<
    F: Fn(Global, &mut Cursor<'_>, usize, Line) -> Result<(Expr, usize), Cause>,
    G: Fn(Global, &mut Cursor<'_>, usize) -> Result<(Target, usize), Cause>,
>(
    inner: &Inner<F, G>,
    cursor: &mut Cursor<'_>,
    op: AssignOp,
    place: Expr,
    levels: usize,
) -> Result<(Expr, usize), Cause>
    requires nests { Nests inner.now.room (F.pre inner.now.read) (F.post inner.now.read) (G.pre inner.now.target) (G.post inner.now.target) }
    requires room { levels ≤ inner.now.room + 1 }
    requires place { is_place place ≡ true }
    ensures reads { Reads (spec.assign_to (spec.below inner.now.room) (Some op) (place, levels) cursor.old) result cursor.new }
    ensures low { IfOk result (λ x. x.1 ≤ inner.now.room + 1) }
{
    inner.fits(levels)?;
    cursor.skip();
    let (value, height) = inner.read(cursor, Line::Assign)?;
    let place = Boxed::new(inner.alloc, place)?;
    let value = Boxed::new(inner.alloc, value)?;
    Ok((Expr::Assign(place, op, value), levels.max(height) + 1))
}

/// Reads an operator of assignment and its right operand, behind a Cond of so many levels.
fn assign_by<
    F: Fn(Global, &mut Cursor<'_>, usize, Line) -> Result<(Expr, usize), Cause>,
    G: Fn(Global, &mut Cursor<'_>, usize) -> Result<(Target, usize), Cause>,
>(
    inner: &Inner<F, G>,
    cursor: &mut Cursor<'_>,
    op: AssignOp,
    place: Expr,
    levels: usize,
) -> Result<(Expr, usize), Cause>
    requires nests { Nests inner.now.room (F.pre inner.now.read) (F.post inner.now.read) (G.pre inner.now.target) (G.post inner.now.target) }
    requires room { levels ≤ inner.now.room + 1 }
    ensures reads { Reads (spec.assign_to (spec.below inner.now.room) (Some op) (place, levels) cursor.old) result cursor.new }
    ensures low { IfOk result (λ x. x.1 ≤ inner.now.room + 1) }
{
    if is_place(&place) {
        assign_place(inner, cursor, op, place, levels)
    } else {
        Err(Cause::NoTree)
    }
}

/// What an Assign is behind its Cond, which has so many levels.
#[tactic(auto, unfolding(actx_grammar::specs::Lines::assign_after))]
fn assign_after<
    F: Fn(Global, &mut Cursor<'_>, usize, Line) -> Result<(Expr, usize), Cause>,
    G: Fn(Global, &mut Cursor<'_>, usize) -> Result<(Target, usize), Cause>,
>(
    inner: &Inner<F, G>,
    cursor: &mut Cursor<'_>,
    tree: Expr,
    levels: usize,
) -> Result<(Expr, usize), Cause>
    requires nests { Nests inner.now.room (F.pre inner.now.read) (F.post inner.now.read) (G.pre inner.now.target) (G.post inner.now.target) }
    requires room { levels ≤ inner.now.room + 1 }
    ensures reads { Reads (spec.assign_after (spec.below inner.now.room) (tree, levels) cursor.old) result cursor.new }
    ensures low { IfOk result (λ x. x.1 ≤ inner.now.room + 1) }
{
    match assign_op(cursor.next()) {
        Some(op) => assign_by(inner, cursor, op, tree, levels),
        None => Ok((tree, levels)),
    }
}

/// Reads an Assign that is no arrow function.
#[tactic(auto, unfolding(actx_grammar::specs::Reader::and_then))]
fn plain_assign<
    F: Fn(Global, &mut Cursor<'_>, usize, Line) -> Result<(Expr, usize), Cause>,
    G: Fn(Global, &mut Cursor<'_>, usize) -> Result<(Target, usize), Cause>,
>(inner: &Inner<F, G>, cursor: &mut Cursor<'_>) -> Result<(Expr, usize), Cause>
    requires nests { Nests inner.now.room (F.pre inner.now.read) (F.post inner.now.read) (G.pre inner.now.target) (G.post inner.now.target) }
    ensures reads { Reads (spec.assign_from (spec.below inner.now.room) None cursor.old) result cursor.new }
    ensures low { IfOk result (λ x. x.1 ≤ inner.now.room + 1) }
{
    if is_yield_word(cursor.next()) {
        cursor.skip();
        return yield_form(inner, cursor);
    }
    let (tree, levels) = cond(inner, cursor)?;
    assign_after(inner, cursor, tree, levels)
}

/// Reads an Assign.
#[tactic(auto, unfolding(actx_grammar::specs::Lines::assign))]
pub fn assign<
    F: Fn(Global, &mut Cursor<'_>, usize, Line) -> Result<(Expr, usize), Cause>,
    G: Fn(Global, &mut Cursor<'_>, usize) -> Result<(Target, usize), Cause>,
>(inner: &Inner<F, G>, cursor: &mut Cursor<'_>) -> Result<(Expr, usize), Cause>
    requires nests { Nests inner.now.room (F.pre inner.now.read) (F.post inner.now.read) (G.pre inner.now.target) (G.post inner.now.target) }
    ensures reads { Reads (spec.assign (spec.below inner.now.room) cursor.old) result cursor.new }
    ensures low { IfOk result (λ x. x.1 ≤ inner.now.room + 1) }
{
    match cursor.arrow_start() {
        Some(is_async) => arrow(inner, cursor, is_async),
        None => plain_assign(inner, cursor),
    }
}
