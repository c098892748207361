//! Chains of operators between operands, all of one level (ECMA-262 §13.6 to §13.13).

ghost use Rattle.std.specs.Prelude.{◌≡◌, ◌+◌, ◌≤◌, [], IfOk};
ghost use Rattle.actx_cursor.specs.Nests.{Nests};
ghost use Rattle.actx_grammar.specs.Lines as spec;
ghost use Rattle.actx_grammar.specs.Reads.{Reads};
ghost use Rattle.actx_grammar.specs.Reader as reader;

use crate::ahead::{has_operator, operator_at};
use crate::unaries::unary;
use actx_cursor::{Cursor, Inner};
use actx_grammar::{Cause, Line};
use actx_tree::{Expr, Operand, Target};
use sqlite_items::{Boxed, Items};
use std::alloc::Global;

/// Reads an operator of the level `own` and its right operand, of the level `inner_level`.
#[tactic(auto, unfolding(actx_grammar::specs::Lines::operand, actx_grammar::specs::Reader::and_then))]
fn operand<
    F: Fn(Global, &mut Cursor<'_>, usize, Line) -> Result<(Expr, usize), Cause>,
    G: Fn(Global, &mut Cursor<'_>, usize) -> Result<(Target, usize), Cause>,
>(
    inner: &Inner<F, G>,
    cursor: &mut Cursor<'_>,
    own: usize,
    inner_level: usize,
) -> Result<(Operand, usize), Cause>
    requires nests { Nests inner.now.room (F.pre inner.now.read) (F.post inner.now.read) (G.pre inner.now.target) (G.post inner.now.target) }
    ensures reads { Reads (spec.operand (spec.below inner.now.room) own inner_level cursor.old) result cursor.new }
    ensures low { IfOk result (λ x. x.1 ≤ inner.now.room) }
{
    let Some(op) = operator_at(own, cursor) else {
        return Err(Cause::NoTree);
    };
    cursor.skip();
    let (right, levels) = inner.read(cursor, Line::Level(inner_level))?;
    Ok((Operand { op, right }, levels))
}

/// Reads operators of the level `own` and their operands, as many as come, and the greatest number
/// of levels among `levels` and theirs.
#[tactic(auto, unfolding(actx_grammar::specs::Lines::operands, actx_grammar::specs::Reader::and_then, actx_grammar::specs::Reader::many_from))]
fn operands<
    F: Fn(Global, &mut Cursor<'_>, usize, Line) -> Result<(Expr, usize), Cause>,
    G: Fn(Global, &mut Cursor<'_>, usize) -> Result<(Target, usize), Cause>,
>(
    inner: &Inner<F, G>,
    cursor: &mut Cursor<'_>,
    own: usize,
    inner_level: usize,
    levels: usize,
) -> Result<(Items<Operand>, usize), Cause>
    requires nests { Nests inner.now.room (F.pre inner.now.read) (F.post inner.now.read) (G.pre inner.now.target) (G.post inner.now.target) }
    requires room { levels ≤ inner.now.room }
    ensures reads { Reads (spec.operands (spec.below inner.now.room) own inner_level levels cursor.old) result cursor.new }
    ensures low { IfOk result (λ x. x.1 ≤ inner.now.room) }
{
    let mut found = Items::new(inner.alloc);
    let mut highest = levels;
    for _turn in 0..cursor.len() {
        if !has_operator(own, cursor) {
            return Ok((found, highest));
        }
        let (next, height) = operand(inner, cursor, own, inner_level)?;
        found.push(next)?;
        highest = highest.max(height);
    }
    Ok((found, highest))
}

/// What a line of the level `own` is behind its first operand, which has so many levels.
#[tactic(auto, unfolding(actx_grammar::specs::Lines::chain_after, actx_grammar::specs::Reader::and_then))]
pub fn chain_after<
    F: Fn(Global, &mut Cursor<'_>, usize, Line) -> Result<(Expr, usize), Cause>,
    G: Fn(Global, &mut Cursor<'_>, usize) -> Result<(Target, usize), Cause>,
>(
    inner: &Inner<F, G>,
    cursor: &mut Cursor<'_>,
    own: usize,
    inner_level: usize,
    first: Expr,
    levels: usize,
) -> Result<(Expr, usize), Cause>
    requires nests { Nests inner.now.room (F.pre inner.now.read) (F.post inner.now.read) (G.pre inner.now.target) (G.post inner.now.target) }
    requires room { levels ≤ inner.now.room + 1 }
    ensures reads { Reads (spec.chain_after (spec.below inner.now.room) own inner_level (first, levels) cursor.old) result cursor.new }
    ensures low { IfOk result (λ x. x.1 ≤ inner.now.room + 1) }
{
    if !has_operator(own, cursor) {
        return Ok((first, levels));
    }
    inner.fits(levels)?;
    let (found, highest) = operands(inner, cursor, own, inner_level, levels)?;
    Ok((
        Expr::Chain(Boxed::new(inner.alloc, first)?, found),
        highest + 1,
    ))
}

/// Reads a line of the level: Unary 0, Prod 1, Sum 2, Rel 3, Eq 4, And 5, Or 6.
#[tactic(auto, unfolding(actx_grammar::specs::Lines::level, actx_grammar::specs::Reader::and_then))]
pub fn level<
    F: Fn(Global, &mut Cursor<'_>, usize, Line) -> Result<(Expr, usize), Cause>,
    G: Fn(Global, &mut Cursor<'_>, usize) -> Result<(Target, usize), Cause>,
>(inner: &Inner<F, G>, cursor: &mut Cursor<'_>, own: usize) -> Result<(Expr, usize), Cause>
    requires nests { Nests inner.now.room (F.pre inner.now.read) (F.post inner.now.read) (G.pre inner.now.target) (G.post inner.now.target) }
    ensures reads { Reads (spec.level (spec.below inner.now.room) own cursor.old) result cursor.new }
    ensures low { IfOk result (λ x. x.1 ≤ inner.now.room + 1) }
{
    if own == 0 {
        return unary(inner, cursor);
    }
    let (first, levels) = level(inner, cursor, own - 1)?;
    chain_after(inner, cursor, own, own - 1, first, levels)
}
