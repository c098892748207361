//! Whole expressions, with `,` (ECMA-262 §13.16), and the lines that nodes reach again.

ghost use Rattle.std.specs.Prelude.{◌≡◌, ◌+◌, ◌≤◌, IfOk};
ghost use Rattle.actx_cursor.specs.Nests.{Nests};
ghost use Rattle.actx_grammar.specs.Lines as spec;
ghost use Rattle.actx_grammar.specs.Reads.{Reads};

use crate::ahead::goes_on_comma;
use crate::assigns::assign;
use crate::chains::level;
use crate::unaries::unary;
use actx_cursor::{Cursor, Inner};
use actx_grammar::{Cause, Line};
use actx_primary::{left, made};
use actx_tree::{Expr, Target};
use sqlite_items::{Boxed, Items};
use std::alloc::Global;

/// Reads a comma and an Assign.
#[tactic(auto, unfolding(actx_grammar::specs::Lines::next_assign, actx_grammar::specs::Reader::and_then))]
fn next_assign<
    F: Fn(Global, &mut Cursor<'_>, usize, Line) -> Result<(Expr, usize), Cause>,
    G: Fn(Global, &mut Cursor<'_>, usize) -> Result<(Target, usize), Cause>,
>(inner: &Inner<F, G>, cursor: &mut Cursor<'_>) -> Result<(Expr, usize), Cause>
    requires nests { Nests inner.now.room (F.pre inner.now.read) (F.post inner.now.read) (G.pre inner.now.target) (G.post inner.now.target) }
    ensures reads { Reads (spec.next_assign (spec.below inner.now.room) cursor.old) result cursor.new }
    ensures low { IfOk result (λ x. x.1 ≤ inner.now.room) }
{
    cursor.skip();
    inner.read(cursor, Line::Assign)
}

/// Reads commas, each with an Assign, as many as come, and the greatest number of levels among
/// `levels` and theirs.
#[tactic(auto, unfolding(actx_grammar::specs::Lines::commas, actx_grammar::specs::Reader::and_then, actx_grammar::specs::Reader::many_from))]
fn commas<
    F: Fn(Global, &mut Cursor<'_>, usize, Line) -> Result<(Expr, usize), Cause>,
    G: Fn(Global, &mut Cursor<'_>, usize) -> Result<(Target, usize), Cause>,
>(
    inner: &Inner<F, G>,
    cursor: &mut Cursor<'_>,
    levels: usize,
) -> Result<(Items<Expr>, usize), Cause>
    requires nests { Nests inner.now.room (F.pre inner.now.read) (F.post inner.now.read) (G.pre inner.now.target) (G.post inner.now.target) }
    requires room { levels ≤ inner.now.room }
    ensures reads { Reads (spec.commas (spec.below inner.now.room) levels cursor.old) result cursor.new }
    ensures low { IfOk result (λ x. x.1 ≤ inner.now.room) }
{
    let mut found = Items::new(inner.alloc);
    let mut highest = levels;
    for _turn in 0..cursor.len() {
        if !goes_on_comma(cursor) {
            return Ok((found, highest));
        }
        let (next, height) = next_assign(inner, cursor)?;
        found.push(next)?;
        highest = highest.max(height);
    }
    Ok((found, highest))
}

/// What an Expr is behind its first Assign, which has so many levels.
#[tactic(auto, unfolding(actx_grammar::specs::Lines::expr_after, actx_grammar::specs::Reader::and_then))]
fn expr_after<
    F: Fn(Global, &mut Cursor<'_>, usize, Line) -> Result<(Expr, usize), Cause>,
    G: Fn(Global, &mut Cursor<'_>, usize) -> Result<(Target, usize), Cause>,
>(
    inner: &Inner<F, G>,
    cursor: &mut Cursor<'_>,
    first: Expr,
    levels: usize,
) -> Result<(Expr, usize), Cause>
    requires nests { Nests inner.now.room (F.pre inner.now.read) (F.post inner.now.read) (G.pre inner.now.target) (G.post inner.now.target) }
    requires room { levels ≤ inner.now.room + 1 }
    ensures reads { Reads (spec.expr_after (spec.below inner.now.room) (first, levels) cursor.old) result cursor.new }
    ensures low { IfOk result (λ x. x.1 ≤ inner.now.room + 1) }
{
    if !goes_on_comma(cursor) {
        return Ok((first, levels));
    }
    inner.fits(levels)?;
    let (found, highest) = commas(inner, cursor, levels)?;
    Ok((
        Expr::Comma(Boxed::new(inner.alloc, first)?, found),
        highest + 1,
    ))
}

/// Reads an Expr.
#[tactic(auto, unfolding(actx_grammar::specs::Lines::expr, actx_grammar::specs::Reader::and_then))]
fn expr<
    F: Fn(Global, &mut Cursor<'_>, usize, Line) -> Result<(Expr, usize), Cause>,
    G: Fn(Global, &mut Cursor<'_>, usize) -> Result<(Target, usize), Cause>,
>(inner: &Inner<F, G>, cursor: &mut Cursor<'_>) -> Result<(Expr, usize), Cause>
    requires nests { Nests inner.now.room (F.pre inner.now.read) (F.post inner.now.read) (G.pre inner.now.target) (G.post inner.now.target) }
    ensures reads { Reads (spec.expr (spec.below inner.now.room) cursor.old) result cursor.new }
    ensures low { IfOk result (λ x. x.1 ≤ inner.now.room + 1) }
{
    let (first, levels) = assign(inner, cursor)?;
    expr_after(inner, cursor, first, levels)
}

/// Reads a line of the grammar.
#[tactic(auto, unfolding(actx_grammar::specs::Lines::line_of))]
pub fn line_of<
    F: Fn(Global, &mut Cursor<'_>, usize, Line) -> Result<(Expr, usize), Cause>,
    G: Fn(Global, &mut Cursor<'_>, usize) -> Result<(Target, usize), Cause>,
>(inner: &Inner<F, G>, cursor: &mut Cursor<'_>, line: Line) -> Result<(Expr, usize), Cause>
    requires nests { Nests inner.now.room (F.pre inner.now.read) (F.post inner.now.read) (G.pre inner.now.target) (G.post inner.now.target) }
    ensures reads { Reads (spec.line_of (spec.below inner.now.room) line cursor.old) result cursor.new }
    ensures low { IfOk result (λ x. x.1 ≤ inner.now.room + 1) }
{
    match line {
        Line::Expr => expr(inner, cursor),
        Line::Assign => assign(inner, cursor),
        Line::Unary => unary(inner, cursor),
        Line::Level(own) => level(inner, cursor, own),
        Line::Left => left(inner, cursor),
        Line::Made => made(inner, cursor),
    }
}
