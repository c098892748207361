//! A `new` or a primary with the suffixes behind it (ECMA-262 §13.3).

ghost use Rattle.actx_cursor.specs.Nests.{Nests};
ghost use Rattle.actx_grammar.specs.Lines as spec;
ghost use Rattle.actx_grammar.specs.Reads.{Reads};
ghost use Rattle.std.specs.Prelude.{◌+◌, ◌≤◌, IfOk};

use crate::kinds::begins_suffix;
use crate::members::suffixes;
use crate::news::made;
use actx_cursor::{Cursor, Inner};
use actx_grammar::{Cause, Line};
use actx_tree::{Expr, Target};
use sqlite_items::Boxed;
use std::alloc::Global;

/// The suffixes behind a tree, if there are any. `levels` is those of the tree.
///
/// # Errors
/// `NoTree` and `TooNested` as the definition says; `Memory`.
#[tactic(auto, unfolding(actx_grammar::specs::Lines::left_after, actx_grammar::specs::Lines::goes_on_suffix, actx_grammar::specs::Reader::and_then))]
pub fn left_after<
    F: Fn(Global, &mut Cursor<'_>, usize, Line) -> Result<(Expr, usize), Cause>,
    G: Fn(Global, &mut Cursor<'_>, usize) -> Result<(Target, usize), Cause>,
>(
    inner: &Inner<F, G>,
    cursor: &mut Cursor<'_>,
    first: Expr,
    levels: usize,
) -> Result<(Expr, usize), Cause>
    requires nests { Nests inner.now.room (F.pre inner.now.read) (F.post inner.now.read) (G.pre inner.now.target) (G.post inner.now.target) }
    requires low { levels ≤ inner.now.room + 1 }
    ensures reads { Reads (spec.left_after (spec.below inner.now.room) (first, levels) cursor.old) result cursor.new }
    ensures low { IfOk result (λ x. x.1 ≤ inner.now.room + 1) }
{
    if !begins_suffix(cursor.next()) {
        return Ok((first, levels));
    }
    inner.fits(levels)?;
    let (found, highest) = suffixes(inner, cursor, levels)?;
    let first = Boxed::new(inner.alloc, first)?;
    Ok((Expr::Left(first, found), highest + 1))
}

/// A `new` or a primary, and the suffixes behind it.
///
/// # Errors
/// `NoTree` and `TooNested` as the definition says; `Memory`.
#[tactic(auto, unfolding(actx_grammar::specs::Lines::left, actx_grammar::specs::Reader::and_then))]
pub fn left<
    F: Fn(Global, &mut Cursor<'_>, usize, Line) -> Result<(Expr, usize), Cause>,
    G: Fn(Global, &mut Cursor<'_>, usize) -> Result<(Target, usize), Cause>,
>(inner: &Inner<F, G>, cursor: &mut Cursor<'_>) -> Result<(Expr, usize), Cause>
    requires { Nests inner.now.room (F.pre inner.now.read) (F.post inner.now.read) (G.pre inner.now.target) (G.post inner.now.target) }
    ensures reads { Reads (spec.left (spec.below inner.now.room) cursor.old) result cursor.new }
    ensures low { IfOk result (λ x. x.1 ≤ inner.now.room + 1) }
{
    let (first, levels) = made(inner, cursor)?;
    left_after(inner, cursor, first, levels)
}
