//! `new` (ECMA-262 §13.3.5).

ghost use Rattle.actx_cursor.specs.Nests.{Nests};
ghost use Rattle.actx_grammar.specs.Lines as spec;
ghost use Rattle.actx_grammar.specs.Reads.{Reads};
ghost use Rattle.std.specs.Prelude.{◌+◌, ◌≤◌, IfOk};

use crate::kinds::{begins_suffix, is_new_word, is_open_parenthesis};
use crate::members::member_suffixes;
use crate::primaries::primary;
use crate::values::args;
use actx_cursor::{Cursor, Inner};
use actx_grammar::{Cause, Line};
use actx_tree::{Expr, Suffix, Target};
use sqlite_items::{Boxed, Items};
use std::alloc::Global;

/// What stands behind the members of a `new`: arguments, or nothing, where no suffix may follow.
/// `levels` is the greatest of those of what is made and of its members.
///
/// # Errors
/// `NoTree` and `TooNested` as the definition says; `Memory`.
#[tactic(auto, unfolding(actx_grammar::specs::Lines::new_after, actx_grammar::specs::Reader::and_then))]
pub fn new_after<
    F: Fn(Global, &mut Cursor<'_>, usize, Line) -> Result<(Expr, usize), Cause>,
    G: Fn(Global, &mut Cursor<'_>, usize) -> Result<(Target, usize), Cause>,
>(
    inner: &Inner<F, G>,
    cursor: &mut Cursor<'_>,
    base: Expr,
    members: Items<Suffix>,
    levels: usize,
) -> Result<(Expr, usize), Cause>
    requires nests { Nests inner.now.room (F.pre inner.now.read) (F.post inner.now.read) (G.pre inner.now.target) (G.post inner.now.target) }
    requires low { levels ≤ inner.now.room }
    ensures reads { Reads (spec.new_after (spec.below inner.now.room) base (members, levels) cursor.old) result cursor.new }
    ensures low { IfOk result (λ x. x.1 ≤ inner.now.room + 1) }
{
    if is_open_parenthesis(cursor.next()) {
        let (found, others) = args(inner, cursor)?;
        let base = Boxed::new(inner.alloc, base)?;
        return Ok((
            Expr::New(base, members, Some(found)),
            levels.max(others) + 1,
        ));
    }
    if begins_suffix(cursor.next()) {
        return Err(Cause::NoTree);
    }
    let base = Boxed::new(inner.alloc, base)?;
    Ok((Expr::New(base, members, None), levels + 1))
}

/// `new`, which comes next, what is made, its members, and perhaps arguments.
///
/// # Errors
/// `NoTree` and `TooNested` as the definition says; `Memory`.
#[tactic(auto, unfolding(actx_grammar::specs::Lines::new_form, actx_grammar::specs::Reader::and_then))]
pub fn new_form<
    F: Fn(Global, &mut Cursor<'_>, usize, Line) -> Result<(Expr, usize), Cause>,
    G: Fn(Global, &mut Cursor<'_>, usize) -> Result<(Target, usize), Cause>,
>(inner: &Inner<F, G>, cursor: &mut Cursor<'_>) -> Result<(Expr, usize), Cause>
    requires { Nests inner.now.room (F.pre inner.now.read) (F.post inner.now.read) (G.pre inner.now.target) (G.post inner.now.target) }
    ensures reads { Reads (spec.new_form (spec.below inner.now.room) cursor.old) result cursor.new }
    ensures low { IfOk result (λ x. x.1 ≤ inner.now.room + 1) }
{
    cursor.skip();
    let (base, levels) = inner.read(cursor, Line::Made)?;
    let (members, highest) = member_suffixes(inner, cursor, levels)?;
    new_after(inner, cursor, base, members, highest)
}

/// A `new` or a primary.
///
/// # Errors
/// `NoTree` and `TooNested` as the definition says; `Memory`.
#[tactic(auto, unfolding(actx_grammar::specs::Lines::made, actx_grammar::specs::Reader::and_then))]
pub fn made<
    F: Fn(Global, &mut Cursor<'_>, usize, Line) -> Result<(Expr, usize), Cause>,
    G: Fn(Global, &mut Cursor<'_>, usize) -> Result<(Target, usize), Cause>,
>(inner: &Inner<F, G>, cursor: &mut Cursor<'_>) -> Result<(Expr, usize), Cause>
    requires { Nests inner.now.room (F.pre inner.now.read) (F.post inner.now.read) (G.pre inner.now.target) (G.post inner.now.target) }
    ensures reads { Reads (spec.made (spec.below inner.now.room) cursor.old) result cursor.new }
    ensures low { IfOk result (λ x. x.1 ≤ inner.now.room + 1) }
{
    if is_new_word(cursor.next()) {
        return new_form(inner, cursor);
    }
    primary(inner, cursor)
}
