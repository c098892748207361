//! Lists of values: arguments of a call, and the elements of an array (ECMA-262 §13.2.4, §13.3).

ghost use Rattle.actx_cursor.specs.Nests.{Nests};
ghost use Rattle.actx_grammar.specs.Lines as spec;
ghost use Rattle.actx_grammar.specs.Reads.{Reads};
ghost use Rattle.std.specs.Prelude.{◌≤◌, IfOk};

use crate::kinds::is_dots;
use actx_cursor::{Cursor, Inner};
use actx_grammar::{Bracket, Cause, Line};
use actx_pattern::list_goes_on;
use actx_tree::{Argument, Expr, Target};
use sqlite_items::Items;
use std::alloc::Global;

/// A value, or `...` and a value; with the levels of nodes in it.
///
/// # Errors
/// `NoTree` and `TooNested` as the definition says; `Memory`.
#[tactic(auto, unfolding(actx_grammar::specs::Lines::argument, actx_grammar::specs::Reader::and_then))]
pub fn argument<
    F: Fn(Global, &mut Cursor<'_>, usize, Line) -> Result<(Expr, usize), Cause>,
    G: Fn(Global, &mut Cursor<'_>, usize) -> Result<(Target, usize), Cause>,
>(inner: &Inner<F, G>, cursor: &mut Cursor<'_>) -> Result<(Argument, usize), Cause>
    requires { Nests inner.now.room (F.pre inner.now.read) (F.post inner.now.read) (G.pre inner.now.target) (G.post inner.now.target) }
    ensures reads { Reads (spec.argument (spec.below inner.now.room) cursor.old) result cursor.new }
    ensures low { IfOk result (λ x. x.1 ≤ inner.now.room) }
{
    if is_dots(cursor.next()) {
        cursor.skip();
        let (value, levels) = inner.read(cursor, Line::Assign)?;
        return Ok((Argument::Spread(value), levels));
    }
    let (value, levels) = inner.read(cursor, Line::Assign)?;
    Ok((Argument::One(value), levels))
}

/// Values with commas between, and perhaps one behind the last, up to a closing bracket; with the
/// greatest of their levels.
///
/// # Errors
/// `NoTree` and `TooNested` as the definition says; `Memory`.
#[tactic(auto, unfolding(actx_grammar::specs::Lines::arguments, actx_grammar::specs::Reader::row_from, actx_grammar::specs::Reader::and_then))]
pub fn arguments<
    F: Fn(Global, &mut Cursor<'_>, usize, Line) -> Result<(Expr, usize), Cause>,
    G: Fn(Global, &mut Cursor<'_>, usize) -> Result<(Target, usize), Cause>,
>(
    inner: &Inner<F, G>,
    cursor: &mut Cursor<'_>,
    bracket: Bracket,
) -> Result<(Items<Argument>, usize), Cause>
    requires { Nests inner.now.room (F.pre inner.now.read) (F.post inner.now.read) (G.pre inner.now.target) (G.post inner.now.target) }
    ensures reads { Reads (spec.arguments (spec.below inner.now.room) bracket cursor.old) result cursor.new }
    ensures low { IfOk result (λ x. x.1 ≤ inner.now.room) }
{
    let mut found = Items::new(inner.alloc);
    let mut highest = 0usize;
    for _turn in 0..cursor.len() {
        if cursor.closes(bracket) {
            return Ok((found, highest));
        }
        let (value, levels) = argument(inner, cursor)?;
        found.push(value)?;
        highest = highest.max(levels);
        let more = list_goes_on(cursor, bracket)?;
        if !more {
            return Ok((found, highest));
        }
    }
    Err(Cause::NoTree)
}

/// The arguments of a call, in their brackets (ECMA-262 §13.3.8).
///
/// # Errors
/// `NoTree` and `TooNested` as the definition says; `Memory`.
#[tactic(auto, unfolding(actx_grammar::specs::Lines::args, actx_grammar::specs::Reader::and_then))]
pub fn args<
    F: Fn(Global, &mut Cursor<'_>, usize, Line) -> Result<(Expr, usize), Cause>,
    G: Fn(Global, &mut Cursor<'_>, usize) -> Result<(Target, usize), Cause>,
>(inner: &Inner<F, G>, cursor: &mut Cursor<'_>) -> Result<(Items<Argument>, usize), Cause>
    requires { Nests inner.now.room (F.pre inner.now.read) (F.post inner.now.read) (G.pre inner.now.target) (G.post inner.now.target) }
    ensures reads { Reads (spec.args (spec.below inner.now.room) cursor.old) result cursor.new }
    ensures low { IfOk result (λ x. x.1 ≤ inner.now.room) }
{
    cursor.open_parenthesis()?;
    let (found, levels) = arguments(inner, cursor, Bracket::Round)?;
    cursor.close(Bracket::Round)?;
    Ok((found, levels))
}
