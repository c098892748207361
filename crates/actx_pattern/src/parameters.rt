//! Parameters of functions (ECMA-262 §15.1, FormalParameters).

ghost use Rattle.std.specs.Prelude.{◌≤◌, IfOk};
ghost use Rattle.actx_cursor.specs.Nests.{Nests};
ghost use Rattle.actx_grammar.specs.Lines.{below};
ghost use Rattle.actx_grammar.specs.Patterns as spec;
ghost use Rattle.actx_grammar.specs.Reads.{Reads};

use crate::elements::elems;
use actx_cursor::{Cursor, Inner};
use actx_grammar::{Bracket, Cause, Line};
use actx_tree::{Expr, Params, Target};
use sqlite_items::Boxed;
use std::alloc::Global;

/// The end of parameters: `...` and a target, if they come next, and `)` (ECMA-262 §15.1,
/// FunctionRestParameter).
///
/// # Errors
/// `NoTree` and `TooNested` as the definition says; `Memory`.
#[tactic(auto, unfolding(actx_grammar::specs::Patterns::rest_target, actx_grammar::specs::Reader::and_then))]
pub fn rest_target<
    F: Fn(Global, &mut Cursor<'_>, usize, Line) -> Result<(Expr, usize), Cause>,
    G: Fn(Global, &mut Cursor<'_>, usize) -> Result<(Target, usize), Cause>,
>(inner: &Inner<F, G>, cursor: &mut Cursor<'_>) -> Result<(Option<Boxed<Target>>, usize), Cause>
    requires nests { Nests inner.now.room (F.pre inner.now.read) (F.post inner.now.read) (G.pre inner.now.target) (G.post inner.now.target) }
    ensures reads { Reads (spec.rest_target (below inner.now.room) cursor.old) result cursor.new }
    ensures low { IfOk result (λ x. x.1 ≤ inner.now.room) }
{
    if cursor.closes(Bracket::Round) {
        cursor.skip();
        return Ok((None, 0));
    }
    cursor.dots()?;
    let (target, levels) = inner.target(cursor)?;
    cursor.close(Bracket::Round)?;
    Ok((Some(Boxed::new(inner.alloc, target)?), levels))
}

/// Parameters in brackets (ECMA-262 §15.1, FormalParameters).
///
/// # Errors
/// `NoTree` and `TooNested` as the definition says; `Memory`.
#[tactic(auto, unfolding(actx_grammar::specs::Patterns::params, actx_grammar::specs::Reader::and_then))]
pub fn params<
    F: Fn(Global, &mut Cursor<'_>, usize, Line) -> Result<(Expr, usize), Cause>,
    G: Fn(Global, &mut Cursor<'_>, usize) -> Result<(Target, usize), Cause>,
>(inner: &Inner<F, G>, cursor: &mut Cursor<'_>) -> Result<(Params, usize), Cause>
    requires nests { Nests inner.now.room (F.pre inner.now.read) (F.post inner.now.read) (G.pre inner.now.target) (G.post inner.now.target) }
    ensures reads { Reads (spec.params (below inner.now.room) cursor.old) result cursor.new }
    ensures low { IfOk result (λ x. x.1 ≤ inner.now.room) }
{
    cursor.open_parenthesis()?;
    let (elems, levels) = elems(inner, cursor, Bracket::Round)?;
    let (rest, other) = rest_target(inner, cursor)?;
    Ok((Params { elems, rest }, levels.max(other)))
}
