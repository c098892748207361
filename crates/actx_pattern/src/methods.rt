//! Keys and methods (ECMA-262 §13.2.5, PropertyName; §15.4).

ghost use Rattle.std.specs.Prelude.{◌≤◌, IfOk};
ghost use Rattle.actx_cursor.specs.Nests.{Nests};
ghost use Rattle.actx_grammar.specs.Lines.{below};
ghost use Rattle.actx_grammar.specs.Patterns as spec;
ghost use Rattle.actx_grammar.specs.Reads.{Reads};

use crate::parameters::params;
use actx_cursor::{Cursor, Inner};
use actx_grammar::{Bracket, Cause, Kind, Line};
use actx_lex::Punct;
use actx_tree::{Expr, Flow, Key, Method, Target};
use sqlite_items::Boxed;
use std::alloc::Global;

/// A value in `[` and `]`, as a key, with the first bracket next (ECMA-262 §13.2.5,
/// ComputedPropertyName).
///
/// # Errors
/// `NoTree` and `TooNested` as the definition says; `Memory`.
#[tactic(auto, unfolding(actx_grammar::specs::Patterns::computed_key, actx_grammar::specs::Reader::and_then))]
fn computed_key<
    F: Fn(Global, &mut Cursor<'_>, usize, Line) -> Result<(Expr, usize), Cause>,
    G: Fn(Global, &mut Cursor<'_>, usize) -> Result<(Target, usize), Cause>,
>(inner: &Inner<F, G>, cursor: &mut Cursor<'_>) -> Result<(Key, usize), Cause>
    requires nests { Nests inner.now.room (F.pre inner.now.read) (F.post inner.now.read) (G.pre inner.now.target) (G.post inner.now.target) }
    ensures reads { Reads (spec.computed_key (below inner.now.room) cursor.old) result cursor.new }
    ensures low { IfOk result (λ x. x.1 ≤ inner.now.room) }
{
    cursor.skip();
    let (value, levels) = inner.read(cursor, Line::Assign)?;
    cursor.close(Bracket::Square)?;
    Ok((Key::Computed(Boxed::new(inner.alloc, value)?), levels))
}

/// A key (ECMA-262 §13.2.5, PropertyName).
///
/// # Errors
/// `NoTree` and `TooNested` as the definition says; `Memory`.
#[tactic(auto, unfolding(actx_grammar::specs::Patterns::key, actx_grammar::specs::Reader::and_then))]
pub fn key<
    F: Fn(Global, &mut Cursor<'_>, usize, Line) -> Result<(Expr, usize), Cause>,
    G: Fn(Global, &mut Cursor<'_>, usize) -> Result<(Target, usize), Cause>,
>(inner: &Inner<F, G>, cursor: &mut Cursor<'_>) -> Result<(Key, usize), Cause>
    requires nests { Nests inner.now.room (F.pre inner.now.read) (F.post inner.now.read) (G.pre inner.now.target) (G.post inner.now.target) }
    ensures reads { Reads (spec.key (below inner.now.room) cursor.old) result cursor.new }
    ensures low { IfOk result (λ x. x.1 ≤ inner.now.room) }
{
    if matches!(cursor.next(), Kind::Sign(Punct::OpenBracket)) {
        return computed_key(inner, cursor);
    }
    Ok((cursor.literal(inner.alloc)?, 0))
}

/// What stands behind the key of a method, whose key has at most so many levels: parameters, and
/// a body that is passed over (ECMA-262 §15.4, MethodDefinition).
///
/// # Errors
/// `NoTree` and `TooNested` as the definition says; `Memory`.
#[tactic(auto, unfolding(actx_grammar::specs::Patterns::method_tail, actx_grammar::specs::Reader::and_then))]
pub fn method_tail<
    F: Fn(Global, &mut Cursor<'_>, usize, Line) -> Result<(Expr, usize), Cause>,
    G: Fn(Global, &mut Cursor<'_>, usize) -> Result<(Target, usize), Cause>,
>(
    inner: &Inner<F, G>,
    cursor: &mut Cursor<'_>,
    flow: Flow,
    key: Key,
    levels: usize,
) -> Result<(Method, usize), Cause>
    requires nests { Nests inner.now.room (F.pre inner.now.read) (F.post inner.now.read) (G.pre inner.now.target) (G.post inner.now.target) }
    requires known { levels ≤ inner.now.room }
    ensures reads { Reads (spec.method_tail (below inner.now.room) flow (key, levels) cursor.old) result cursor.new }
    ensures low { IfOk result (λ x. x.1 ≤ inner.now.room) }
{
    let (params, other) = params(inner, cursor)?;
    let body = cursor.unread()?;
    let all = levels.max(other) + 1;
    inner.fits(all)?;
    let method = Method {
        flow,
        key,
        params,
        body,
    };
    Ok((method, all))
}
