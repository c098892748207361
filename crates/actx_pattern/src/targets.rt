//! Patterns and targets (ECMA-262 §14.3.3).

ghost use Rattle.std.specs.Prelude.{◌≡◌, ◌≤◌, ◌+◌, IfOk};
ghost use Rattle.actx_cursor.specs.Nests.{Nests};
ghost use Rattle.actx_grammar.specs.Lines.{below};
ghost use Rattle.actx_grammar.specs.Lines.{sunk};
ghost use Rattle.actx_grammar.specs.Patterns as spec;
ghost use Rattle.actx_grammar.specs.Reads.{Reads};
ghost use Rattle.actx_grammar.specs.Tokens.{Tokens};

use crate::elements::elems;
use crate::properties::props;
use actx_cursor::{Cursor, Inner};
use actx_grammar::{Bracket, Cause, Kind, Line};
use actx_lex::Punct;
use actx_text::Units;
use actx_tree::{Elem, Expr, Prop, Target};
use sqlite_items::Items;
use std::alloc::Global;

/// An object pattern of these properties, of at most so many levels, which binds something.
fn object_pattern(
    props: Items<Prop>,
    levels: usize,
    rest: Option<Units>,
) -> Result<(Target, usize), Cause>
    requires small { levels ≤ 201 }
    ensures reads { (i : Tokens) → Reads (spec.object_pattern (props, levels) rest i) result i }
    ensures low { IfOk result (λ x. x.1 ≤ levels + 1) }
{
    if props.is_empty() && rest.is_none() {
        return Err(Cause::NoTree);
    }
    Ok((Target::Object(props, rest), levels + 1))
}

/// An array pattern of these members, of at most so many levels, which binds something.
fn array_pattern(
    elems: Items<Elem>,
    levels: usize,
    rest: Option<Units>,
) -> Result<(Target, usize), Cause>
    requires small { levels ≤ 201 }
    ensures reads { (i : Tokens) → Reads (spec.array_pattern (elems, levels) rest i) result i }
    ensures low { IfOk result (λ x. x.1 ≤ levels + 1) }
{
    if elems.is_empty() && rest.is_none() {
        return Err(Cause::NoTree);
    }
    Ok((Target::Array(elems, rest), levels + 1))
}

/// A pattern (ECMA-262 §14.3.3, BindingPattern).
///
/// # Errors
/// `NoTree` and `TooNested` as the definition says; `Memory`.
#[tactic(auto, unfolding(actx_grammar::specs::Patterns::pattern, actx_grammar::specs::Reader::and_then))]
pub fn pattern<
    F: Fn(Global, &mut Cursor<'_>, usize, Line) -> Result<(Expr, usize), Cause>,
    G: Fn(Global, &mut Cursor<'_>, usize) -> Result<(Target, usize), Cause>,
>(inner: &Inner<F, G>, cursor: &mut Cursor<'_>) -> Result<(Target, usize), Cause>
    requires nests { Nests inner.now.room (F.pre inner.now.read) (F.post inner.now.read) (G.pre inner.now.target) (G.post inner.now.target) }
    ensures reads { Reads (spec.pattern (below inner.now.room) cursor.old) result cursor.new }
    ensures low { IfOk result (λ x. x.1 ≤ inner.now.room + 1) }
{
    match cursor.next() {
        Kind::Sign(Punct::OpenBrace) => {
            cursor.skip();
            let (found, levels) = props(inner, cursor)?;
            let rest = cursor.rest_name(inner.alloc, Bracket::Curly)?;
            object_pattern(found, levels, rest)
        }
        Kind::Sign(Punct::OpenBracket) => {
            cursor.skip();
            let (found, levels) = elems(inner, cursor, Bracket::Square)?;
            let rest = cursor.rest_name(inner.alloc, Bracket::Square)?;
            array_pattern(found, levels, rest)
        }
        _ => Err(Cause::NoTree),
    }
}

/// Whether a token of that kind begins a pattern.
fn begins_pattern(kind: Kind) -> bool
    ensures { result ≡ spec.begins_pattern kind }
{
    matches!(
        kind,
        Kind::Sign(Punct::OpenBrace) | Kind::Sign(Punct::OpenBracket)
    )
}

/// A target: a name or a pattern (ECMA-262 §14.3.3).
///
/// # Errors
/// `NoTree` and `TooNested` as the definition says; `Memory`.
#[tactic(auto, unfolding(actx_grammar::specs::Patterns::target_by, actx_grammar::specs::Reader::and_then))]
pub fn read_target<
    F: Fn(Global, &mut Cursor<'_>, usize, Line) -> Result<(Expr, usize), Cause>,
    G: Fn(Global, &mut Cursor<'_>, usize) -> Result<(Target, usize), Cause>,
>(inner: &Inner<F, G>, cursor: &mut Cursor<'_>) -> Result<(Target, usize), Cause>
    requires nests { Nests inner.now.room (F.pre inner.now.read) (F.post inner.now.read) (G.pre inner.now.target) (G.post inner.now.target) }
    ensures reads { Reads (spec.target_by (spec.pattern (below inner.now.room)) cursor.old) result cursor.new }
    ensures low { IfOk result (λ x. x.1 ≤ inner.now.room + 1) }
{
    let next = cursor.next();
    if matches!(next, Kind::Name) {
        let name = cursor.name(inner.alloc)?;
        return Ok((Target::Name(name), 0));
    }
    if begins_pattern(next) {
        return pattern(inner, cursor);
    }
    Err(Cause::NoTree)
}

/// A target where no node fits: a name.
///
/// # Errors
/// `TooNested` where a pattern begins, `NoTree` where anything else does; `Memory`.
#[tactic(auto, unfolding(actx_grammar::specs::Patterns::target_by, actx_grammar::specs::Reader::and_then))]
pub fn read_name_target(alloc: Global, cursor: &mut Cursor<'_>) -> Result<(Target, usize), Cause>
    ensures reads { Reads (spec.target_by sunk cursor.old) result cursor.new }
    ensures low { IfOk result (λ x. x.1 ≡ 0) }
{
    let next = cursor.next();
    if matches!(next, Kind::Name) {
        let name = cursor.name(alloc)?;
        return Ok((Target::Name(name), 0));
    }
    if begins_pattern(next) {
        return Err(Cause::TooNested);
    }
    Err(Cause::NoTree)
}
