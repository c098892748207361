//! Targets with their defaults, and lists of them (ECMA-262 §14.3.3, BindingElement).

ghost use Rattle.std.specs.Prelude.{◌≡◌, ◌≤◌, IfOk};
ghost use Rattle.actx_cursor.specs.Nests.{Nests};
ghost use Rattle.actx_grammar.specs.Lines.{below};
ghost use Rattle.actx_grammar.specs.Patterns as spec;
ghost use Rattle.actx_grammar.specs.Reads.{Reads};

use crate::commas::list_goes_on;
use actx_cursor::{Cursor, Inner};
use actx_grammar::{Bracket, Cause, Kind, Line};
use actx_lex::Punct;
use actx_tree::{Elem, Expr, Target};
use sqlite_items::{Boxed, Items};
use std::alloc::Global;

/// `=` and a value, if `=` comes next (ECMA-262 §13.2.5, Initializer).
///
/// # Errors
/// `NoTree` and `TooNested` as the definition says; `Memory`.
#[tactic(auto, unfolding(actx_grammar::specs::Patterns::default_value, actx_grammar::specs::Reader::and_then))]
pub fn default_value<
    F: Fn(Global, &mut Cursor<'_>, usize, Line) -> Result<(Expr, usize), Cause>,
    G: Fn(Global, &mut Cursor<'_>, usize) -> Result<(Target, usize), Cause>,
>(inner: &Inner<F, G>, cursor: &mut Cursor<'_>) -> Result<(Option<Boxed<Expr>>, usize), Cause>
    requires nests { Nests inner.now.room (F.pre inner.now.read) (F.post inner.now.read) (G.pre inner.now.target) (G.post inner.now.target) }
    ensures reads { Reads (spec.default_value (below inner.now.room) cursor.old) result cursor.new }
    ensures low { IfOk result (λ x. x.1 ≤ inner.now.room) }
{
    if !matches!(cursor.next(), Kind::Sign(Punct::Assign)) {
        return Ok((None, 0));
    }
    cursor.skip();
    let (value, levels) = inner.read(cursor, Line::Assign)?;
    Ok((Some(Boxed::new(inner.alloc, value)?), levels))
}

/// A target and its default (ECMA-262 §14.3.3, BindingElement).
///
/// # Errors
/// `NoTree` and `TooNested` as the definition says; `Memory`.
#[tactic(auto, unfolding(actx_grammar::specs::Patterns::elem, actx_grammar::specs::Reader::and_then))]
pub fn elem<
    F: Fn(Global, &mut Cursor<'_>, usize, Line) -> Result<(Expr, usize), Cause>,
    G: Fn(Global, &mut Cursor<'_>, usize) -> Result<(Target, usize), Cause>,
>(inner: &Inner<F, G>, cursor: &mut Cursor<'_>) -> Result<(Elem, usize), Cause>
    requires nests { Nests inner.now.room (F.pre inner.now.read) (F.post inner.now.read) (G.pre inner.now.target) (G.post inner.now.target) }
    ensures reads { Reads (spec.elem (below inner.now.room) cursor.old) result cursor.new }
    ensures low { IfOk result (λ x. x.1 ≤ inner.now.room) }
{
    let (target, levels) = inner.target(cursor)?;
    let (default, other) = default_value(inner, cursor)?;
    Ok((Elem { target, default }, levels.max(other)))
}

/// Whether a list of targets ends before a token of that kind: the closing bracket or `...`.
pub(crate) fn ends_elems(bracket: Bracket, kind: Kind) -> bool
    ensures { result ≡ spec.ends_elems bracket kind }
{
    match (bracket, kind) {
        (_, Kind::Sign(Punct::Ellipsis))
        | (Bracket::Round, Kind::Sign(Punct::CloseParenthesis))
        | (Bracket::Square, Kind::Sign(Punct::CloseBracket))
        | (Bracket::Curly, Kind::Sign(Punct::CloseBrace)) => true,
        _ => false,
    }
}

/// Targets with `,` between, up to the closing bracket or `...` (ECMA-262 §14.3.3,
/// BindingElementList).
///
/// # Errors
/// `NoTree` and `TooNested` as the definition says; `Memory`.
#[tactic(auto, unfolding(actx_grammar::specs::Patterns::elems))]
pub fn elems<
    F: Fn(Global, &mut Cursor<'_>, usize, Line) -> Result<(Expr, usize), Cause>,
    G: Fn(Global, &mut Cursor<'_>, usize) -> Result<(Target, usize), Cause>,
>(
    inner: &Inner<F, G>,
    cursor: &mut Cursor<'_>,
    bracket: Bracket,
) -> Result<(Items<Elem>, usize), Cause>
    requires nests { Nests inner.now.room (F.pre inner.now.read) (F.post inner.now.read) (G.pre inner.now.target) (G.post inner.now.target) }
    ensures reads { Reads (spec.elems (below inner.now.room) bracket cursor.old) result cursor.new }
    ensures low { IfOk result (λ x. x.1 ≤ inner.now.room) }
{
    let mut found = Items::new(inner.alloc);
    let mut highest = 0;
    for _turn in 0..cursor.len() {
        if ends_elems(bracket, cursor.next()) {
            return Ok((found, highest));
        }
        let (item, levels) = elem(inner, cursor)?;
        found.push(item)?;
        highest = highest.max(levels);
        if !list_goes_on(cursor, bracket)? {
            return Ok((found, highest));
        }
    }
    Err(Cause::NoTree)
}
