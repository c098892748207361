//! Properties of object patterns (ECMA-262 §14.3.3, BindingProperty).

ghost use Rattle.std.specs.Prelude.{◌≤◌, IfOk};
ghost use Rattle.actx_cursor.specs.Nests.{Nests};
ghost use Rattle.actx_grammar.specs.Lines.{below};
ghost use Rattle.actx_grammar.specs.Patterns as spec;
ghost use Rattle.actx_grammar.specs.Reads.{Reads};

use crate::commas::list_goes_on;
use crate::elements::{default_value, elem, ends_elems};
use actx_cursor::{Cursor, Inner};
use actx_grammar::{Bracket, Cause, Kind, Line};
use actx_lex::Punct;
use actx_tree::{Expr, Prop, Target};
use sqlite_items::Items;
use std::alloc::Global;

/// A property: a key, `:` and a target with its default, or a name with its default (ECMA-262
/// §14.3.3, BindingProperty).
///
/// # Errors
/// `NoTree` and `TooNested` as the definition says; `Memory`.
#[tactic(auto, unfolding(actx_grammar::specs::Patterns::prop, actx_grammar::specs::Reader::and_then))]
pub fn prop<
    F: Fn(Global, &mut Cursor<'_>, usize, Line) -> Result<(Expr, usize), Cause>,
    G: Fn(Global, &mut Cursor<'_>, usize) -> Result<(Target, usize), Cause>,
>(inner: &Inner<F, G>, cursor: &mut Cursor<'_>) -> Result<(Prop, usize), Cause>
    requires nests { Nests inner.now.room (F.pre inner.now.read) (F.post inner.now.read) (G.pre inner.now.target) (G.post inner.now.target) }
    ensures reads { Reads (spec.prop (below inner.now.room) cursor.old) result cursor.new }
    ensures low { IfOk result (λ x. x.1 ≤ inner.now.room) }
{
    if matches!(cursor.second(), Kind::Sign(Punct::Colon)) {
        let key = cursor.literal(inner.alloc)?;
        cursor.skip();
        let (item, levels) = elem(inner, cursor)?;
        return Ok((Prop::Pair(key, item), levels));
    }
    let name = cursor.name(inner.alloc)?;
    let (default, levels) = default_value(inner, cursor)?;
    Ok((Prop::Shorthand(name, default), levels))
}

/// Properties with `,` between, up to `}` or `...` (ECMA-262 §14.3.3, BindingPropertyList).
///
/// # Errors
/// `NoTree` and `TooNested` as the definition says; `Memory`.
#[tactic(auto, unfolding(actx_grammar::specs::Patterns::props))]
pub fn props<
    F: Fn(Global, &mut Cursor<'_>, usize, Line) -> Result<(Expr, usize), Cause>,
    G: Fn(Global, &mut Cursor<'_>, usize) -> Result<(Target, usize), Cause>,
>(inner: &Inner<F, G>, cursor: &mut Cursor<'_>) -> Result<(Items<Prop>, usize), Cause>
    requires nests { Nests inner.now.room (F.pre inner.now.read) (F.post inner.now.read) (G.pre inner.now.target) (G.post inner.now.target) }
    ensures reads { Reads (spec.props (below inner.now.room) cursor.old) result cursor.new }
    ensures low { IfOk result (λ x. x.1 ≤ inner.now.room) }
{
    let mut found = Items::new(inner.alloc);
    let mut highest = 0;
    for _turn in 0..cursor.len() {
        if ends_elems(Bracket::Curly, cursor.next()) {
            return Ok((found, highest));
        }
        let (item, levels) = prop(inner, cursor)?;
        found.push(item)?;
        highest = highest.max(levels);
        if !list_goes_on(cursor, Bracket::Curly)? {
            return Ok((found, highest));
        }
    }
    Err(Cause::NoTree)
}
