//! Entries of an object (ECMA-262 §13.2.5).

ghost use Rattle.actx_cursor.specs.Nests.{Nests};
ghost use Rattle.actx_grammar.specs.Lines as spec;
ghost use Rattle.actx_grammar.specs.Reads.{Reads};
ghost use Rattle.std.specs.Prelude.{◌≤◌, IfOk};

use crate::kinds::{is_colon, is_dots};
use actx_cursor::{Cursor, Inner};
use actx_grammar::{Bracket, Cause, Line};
use actx_pattern::{key, list_goes_on, method_tail};
use actx_tree::{Entry, Expr, Flow, Key, Target};
use sqlite_items::Items;
use std::alloc::Global;

/// What stands behind a key of an object: `:` and a value, or the rest of a method. `levels` is
/// those of the key.
///
/// # Errors
/// `NoTree` and `TooNested` as the definition says; `Memory`.
#[tactic(auto, unfolding(actx_grammar::specs::Lines::pair_or_method, actx_grammar::specs::Reader::and_then))]
pub fn pair_or_method<
    F: Fn(Global, &mut Cursor<'_>, usize, Line) -> Result<(Expr, usize), Cause>,
    G: Fn(Global, &mut Cursor<'_>, usize) -> Result<(Target, usize), Cause>,
>(
    inner: &Inner<F, G>,
    cursor: &mut Cursor<'_>,
    flow: Flow,
    key: Key,
    levels: usize,
) -> Result<(Entry, usize), Cause>
    requires nests { Nests inner.now.room (F.pre inner.now.read) (F.post inner.now.read) (G.pre inner.now.target) (G.post inner.now.target) }
    requires low { levels ≤ inner.now.room }
    ensures reads { Reads (spec.pair_or_method (spec.below inner.now.room) flow (key, levels) cursor.old) result cursor.new }
    ensures low { IfOk result (λ x. x.1 ≤ inner.now.room) }
{
    if is_colon(cursor.next()) && matches!(flow, Flow::Plain) {
        cursor.skip();
        let (value, others) = inner.read(cursor, Line::Assign)?;
        return Ok((Entry::Pair(key, value), levels.max(others)));
    }
    let (method, levels) = method_tail(inner, cursor, flow, key, levels)?;
    Ok((Entry::Method(method), levels))
}

/// An entry with a key: a pair or a method.
///
/// # Errors
/// `NoTree` and `TooNested` as the definition says; `Memory`.
#[tactic(auto, unfolding(actx_grammar::specs::Lines::keyed, actx_grammar::specs::Reader::method_head, actx_grammar::specs::Reader::and_then))]
pub fn keyed<
    F: Fn(Global, &mut Cursor<'_>, usize, Line) -> Result<(Expr, usize), Cause>,
    G: Fn(Global, &mut Cursor<'_>, usize) -> Result<(Target, usize), Cause>,
>(inner: &Inner<F, G>, cursor: &mut Cursor<'_>) -> Result<(Entry, usize), Cause>
    requires { Nests inner.now.room (F.pre inner.now.read) (F.post inner.now.read) (G.pre inner.now.target) (G.post inner.now.target) }
    ensures reads { Reads (spec.keyed (spec.below inner.now.room) cursor.old) result cursor.new }
    ensures low { IfOk result (λ x. x.1 ≤ inner.now.room) }
{
    let flow = cursor.method_head();
    let (key, levels) = key(inner, cursor)?;
    pair_or_method(inner, cursor, flow, key, levels)
}

/// `...`, which comes next, and a value.
///
/// # Errors
/// `NoTree` and `TooNested` as the definition says; `Memory`.
#[tactic(auto, unfolding(actx_grammar::specs::Lines::spread_entry, actx_grammar::specs::Reader::and_then))]
pub fn spread_entry<
    F: Fn(Global, &mut Cursor<'_>, usize, Line) -> Result<(Expr, usize), Cause>,
    G: Fn(Global, &mut Cursor<'_>, usize) -> Result<(Target, usize), Cause>,
>(inner: &Inner<F, G>, cursor: &mut Cursor<'_>) -> Result<(Entry, usize), Cause>
    requires { Nests inner.now.room (F.pre inner.now.read) (F.post inner.now.read) (G.pre inner.now.target) (G.post inner.now.target) }
    ensures reads { Reads (spec.spread_entry (spec.below inner.now.room) cursor.old) result cursor.new }
    ensures low { IfOk result (λ x. x.1 ≤ inner.now.room) }
{
    cursor.skip();
    let (value, levels) = inner.read(cursor, Line::Assign)?;
    Ok((Entry::Spread(value), levels))
}

/// A name that is an entry alone. It stands for a key and a value, and the value is a node.
///
/// # Errors
/// `TooNested` where no node fits; `NoTree` where no name stands; `Memory`.
#[tactic(auto, unfolding(actx_grammar::specs::Lines::named_entry, actx_grammar::specs::Reader::and_then))]
fn named_entry<
    F: Fn(Global, &mut Cursor<'_>, usize, Line) -> Result<(Expr, usize), Cause>,
    G: Fn(Global, &mut Cursor<'_>, usize) -> Result<(Target, usize), Cause>,
>(inner: &Inner<F, G>, cursor: &mut Cursor<'_>) -> Result<(Entry, usize), Cause>
    ensures reads { Reads (spec.named_entry (spec.below inner.now.room) cursor.old) result cursor.new }
    ensures low { IfOk result (λ x. x.1 ≤ inner.now.room) }
{
    inner.fits(1)?;
    let name = cursor.name(inner.alloc)?;
    Ok((Entry::Shorthand(name), 1))
}

/// An entry of an object.
///
/// # Errors
/// `NoTree` and `TooNested` as the definition says; `Memory`.
#[tactic(auto, unfolding(actx_grammar::specs::Lines::entry, actx_grammar::specs::Reader::and_then))]
pub fn entry<
    F: Fn(Global, &mut Cursor<'_>, usize, Line) -> Result<(Expr, usize), Cause>,
    G: Fn(Global, &mut Cursor<'_>, usize) -> Result<(Target, usize), Cause>,
>(inner: &Inner<F, G>, cursor: &mut Cursor<'_>) -> Result<(Entry, usize), Cause>
    requires { Nests inner.now.room (F.pre inner.now.read) (F.post inner.now.read) (G.pre inner.now.target) (G.post inner.now.target) }
    ensures reads { Reads (spec.entry (spec.below inner.now.room) cursor.old) result cursor.new }
    ensures low { IfOk result (λ x. x.1 ≤ inner.now.room) }
{
    if is_dots(cursor.next()) {
        return spread_entry(inner, cursor);
    }
    if cursor.is_shorthand() {
        return named_entry(inner, cursor);
    }
    keyed(inner, cursor)
}

/// Entries with commas between, and perhaps one behind the last, up to `}`; with the greatest of
/// their levels.
///
/// # Errors
/// `NoTree` and `TooNested` as the definition says; `Memory`.
#[tactic(auto, unfolding(actx_grammar::specs::Lines::entries, actx_grammar::specs::Reader::row_from, actx_grammar::specs::Reader::and_then))]
pub fn entries<
    F: Fn(Global, &mut Cursor<'_>, usize, Line) -> Result<(Expr, usize), Cause>,
    G: Fn(Global, &mut Cursor<'_>, usize) -> Result<(Target, usize), Cause>,
>(inner: &Inner<F, G>, cursor: &mut Cursor<'_>) -> Result<(Items<Entry>, usize), Cause>
    requires { Nests inner.now.room (F.pre inner.now.read) (F.post inner.now.read) (G.pre inner.now.target) (G.post inner.now.target) }
    ensures reads { Reads (spec.entries (spec.below inner.now.room) cursor.old) result cursor.new }
    ensures low { IfOk result (λ x. x.1 ≤ inner.now.room) }
{
    let mut found = Items::new(inner.alloc);
    let mut highest = 0usize;
    for _turn in 0..cursor.len() {
        if cursor.closes(Bracket::Curly) {
            return Ok((found, highest));
        }
        let (member, levels) = entry(inner, cursor)?;
        found.push(member)?;
        highest = highest.max(levels);
        let more = list_goes_on(cursor, Bracket::Curly)?;
        if !more {
            return Ok((found, highest));
        }
    }
    Err(Cause::NoTree)
}
