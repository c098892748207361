//! Classes (ECMA-262 §15.7).

ghost use Rattle.std.specs.Prelude.{◌≡◌, ◌≤◌, ◌+◌, [], IfOk};
ghost use Rattle.actx_cursor.specs.Nests.{Nests};
ghost use Rattle.actx_grammar.specs.Kinds as kinds;
ghost use Rattle.actx_grammar.specs.Lines.{below};
ghost use Rattle.actx_grammar.specs.Patterns as spec;
ghost use Rattle.actx_grammar.specs.Places as places;
ghost use Rattle.actx_grammar.specs.Reader as reader;
ghost use Rattle.actx_grammar.specs.Reads.{Reads};

use crate::methods::{key, method_tail};
use actx_cursor::{Cursor, Inner};
use actx_grammar::{Bracket, Cause, Kind, Line, Word};
use actx_lex::Punct;
use actx_tree::{Class, Expr, Key, Member, Target};
use sqlite_items::{Boxed, Items};
use std::alloc::Global;

/// Whether the key is a word or a text.
fn is_plain_key(key: &Key) -> bool
    ensures { result ≡ places.is_plain_key key.now }
{
    matches!(key, Key::Word(_) | Key::Text(_))
}

/// Whether a token of that kind is `;`.
fn is_semicolon(kind: Kind) -> bool
    ensures { result ≡ kinds.is_semicolon kind }
{
    matches!(kind, Kind::Sign(Punct::Semicolon))
}

/// A method of a class, whose key is a word or a text (ECMA-262 §15.7, ClassElement).
///
/// # Errors
/// `NoTree` and `TooNested` as the definition says; `Memory`.
#[tactic(auto, unfolding(actx_grammar::specs::Patterns::plain_method, actx_grammar::specs::Reader::method_head, actx_grammar::specs::Reader::and_then))]
pub fn plain_method<
    F: Fn(Global, &mut Cursor<'_>, usize, Line) -> Result<(Expr, usize), Cause>,
    G: Fn(Global, &mut Cursor<'_>, usize) -> Result<(Target, usize), Cause>,
>(inner: &Inner<F, G>, cursor: &mut Cursor<'_>, is_static: bool) -> Result<(Member, usize), Cause>
    requires nests { Nests inner.now.room (F.pre inner.now.read) (F.post inner.now.read) (G.pre inner.now.target) (G.post inner.now.target) }
    ensures reads { Reads (spec.plain_method (below inner.now.room) is_static cursor.old) result cursor.new }
    ensures low { IfOk result (λ x. x.1 ≤ inner.now.room) }
{
    let flow = cursor.method_head();
    let (key, levels) = key(inner, cursor)?;
    if !is_plain_key(&key) {
        return Err(Cause::NoTree);
    }
    let (method, all) = method_tail(inner, cursor, flow, key, levels)?;
    Ok((Member { is_static, method }, all))
}

/// A method of a class, with or without `static` (ECMA-262 §15.7, ClassElement).
///
/// # Errors
/// `NoTree` and `TooNested` as the definition says; `Memory`.
#[tactic(auto, unfolding(actx_grammar::specs::Patterns::member))]
pub fn member<
    F: Fn(Global, &mut Cursor<'_>, usize, Line) -> Result<(Expr, usize), Cause>,
    G: Fn(Global, &mut Cursor<'_>, usize) -> Result<(Target, usize), Cause>,
>(inner: &Inner<F, G>, cursor: &mut Cursor<'_>) -> Result<(Member, usize), Cause>
    requires nests { Nests inner.now.room (F.pre inner.now.read) (F.post inner.now.read) (G.pre inner.now.target) (G.post inner.now.target) }
    ensures reads { Reads (spec.member (below inner.now.room) cursor.old) result cursor.new }
    ensures low { IfOk result (λ x. x.1 ≤ inner.now.room) }
{
    if cursor.is_static() {
        cursor.skip();
        return plain_method(inner, cursor, true);
    }
    plain_method(inner, cursor, false)
}

/// The members of a class up to `}`; `levels` is counted with theirs (ECMA-262 §15.7,
/// ClassElementList).
///
/// # Errors
/// `NoTree` and `TooNested` as the definition says; `Memory`.
#[tactic(auto, unfolding(actx_grammar::specs::Patterns::members_from, actx_grammar::specs::Reader::and_then))]
pub fn members<
    F: Fn(Global, &mut Cursor<'_>, usize, Line) -> Result<(Expr, usize), Cause>,
    G: Fn(Global, &mut Cursor<'_>, usize) -> Result<(Target, usize), Cause>,
>(
    inner: &Inner<F, G>,
    cursor: &mut Cursor<'_>,
    levels: usize,
) -> Result<(Items<Member>, usize), Cause>
    requires nests { Nests inner.now.room (F.pre inner.now.read) (F.post inner.now.read) (G.pre inner.now.target) (G.post inner.now.target) }
    requires known { levels ≤ inner.now.room }
    ensures reads { Reads (spec.members_from (below inner.now.room) (reader.count cursor.old) [] levels cursor.old) result cursor.new }
    ensures low { IfOk result (λ x. x.1 ≤ inner.now.room) }
{
    let mut found = Items::new(inner.alloc);
    let mut highest = levels;
    for _turn in 0..cursor.len() {
        if cursor.closes(Bracket::Curly) {
            return Ok((found, highest));
        }
        if is_semicolon(cursor.next()) {
            cursor.skip();
            continue;
        }
        let (item, levels) = member(inner, cursor)?;
        found.push(item)?;
        highest = highest.max(levels);
    }
    Err(Cause::NoTree)
}

/// `extends` and what stands behind it, if it comes next (ECMA-262 §15.7, ClassHeritage).
///
/// # Errors
/// `NoTree` and `TooNested` as the definition says; `Memory`.
#[tactic(auto, unfolding(actx_grammar::specs::Patterns::heritage, actx_grammar::specs::Reader::and_then))]
pub fn heritage<
    F: Fn(Global, &mut Cursor<'_>, usize, Line) -> Result<(Expr, usize), Cause>,
    G: Fn(Global, &mut Cursor<'_>, usize) -> Result<(Target, usize), Cause>,
>(inner: &Inner<F, G>, cursor: &mut Cursor<'_>) -> Result<(Option<Boxed<Expr>>, usize), Cause>
    requires nests { Nests inner.now.room (F.pre inner.now.read) (F.post inner.now.read) (G.pre inner.now.target) (G.post inner.now.target) }
    ensures reads { Reads (spec.heritage (below inner.now.room) cursor.old) result cursor.new }
    ensures low { IfOk result (λ x. x.1 ≤ inner.now.room) }
{
    if !matches!(cursor.next(), Kind::Word(Word::Extends)) {
        return Ok((None, 0));
    }
    cursor.skip();
    let (parent, levels) = inner.read(cursor, Line::Left)?;
    Ok((Some(Boxed::new(inner.alloc, parent)?), levels))
}

/// A class (ECMA-262 §15.7).
///
/// # Errors
/// `NoTree` and `TooNested` as the definition says; `Memory`.
#[tactic(auto, unfolding(actx_grammar::specs::Patterns::class, actx_grammar::specs::Reader::and_then))]
pub fn class<
    F: Fn(Global, &mut Cursor<'_>, usize, Line) -> Result<(Expr, usize), Cause>,
    G: Fn(Global, &mut Cursor<'_>, usize) -> Result<(Target, usize), Cause>,
>(inner: &Inner<F, G>, cursor: &mut Cursor<'_>) -> Result<(Class, usize), Cause>
    requires nests { Nests inner.now.room (F.pre inner.now.read) (F.post inner.now.read) (G.pre inner.now.target) (G.post inner.now.target) }
    ensures reads { Reads (spec.class (below inner.now.room) cursor.old) result cursor.new }
    ensures low { IfOk result (λ x. x.1 ≤ inner.now.room + 1) }
{
    cursor.class_word()?;
    let name = cursor.optional_name(inner.alloc)?;
    let (parent, levels) = heritage(inner, cursor)?;
    cursor.open_brace()?;
    let (members, highest) = members(inner, cursor, levels)?;
    cursor.close(Bracket::Curly)?;
    let class = Class {
        name,
        parent,
        members,
    };
    Ok((class, highest + 1))
}
