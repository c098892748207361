//! Suffixes: members, indexes and calls (ECMA-262 §13.3).

ghost use Rattle.actx_cursor.specs.Nests.{Nests};
ghost use Rattle.actx_grammar.specs.Lines as spec;
ghost use Rattle.actx_grammar.specs.Reads.{Reads};
ghost use Rattle.std.specs.Prelude.{◌≤◌, IfOk};

use crate::kinds::{begins_member, begins_suffix};
use crate::values::args;
use actx_cursor::{Cursor, Inner};
use actx_grammar::{Bracket, Cause, Kind, Line};
use actx_lex::Punct;
use actx_tree::{Expr, Suffix, Target};
use sqlite_items::Items;
use std::alloc::Global;

/// `[ .. ]`: the expression in it.
///
/// # Errors
/// `NoTree` and `TooNested` as the definition says; `Memory`.
#[tactic(auto, unfolding(actx_grammar::specs::Lines::index, actx_grammar::specs::Reader::and_then))]
pub fn index<
    F: Fn(Global, &mut Cursor<'_>, usize, Line) -> Result<(Expr, usize), Cause>,
    G: Fn(Global, &mut Cursor<'_>, usize) -> Result<(Target, usize), Cause>,
>(inner: &Inner<F, G>, cursor: &mut Cursor<'_>) -> Result<(Expr, usize), Cause>
    requires { Nests inner.now.room (F.pre inner.now.read) (F.post inner.now.read) (G.pre inner.now.target) (G.post inner.now.target) }
    ensures reads { Reads (spec.index (spec.below inner.now.room) cursor.old) result cursor.new }
    ensures low { IfOk result (λ x. x.1 ≤ inner.now.room) }
{
    cursor.open_bracket()?;
    let (value, levels) = inner.read(cursor, Line::Expr)?;
    cursor.close(Bracket::Square)?;
    Ok((value, levels))
}

/// `.name` or `[ .. ]`.
///
/// # Errors
/// `NoTree` and `TooNested` as the definition says; `Memory`.
#[tactic(auto, unfolding(actx_grammar::specs::Lines::member_suffix, actx_grammar::specs::Reader::and_then))]
pub fn member_suffix<
    F: Fn(Global, &mut Cursor<'_>, usize, Line) -> Result<(Expr, usize), Cause>,
    G: Fn(Global, &mut Cursor<'_>, usize) -> Result<(Target, usize), Cause>,
>(inner: &Inner<F, G>, cursor: &mut Cursor<'_>) -> Result<(Suffix, usize), Cause>
    requires { Nests inner.now.room (F.pre inner.now.read) (F.post inner.now.read) (G.pre inner.now.target) (G.post inner.now.target) }
    ensures reads { Reads (spec.member_suffix (spec.below inner.now.room) cursor.old) result cursor.new }
    ensures low { IfOk result (λ x. x.1 ≤ inner.now.room) }
{
    match cursor.next() {
        Kind::Sign(Punct::Dot) => {
            cursor.skip();
            Ok((Suffix::Member(false, cursor.word(inner.alloc)?), 0))
        }
        Kind::Sign(Punct::OpenBracket) => {
            let (value, levels) = index(inner, cursor)?;
            Ok((Suffix::Index(false, value), levels))
        }
        _ => Err(Cause::NoTree),
    }
}

/// What stands behind `?.` (ECMA-262 §13.3.9).
///
/// # Errors
/// `NoTree` and `TooNested` as the definition says; `Memory`.
#[tactic(auto, unfolding(actx_grammar::specs::Lines::optional_suffix, actx_grammar::specs::Reader::and_then))]
pub fn optional_suffix<
    F: Fn(Global, &mut Cursor<'_>, usize, Line) -> Result<(Expr, usize), Cause>,
    G: Fn(Global, &mut Cursor<'_>, usize) -> Result<(Target, usize), Cause>,
>(inner: &Inner<F, G>, cursor: &mut Cursor<'_>) -> Result<(Suffix, usize), Cause>
    requires { Nests inner.now.room (F.pre inner.now.read) (F.post inner.now.read) (G.pre inner.now.target) (G.post inner.now.target) }
    ensures reads { Reads (spec.optional_suffix (spec.below inner.now.room) cursor.old) result cursor.new }
    ensures low { IfOk result (λ x. x.1 ≤ inner.now.room) }
{
    match cursor.next() {
        Kind::Sign(Punct::OpenBracket) => {
            let (value, levels) = index(inner, cursor)?;
            Ok((Suffix::Index(true, value), levels))
        }
        Kind::Sign(Punct::OpenParenthesis) => {
            let (found, levels) = args(inner, cursor)?;
            Ok((Suffix::Call(true, found), levels))
        }
        _ => Ok((Suffix::Member(true, cursor.word(inner.alloc)?), 0)),
    }
}

/// A suffix: `.name`, `[ .. ]` or `( .. )`, or one of them behind `?.`.
///
/// # Errors
/// `NoTree` and `TooNested` as the definition says; `Memory`.
#[tactic(auto, unfolding(actx_grammar::specs::Lines::suffix, actx_grammar::specs::Reader::and_then))]
pub fn suffix<
    F: Fn(Global, &mut Cursor<'_>, usize, Line) -> Result<(Expr, usize), Cause>,
    G: Fn(Global, &mut Cursor<'_>, usize) -> Result<(Target, usize), Cause>,
>(inner: &Inner<F, G>, cursor: &mut Cursor<'_>) -> Result<(Suffix, usize), Cause>
    requires { Nests inner.now.room (F.pre inner.now.read) (F.post inner.now.read) (G.pre inner.now.target) (G.post inner.now.target) }
    ensures reads { Reads (spec.suffix (spec.below inner.now.room) cursor.old) result cursor.new }
    ensures low { IfOk result (λ x. x.1 ≤ inner.now.room) }
{
    match cursor.next() {
        Kind::Sign(Punct::OpenParenthesis) => {
            let (found, levels) = args(inner, cursor)?;
            Ok((Suffix::Call(false, found), levels))
        }
        Kind::Sign(Punct::OptionalDot) => {
            cursor.skip();
            optional_suffix(inner, cursor)
        }
        _ => member_suffix(inner, cursor),
    }
}

/// Suffixes, as long as one begins; with the greatest of their levels and of `highest`.
///
/// # Errors
/// `NoTree` and `TooNested` as the definition says; `Memory`.
#[tactic(auto, unfolding(actx_grammar::specs::Lines::suffixes, actx_grammar::specs::Lines::goes_on_suffix, actx_grammar::specs::Reader::many_from, actx_grammar::specs::Reader::and_then))]
pub fn suffixes<
    F: Fn(Global, &mut Cursor<'_>, usize, Line) -> Result<(Expr, usize), Cause>,
    G: Fn(Global, &mut Cursor<'_>, usize) -> Result<(Target, usize), Cause>,
>(
    inner: &Inner<F, G>,
    cursor: &mut Cursor<'_>,
    mut highest: usize,
) -> Result<(Items<Suffix>, usize), Cause>
    requires nests { Nests inner.now.room (F.pre inner.now.read) (F.post inner.now.read) (G.pre inner.now.target) (G.post inner.now.target) }
    requires low { highest ≤ inner.now.room }
    ensures reads { Reads (spec.suffixes (spec.below inner.now.room) highest cursor.old) result cursor.new }
    ensures low { IfOk result (λ x. x.1 ≤ inner.now.room) }
{
    let mut found = Items::new(inner.alloc);
    for _turn in 0..cursor.len() {
        if !begins_suffix(cursor.next()) {
            return Ok((found, highest));
        }
        let (member, levels) = suffix(inner, cursor)?;
        found.push(member)?;
        highest = highest.max(levels);
    }
    Ok((found, highest))
}

/// The members that `new` takes, as long as one begins; with the greatest of their levels and of
/// `highest`.
///
/// # Errors
/// `NoTree` and `TooNested` as the definition says; `Memory`.
#[tactic(auto, unfolding(actx_grammar::specs::Lines::member_suffixes, actx_grammar::specs::Lines::goes_on_member, actx_grammar::specs::Reader::many_from, actx_grammar::specs::Reader::and_then))]
pub fn member_suffixes<
    F: Fn(Global, &mut Cursor<'_>, usize, Line) -> Result<(Expr, usize), Cause>,
    G: Fn(Global, &mut Cursor<'_>, usize) -> Result<(Target, usize), Cause>,
>(
    inner: &Inner<F, G>,
    cursor: &mut Cursor<'_>,
    mut highest: usize,
) -> Result<(Items<Suffix>, usize), Cause>
    requires nests { Nests inner.now.room (F.pre inner.now.read) (F.post inner.now.read) (G.pre inner.now.target) (G.post inner.now.target) }
    requires low { highest ≤ inner.now.room }
    ensures reads { Reads (spec.member_suffixes (spec.below inner.now.room) highest cursor.old) result cursor.new }
    ensures low { IfOk result (λ x. x.1 ≤ inner.now.room) }
{
    let mut found = Items::new(inner.alloc);
    for _turn in 0..cursor.len() {
        if !begins_member(cursor.next()) {
            return Ok((found, highest));
        }
        let (member, levels) = member_suffix(inner, cursor)?;
        found.push(member)?;
        highest = highest.max(levels);
    }
    Ok((found, highest))
}
