//! Primaries: what stands for a value by itself (ECMA-262 §13.2).

ghost use Rattle.actx_cursor.specs.Nests.{Nests};
ghost use Rattle.actx_grammar.specs.Lines as spec;
ghost use Rattle.actx_grammar.specs.Reads.{Reads};
ghost use Rattle.actx_grammar.specs.Tokens as tokens;
ghost use Rattle.actx_grammar.specs.declared.kind.Kind.TheVariants as kind;
ghost use Rattle.actx_grammar.specs.declared.word.Word.TheVariants as word;
ghost use Rattle.std.specs.Prelude.{◌≡◌, ◌+◌, ◌≤◌, IfOk};

use crate::literals::{array, brackets, object};
use crate::templates::template;
use crate::values::args;
use actx_cursor::{Cursor, Inner};
use actx_grammar::{Cause, Kind, Line, Word};
use actx_lex::Punct;
use actx_pattern::{class, function};
use actx_tree::{Expr, Target};
use std::alloc::Global;

/// What stands behind `super`: arguments, or `.name` (ECMA-262 §13.3.7).
///
/// # Errors
/// `NoTree` and `TooNested` as the definition says; `Memory`.
#[tactic(auto, unfolding(actx_grammar::specs::Lines::super_form, actx_grammar::specs::Reader::and_then))]
pub fn super_form<
    F: Fn(Global, &mut Cursor<'_>, usize, Line) -> Result<(Expr, usize), Cause>,
    G: Fn(Global, &mut Cursor<'_>, usize) -> Result<(Target, usize), Cause>,
>(inner: &Inner<F, G>, cursor: &mut Cursor<'_>) -> Result<(Expr, usize), Cause>
    requires { Nests inner.now.room (F.pre inner.now.read) (F.post inner.now.read) (G.pre inner.now.target) (G.post inner.now.target) }
    ensures reads { Reads (spec.super_form (spec.below inner.now.room) cursor.old) result cursor.new }
    ensures low { IfOk result (λ x. x.1 ≤ inner.now.room + 1) }
{
    match cursor.next() {
        Kind::Sign(Punct::OpenParenthesis) => {
            let (found, levels) = args(inner, cursor)?;
            Ok((Expr::SuperCall(found), levels + 1))
        }
        Kind::Sign(Punct::Dot) => {
            cursor.skip();
            Ok((Expr::SuperMember(cursor.word(inner.alloc)?), 1))
        }
        _ => Err(Cause::NoTree),
    }
}

/// A function expression (ECMA-262 §15.2, §15.5, §15.8).
///
/// # Errors
/// `NoTree` and `TooNested` as the definition says; `Memory`.
#[tactic(auto, unfolding(actx_grammar::specs::Lines::function_expression, actx_grammar::specs::Reader::and_then))]
pub fn function_expression<
    F: Fn(Global, &mut Cursor<'_>, usize, Line) -> Result<(Expr, usize), Cause>,
    G: Fn(Global, &mut Cursor<'_>, usize) -> Result<(Target, usize), Cause>,
>(inner: &Inner<F, G>, cursor: &mut Cursor<'_>) -> Result<(Expr, usize), Cause>
    requires { Nests inner.now.room (F.pre inner.now.read) (F.post inner.now.read) (G.pre inner.now.target) (G.post inner.now.target) }
    ensures reads { Reads (spec.function_expression (spec.below inner.now.room) cursor.old) result cursor.new }
    ensures low { IfOk result (λ x. x.1 ≤ inner.now.room + 1) }
{
    let (found, levels) = function(inner, cursor)?;
    Ok((Expr::Function(found), levels))
}

/// A class expression (ECMA-262 §15.7).
#[tactic(auto, unfolding(actx_grammar::specs::Reader::and_then))]
fn class_expression<
    F: Fn(Global, &mut Cursor<'_>, usize, Line) -> Result<(Expr, usize), Cause>,
    G: Fn(Global, &mut Cursor<'_>, usize) -> Result<(Target, usize), Cause>,
>(inner: &Inner<F, G>, cursor: &mut Cursor<'_>) -> Result<(Expr, usize), Cause>
    requires { Nests inner.now.room (F.pre inner.now.read) (F.post inner.now.read) (G.pre inner.now.target) (G.post inner.now.target) }
    ensures reads { Reads (spec.primary_from (spec.below inner.now.room) (kind.Word word.Class) cursor.old) result cursor.new }
    ensures low { IfOk result (λ x. x.1 ≤ inner.now.room + 1) }
{
    let (found, levels) = class(inner, cursor)?;
    Ok((Expr::Class(found), levels))
}

/// A name, or an async function, which begins with a name too.
///
/// # Errors
/// `NoTree` and `TooNested` as the definition says; `Memory`.
#[tactic(auto, unfolding(actx_grammar::specs::Lines::named, actx_grammar::specs::Reader::and_then))]
pub fn named<
    F: Fn(Global, &mut Cursor<'_>, usize, Line) -> Result<(Expr, usize), Cause>,
    G: Fn(Global, &mut Cursor<'_>, usize) -> Result<(Target, usize), Cause>,
>(inner: &Inner<F, G>, cursor: &mut Cursor<'_>) -> Result<(Expr, usize), Cause>
    requires { Nests inner.now.room (F.pre inner.now.read) (F.post inner.now.read) (G.pre inner.now.target) (G.post inner.now.target) }
    ensures reads { Reads (spec.named (spec.below inner.now.room) cursor.old) result cursor.new }
    ensures low { IfOk result (λ x. x.1 ≤ inner.now.room + 1) }
{
    if cursor.is_async_function() {
        return function_expression(inner, cursor);
    }
    Ok((Expr::Name(cursor.name(inner.alloc)?), 1))
}

/// A primary.
///
/// # Errors
/// `NoTree` and `TooNested` as the definition says; `Memory`.
#[tactic(auto, unfolding(actx_grammar::specs::Lines::primary, actx_grammar::specs::Reader::and_then))]
pub fn primary<
    F: Fn(Global, &mut Cursor<'_>, usize, Line) -> Result<(Expr, usize), Cause>,
    G: Fn(Global, &mut Cursor<'_>, usize) -> Result<(Target, usize), Cause>,
>(inner: &Inner<F, G>, cursor: &mut Cursor<'_>) -> Result<(Expr, usize), Cause>
    requires { Nests inner.now.room (F.pre inner.now.read) (F.post inner.now.read) (G.pre inner.now.target) (G.post inner.now.target) }
    ensures reads { Reads (spec.primary (spec.below inner.now.room) cursor.old) result cursor.new }
    ensures low { IfOk result (λ x. x.1 ≤ inner.now.room + 1) }
{
    match cursor.next() {
        Kind::Name => named(inner, cursor),
        Kind::Number => Ok((Expr::Number(cursor.number()?), 1)),
        Kind::Text => Ok((Expr::Text(cursor.text(inner.alloc)?), 1)),
        Kind::Piece(_, _) => template(inner, cursor),
        Kind::Sign(Punct::OpenParenthesis) => brackets(inner, cursor),
        Kind::Sign(Punct::OpenBracket) => array(inner, cursor),
        Kind::Sign(Punct::OpenBrace) => object(inner, cursor),
        Kind::Word(word) => of_word(inner, cursor, word),
        _ => Err(Cause::NoTree),
    }
}

/// A primary that begins with a reserved word.
#[tactic(auto, unfolding(actx_grammar::specs::Reader::and_then))]
fn of_word<
    F: Fn(Global, &mut Cursor<'_>, usize, Line) -> Result<(Expr, usize), Cause>,
    G: Fn(Global, &mut Cursor<'_>, usize) -> Result<(Target, usize), Cause>,
>(inner: &Inner<F, G>, cursor: &mut Cursor<'_>, first: Word) -> Result<(Expr, usize), Cause>
    requires { Nests inner.now.room (F.pre inner.now.read) (F.post inner.now.read) (G.pre inner.now.target) (G.post inner.now.target) }
    ensures reads { Reads (spec.primary_from (spec.below inner.now.room) (kind.Word first) cursor.old) result cursor.new }
    ensures low { IfOk result (λ x. x.1 ≤ inner.now.room + 1) }
{
    match first {
        Word::True => Ok((constant(cursor, Expr::Bool(true)), 1)),
        Word::False => Ok((constant(cursor, Expr::Bool(false)), 1)),
        Word::Null => Ok((constant(cursor, Expr::Null), 1)),
        Word::This => Ok((constant(cursor, Expr::This), 1)),
        Word::Super => {
            cursor.skip();
            super_form(inner, cursor)
        }
        Word::Function => function_expression(inner, cursor),
        Word::Class => class_expression(inner, cursor),
        _ => Err(Cause::NoTree),
    }
}

/// Passes over the next token, a word that stands for the expression.
fn constant(cursor: &mut Cursor<'_>, tree: Expr) -> Expr
    ensures passed { cursor.new ≡ tokens.behind cursor.old }
    ensures same { result ≡ tree }
{
    cursor.skip();
    tree
}
