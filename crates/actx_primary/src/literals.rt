//! Expressions between brackets: an expression alone, arrays and objects (ECMA-262 §13.2).

ghost use Rattle.actx_cursor.specs.Nests.{Nests};
ghost use Rattle.actx_grammar.specs.Lines as spec;
ghost use Rattle.actx_grammar.specs.Reads.{Reads};
ghost use Rattle.std.specs.Prelude.{◌+◌, ◌≤◌, IfOk};

use crate::objects::entries;
use crate::values::arguments;
use actx_cursor::{Cursor, Inner};
use actx_grammar::{Bracket, Cause, Line};
use actx_tree::{Expr, Target};
use sqlite_items::Boxed;
use std::alloc::Global;

/// `(`, which comes next, an expression and `)` (ECMA-262 §13.2.9).
///
/// # Errors
/// `NoTree` and `TooNested` as the definition says; `Memory`.
#[tactic(auto, unfolding(actx_grammar::specs::Lines::brackets, actx_grammar::specs::Reader::and_then))]
pub fn brackets<
    F: Fn(Global, &mut Cursor<'_>, usize, Line) -> Result<(Expr, usize), Cause>,
    G: Fn(Global, &mut Cursor<'_>, usize) -> Result<(Target, usize), Cause>,
>(inner: &Inner<F, G>, cursor: &mut Cursor<'_>) -> Result<(Expr, usize), Cause>
    requires { Nests inner.now.room (F.pre inner.now.read) (F.post inner.now.read) (G.pre inner.now.target) (G.post inner.now.target) }
    ensures reads { Reads (spec.brackets (spec.below inner.now.room) cursor.old) result cursor.new }
    ensures low { IfOk result (λ x. x.1 ≤ inner.now.room + 1) }
{
    cursor.skip();
    let (value, levels) = inner.read(cursor, Line::Expr)?;
    cursor.close(Bracket::Round)?;
    let value = Boxed::new(inner.alloc, value)?;
    Ok((Expr::Brackets(value), levels + 1))
}

/// `[`, which comes next, elements and `]` (ECMA-262 §13.2.4).
///
/// # Errors
/// `NoTree` and `TooNested` as the definition says; `Memory`.
#[tactic(auto, unfolding(actx_grammar::specs::Lines::array, actx_grammar::specs::Reader::and_then))]
pub fn array<
    F: Fn(Global, &mut Cursor<'_>, usize, Line) -> Result<(Expr, usize), Cause>,
    G: Fn(Global, &mut Cursor<'_>, usize) -> Result<(Target, usize), Cause>,
>(inner: &Inner<F, G>, cursor: &mut Cursor<'_>) -> Result<(Expr, usize), Cause>
    requires { Nests inner.now.room (F.pre inner.now.read) (F.post inner.now.read) (G.pre inner.now.target) (G.post inner.now.target) }
    ensures reads { Reads (spec.array (spec.below inner.now.room) cursor.old) result cursor.new }
    ensures low { IfOk result (λ x. x.1 ≤ inner.now.room + 1) }
{
    cursor.skip();
    let (found, levels) = arguments(inner, cursor, Bracket::Square)?;
    cursor.close(Bracket::Square)?;
    Ok((Expr::Array(found), levels + 1))
}

/// `{`, which comes next, entries and `}` (ECMA-262 §13.2.5).
///
/// # Errors
/// `NoTree` and `TooNested` as the definition says; `Memory`.
#[tactic(auto, unfolding(actx_grammar::specs::Lines::object, actx_grammar::specs::Reader::and_then))]
pub fn object<
    F: Fn(Global, &mut Cursor<'_>, usize, Line) -> Result<(Expr, usize), Cause>,
    G: Fn(Global, &mut Cursor<'_>, usize) -> Result<(Target, usize), Cause>,
>(inner: &Inner<F, G>, cursor: &mut Cursor<'_>) -> Result<(Expr, usize), Cause>
    requires { Nests inner.now.room (F.pre inner.now.read) (F.post inner.now.read) (G.pre inner.now.target) (G.post inner.now.target) }
    ensures reads { Reads (spec.object (spec.below inner.now.room) cursor.old) result cursor.new }
    ensures low { IfOk result (λ x. x.1 ≤ inner.now.room + 1) }
{
    cursor.skip();
    let (found, levels) = entries(inner, cursor)?;
    cursor.close(Bracket::Curly)?;
    Ok((Expr::Object(found), levels + 1))
}
