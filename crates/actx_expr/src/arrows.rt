//! Arrow functions (ECMA-262 §15.3, §15.8).

ghost use Rattle.std.specs.Prelude.{◌≡◌, ◌+◌, ◌≤◌, IfOk};
ghost use Rattle.actx_cursor.specs.Nests.{Nests};
ghost use Rattle.actx_grammar.specs.Lines as spec;
ghost use Rattle.actx_grammar.specs.Reads.{Reads};

use crate::operators::{is_name, is_open_brace};
use actx_cursor::{Cursor, Inner};
use actx_grammar::{Cause, Line};
use actx_pattern::params;
use actx_tree::{Elem, Expr, Params, Target};
use sqlite_items::{Boxed, Items};
use std::alloc::Global;

/// Reads the parameters of an arrow function: a name, or Params.
#[tactic(auto, unfolding(actx_grammar::specs::Lines::arrow_params, actx_grammar::specs::Reader::and_then))]
fn arrow_params<
    F: Fn(Global, &mut Cursor<'_>, usize, Line) -> Result<(Expr, usize), Cause>,
    G: Fn(Global, &mut Cursor<'_>, usize) -> Result<(Target, usize), Cause>,
>(inner: &Inner<F, G>, cursor: &mut Cursor<'_>) -> Result<(Params, usize), Cause>
    requires nests { Nests inner.now.room (F.pre inner.now.read) (F.post inner.now.read) (G.pre inner.now.target) (G.post inner.now.target) }
    ensures reads { Reads (spec.arrow_params (spec.below inner.now.room) cursor.old) result cursor.new }
    ensures low { IfOk result (λ x. x.1 ≤ inner.now.room) }
{
    if !is_name(cursor.next()) {
        return params(inner, cursor);
    }
    let name = cursor.name(inner.alloc)?;
    let mut elems = Items::new(inner.alloc);
    elems.push(Elem {
        target: Target::Name(name),
        default: None,
    })?;
    Ok((Params { elems, rest: None }, 0))
}

/// Reads what follows `=>`: a Block, which is left unread, or an Assign.
#[tactic(auto, unfolding(actx_grammar::specs::Lines::arrow_body, actx_grammar::specs::Reader::and_then))]
fn arrow_body<
    F: Fn(Global, &mut Cursor<'_>, usize, Line) -> Result<(Expr, usize), Cause>,
    G: Fn(Global, &mut Cursor<'_>, usize) -> Result<(Target, usize), Cause>,
>(
    inner: &Inner<F, G>,
    cursor: &mut Cursor<'_>,
    is_async: bool,
    params: Params,
    levels: usize,
) -> Result<(Expr, usize), Cause>
    requires nests { Nests inner.now.room (F.pre inner.now.read) (F.post inner.now.read) (G.pre inner.now.target) (G.post inner.now.target) }
    requires room { levels ≤ inner.now.room }
    ensures reads { Reads (spec.arrow_body (spec.below inner.now.room) is_async (params, levels) cursor.old) result cursor.new }
    ensures low { IfOk result (λ x. x.1 ≤ inner.now.room + 1) }
{
    if is_open_brace(cursor.next()) {
        let body = cursor.unread()?;
        return Ok((Expr::ArrowBlock(is_async, params, body), levels + 1));
    }
    let (body, height) = inner.read(cursor, Line::Assign)?;
    Ok((
        Expr::Arrow(is_async, params, Boxed::new(inner.alloc, body)?),
        levels.max(height) + 1,
    ))
}

/// Reads an arrow function behind its `async`.
#[tactic(auto, unfolding(actx_grammar::specs::Lines::arrow_tail, actx_grammar::specs::Reader::and_then))]
fn arrow_tail<
    F: Fn(Global, &mut Cursor<'_>, usize, Line) -> Result<(Expr, usize), Cause>,
    G: Fn(Global, &mut Cursor<'_>, usize) -> Result<(Target, usize), Cause>,
>(inner: &Inner<F, G>, cursor: &mut Cursor<'_>, is_async: bool) -> Result<(Expr, usize), Cause>
    requires nests { Nests inner.now.room (F.pre inner.now.read) (F.post inner.now.read) (G.pre inner.now.target) (G.post inner.now.target) }
    ensures reads { Reads (spec.arrow_tail (spec.below inner.now.room) is_async cursor.old) result cursor.new }
    ensures low { IfOk result (λ x. x.1 ≤ inner.now.room + 1) }
{
    let (params, levels) = arrow_params(inner, cursor)?;
    cursor.arrow_sign()?;
    arrow_body(inner, cursor, is_async, params, levels)
}

/// Reads an arrow function.
#[tactic(auto, unfolding(actx_grammar::specs::Reader::and_then))]
pub fn arrow<
    F: Fn(Global, &mut Cursor<'_>, usize, Line) -> Result<(Expr, usize), Cause>,
    G: Fn(Global, &mut Cursor<'_>, usize) -> Result<(Target, usize), Cause>,
>(inner: &Inner<F, G>, cursor: &mut Cursor<'_>, is_async: bool) -> Result<(Expr, usize), Cause>
    requires nests { Nests inner.now.room (F.pre inner.now.read) (F.post inner.now.read) (G.pre inner.now.target) (G.post inner.now.target) }
    ensures reads { Reads (spec.arrow (spec.below inner.now.room) is_async cursor.old) result cursor.new }
    ensures low { IfOk result (λ x. x.1 ≤ inner.now.room + 1) }
{
    if is_async {
        cursor.skip();
    }
    arrow_tail(inner, cursor, is_async)
}
