//! Templates (ECMA-262 §13.2.8).

ghost use Rattle.actx_cursor.specs.Nests.{Nests};
ghost use Rattle.actx_grammar.specs.Lines as spec;
ghost use Rattle.actx_grammar.specs.Reads.{Reads};
ghost use Rattle.std.specs.Prelude.{◌+◌, ◌≤◌, IfOk};

use actx_cursor::{Cursor, Inner};
use actx_grammar::{Cause, Line};
use actx_tree::{Expr, Piece, Target};
use sqlite_items::Items;
use std::alloc::Global;

/// The values of a template, each with the piece behind it, up to the piece that ends the template;
/// with the greatest of their levels.
///
/// # Errors
/// `NoTree` and `TooNested` as the definition says; `Memory`.
#[tactic(auto, unfolding(actx_grammar::specs::Lines::pieces, actx_grammar::specs::Lines::pieces_from, actx_grammar::specs::Reader::and_then))]
pub fn pieces<
    F: Fn(Global, &mut Cursor<'_>, usize, Line) -> Result<(Expr, usize), Cause>,
    G: Fn(Global, &mut Cursor<'_>, usize) -> Result<(Target, usize), Cause>,
>(inner: &Inner<F, G>, cursor: &mut Cursor<'_>) -> Result<(Items<Piece>, usize), Cause>
    requires { Nests inner.now.room (F.pre inner.now.read) (F.post inner.now.read) (G.pre inner.now.target) (G.post inner.now.target) }
    ensures reads { Reads (spec.pieces (spec.below inner.now.room) cursor.old) result cursor.new }
    ensures low { IfOk result (λ x. x.1 ≤ inner.now.room) }
{
    let mut found = Items::new(inner.alloc);
    let mut highest = 0usize;
    for _turn in 0..cursor.len() {
        let (value, levels) = inner.read(cursor, Line::Expr)?;
        let (after, ends) = cursor.piece(inner.alloc, false)?;
        found.push(Piece { value, after })?;
        highest = highest.max(levels);
        if ends {
            return Ok((found, highest));
        }
    }
    Err(Cause::NoTree)
}

/// A template.
///
/// # Errors
/// `NoTree` and `TooNested` as the definition says; `Memory`.
#[tactic(auto, unfolding(actx_grammar::specs::Lines::template, actx_grammar::specs::Reader::and_then))]
pub fn template<
    F: Fn(Global, &mut Cursor<'_>, usize, Line) -> Result<(Expr, usize), Cause>,
    G: Fn(Global, &mut Cursor<'_>, usize) -> Result<(Target, usize), Cause>,
>(inner: &Inner<F, G>, cursor: &mut Cursor<'_>) -> Result<(Expr, usize), Cause>
    requires { Nests inner.now.room (F.pre inner.now.read) (F.post inner.now.read) (G.pre inner.now.target) (G.post inner.now.target) }
    ensures reads { Reads (spec.template (spec.below inner.now.room) cursor.old) result cursor.new }
    ensures low { IfOk result (λ x. x.1 ≤ inner.now.room + 1) }
{
    let (first, is_whole) = cursor.piece(inner.alloc, true)?;
    if is_whole {
        return Ok((Expr::Template(first, Items::new(inner.alloc)), 1));
    }
    let (found, levels) = pieces(inner, cursor)?;
    Ok((Expr::Template(first, found), levels + 1))
}
