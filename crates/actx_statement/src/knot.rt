//! Statements in statements, to a depth.

ghost use Rattle.std.specs.Prelude.{◌≡◌, ◌+◌, ◌≤◌, IfOk};
ghost use Rattle.actx_grammar.specs.Reads.{Reads};
ghost use Rattle.actx_program.specs.StatementReader as spec;
ghost use Rattle.actx_program.specs.TreeReader as trees;

use crate::within::Within;
use actx_cursor::Cursor;
use actx_grammar::Cause;
use actx_tree::Stmt;
use sqlite_items::Items;
use std::alloc::Global;

/// A statement of no more levels than the limit.
#[cycle(inside)]
#[tactic(auto, unfolding(actx_program::specs::StatementReader::inside))]
fn read_stmt(alloc: Global, cursor: &mut Cursor<'_>, limit: usize) -> Result<(Stmt, usize), Cause>
    requires small { limit ≤ 201 }
    ensures reads { Reads ((spec.inside limit).stmt cursor.old) result cursor.new }
    ensures low { IfOk result (λ x. x.1 ≤ limit) }
{
    if limit == 0 {
        return Err(Cause::TooNested);
    }
    Within {
        alloc,
        room: limit - 1,
        stmt: read_stmt,
        item: read_item,
    }
    .statement(cursor)
}

/// An item of no more levels than the limit.
#[cycle(inside)]
#[tactic(auto, unfolding(actx_program::specs::StatementReader::inside))]
fn read_item(alloc: Global, cursor: &mut Cursor<'_>, limit: usize) -> Result<(Stmt, usize), Cause>
    requires small { limit ≤ 201 }
    ensures reads { Reads ((spec.inside limit).item cursor.old) result cursor.new }
    ensures low { IfOk result (λ x. x.1 ≤ limit) }
{
    if limit == 0 {
        return Err(Cause::TooNested);
    }
    Within {
        alloc,
        room: limit - 1,
        stmt: read_stmt,
        item: read_item,
    }
    .an_item(cursor)
}

/// Items of no more levels than the limit, up to `}` or the end, and their levels (ECMA-262 §14.2).
///
/// # Errors
/// `NoTree` and `TooNested` as the definition says; `Memory`.
#[tactic(auto, unfolding(actx_program::specs::TreeReader::items_in))]
pub fn read_items(
    alloc: Global,
    cursor: &mut Cursor<'_>,
    limit: usize,
) -> Result<(Items<Stmt>, usize), Cause>
    requires small { limit ≤ 201 }
    ensures reads { Reads (trees.items_in limit cursor.old) result cursor.new }
    ensures low { IfOk result (λ x. x.1 ≤ limit) }
{
    Within {
        alloc,
        room: limit,
        stmt: read_stmt,
        item: read_item,
    }
    .items(cursor)
}
