//! The items of a file, and of the body of a function.

ghost use Rattle.std.specs.Prelude.{◌≡◌, ◌+◌, ◌≤◌, IfOk};
ghost use Rattle.actx_grammar.specs.Reads.{Reads};
ghost use Rattle.actx_program.specs.TreeReader as spec;
ghost use Rattle.actx_tree.specs.Levels.{stmts_levels};
ghost use Rattle.actx_parse.specs.Bodies as bodies;
ghost use Rattle.actx_parse.specs.Finds.{Finds, items_of};

use crate::stops::{place, stopped};
use crate::top::MAX_LEVELS;
use actx_cursor::Cursor;
use actx_grammar::{Bracket, Cause, Kind, ParseError};
use actx_lex::Token;
use actx_statement::read_items;
use actx_tree::{Nested, Stmt};
use sqlite_items::Items;
use std::alloc::Global;

/// Items up to the end of the tokens, with their levels.
#[tactic(auto, unfolding(actx_program::specs::TreeReader::file, actx_program::specs::TreeReader::at_end, actx_grammar::specs::Reader::and_then))]
fn whole_file(alloc: Global, cursor: &mut Cursor<'_>) -> Result<(Items<Stmt>, usize), Cause>
    ensures { Reads (spec.file 201 cursor.old) result cursor.new }
{
    let (items, levels) = read_items(alloc, cursor, MAX_LEVELS)?;
    match cursor.next() {
        Kind::End => Ok((items, levels)),
        _ => Err(Cause::NoTree),
    }
}

/// The items of a file (ECMA-262 §16.1, Script).
///
/// # Errors
/// As the definition says; `Memory`.
#[tactic(auto, unfolding(actx_program::specs::TreeReader::after_items))]
pub fn file_items(alloc: Global, tokens: &[Token]) -> Result<Items<Stmt>, ParseError>
    ensures finds { Finds (items_of (spec.file 201 tokens.now)) result }
    ensures low { IfOk result (λ xs. stmts_levels xs ≤ 201) }
{
    let mut cursor = Cursor::new(tokens, 0);
    match whole_file(alloc, &mut cursor) {
        Ok((items, _)) => Ok(items),
        Err(cause) => Err(stopped(tokens, &cursor, cause)),
    }
}

/// Items from behind the bracket that opens a body to the one that closes it, whose end is where
/// `to` tokens are left.
#[tactic(auto, unfolding(crate::specs::Bodies::items_to, actx_program::specs::TreeReader::at_place, actx_grammar::specs::Reader::and_then, actx_grammar::specs::Reader::count))]
fn whole_body(
    alloc: Global,
    cursor: &mut Cursor<'_>,
    limit: usize,
    to: usize,
) -> Result<(Items<Stmt>, usize), Cause>
    requires small { limit ≤ 201 }
    ensures { Reads (bodies.items_to limit to cursor.old) result cursor.new }
{
    let (items, levels) = read_items(alloc, cursor, limit)?;
    cursor.close(Bracket::Curly)?;
    if cursor.len() == to {
        Ok((items, levels))
    } else {
        Err(Cause::NoTree)
    }
}

/// The items of a body that was passed over (ECMA-262 §15.2.1, FunctionBody).
///
/// # Errors
/// As the definition says; `Memory`.
pub fn body_items(
    alloc: Global,
    tokens: &[Token],
    nested: Nested,
) -> Result<Items<Stmt>, ParseError>
    ensures finds { Finds (items_of (spec.read_body tokens.now 201 nested)) result }
    ensures low { IfOk result (λ xs. nested.depth + stmts_levels xs ≤ 201) }
{
    let from = nested.range.from;
    if nested.depth > MAX_LEVELS {
        let at = place(tokens, from);
        return Err(ParseError::TooNested { at });
    }
    let mut cursor = Cursor::new(tokens, tokens.len().saturating_sub(from));
    let limit = MAX_LEVELS - nested.depth;
    match whole_body(alloc, &mut cursor, limit, nested.range.to) {
        Ok((items, _)) => Ok(items),
        Err(cause) => Err(stopped(tokens, &cursor, cause)),
    }
}
