//! The bodies of all functions of a file, from a work list: nothing recurses through functions.

ghost use Rattle.std.specs.Prelude.{◌≡◌, ◌+◌, ◌≤◌, ◌++◌, ◌∷◌, [], MatchResult};
ghost use Rattle.actx_tree.specs.Bodies.{stmts_bodies};
ghost use Rattle.actx_program.specs.TreeReader as spec;
ghost use Rattle.actx_tree.specs.Levels.{stmts_levels};
ghost use Rattle.actx_parse.specs.Bodies.{HasBody};
ghost use Rattle.actx_parse.specs.Finds.{Finds};

use crate::files::body_items;
use crate::stops::place;
use actx_grammar::ParseError;
use actx_lex::Token;
use actx_tree::{BodyTree, Nested, Stmt, bodies_of_stmts};
use sqlite_items::Items;
use std::alloc::Global;

/// Puts the bodies in the items at the end of the work list.
fn add_bodies(items: &[Stmt], depth: usize, work: &mut Items<Nested>) -> Result<(), ParseError>
    requires low { depth + stmts_levels items.now ≤ 201 }
    ensures { MatchResult result (λ _. work.new ≡ work.old ++ stmts_bodies items.now depth) (λ e. e ≡ ParseError.Memory) }
{
    match bodies_of_stmts(items, depth, work) {
        Ok(()) => Ok(()),
        Err(_) => Err(ParseError::Memory),
    }
}

/// Puts a tree at the end of those that are found.
fn add_tree(found: &mut Items<BodyTree>, body: BodyTree) -> Result<(), ParseError>
    ensures { MatchResult result (λ _. found.new ≡ found.old ++ body ∷ []) (λ e. e ≡ ParseError.Memory) }
{
    match found.push(body) {
        Ok(()) => Ok(()),
        Err(_) => Err(ParseError::Memory),
    }
}

/// The tree of a body; the bodies in it go to the end of the work list.
fn one_body(
    alloc: Global,
    tokens: &[Token],
    nested: Nested,
    work: &mut Items<Nested>,
) -> Result<BodyTree, ParseError>
    ensures { HasBody tokens.now nested work.old work.new result }
{
    let items = body_items(alloc, tokens, nested)?;
    add_bodies(items.as_slice(), nested.depth, work)?;
    let from = tokens.len().saturating_sub(nested.range.from);
    Ok(BodyTree { from, items })
}

/// The bodies on the work list in their order, and behind them those that they hold.
#[tactic(auto, unfolding(actx_program::specs::TreeReader::bodies))]
pub fn bodies(
    alloc: Global,
    tokens: &[Token],
    items: &[Stmt],
) -> Result<Items<BodyTree>, ParseError>
    requires low { stmts_levels items.now ≤ 201 }
    ensures { Finds (spec.bodies tokens.now 201 items.now) result }
{
    let mut work = Items::new(alloc);
    add_bodies(items, 0, &mut work)?;
    let mut found = Items::new(alloc);
    for turn in 0..tokens.len() {
        let nested = match work.get(turn) {
            None => return Ok(found),
            Some(nested) => *nested,
        };
        let body = one_body(alloc, tokens, nested, &mut work)?;
        add_tree(&mut found, body)?;
    }
    if work.len() <= tokens.len() {
        return Ok(found);
    }
    let at = place(tokens, 0);
    Err(ParseError::NoTree { at })
}
