//! From the bytes of a file to the pieces that it prints.

ghost use Rattle.std.specs.Prelude.{◌≤◌, length, MatchResult};
ghost use Rattle.std.specs.List.{flat_map};
ghost use Rattle.actx_printing.specs.Printing.{literals};
ghost use Rattle.actx_cli.specs.Accepted.{longest, IsAccepted, IsParsed, IsSound, IsTokenized};
ghost use Rattle.actx_cli.specs.Phases.{IsPrinting, ReadingFails};

use crate::answer::{Answer, Refusal};
use crate::pieces::pieces;
use actx_lex::{LexError, Token, tokens};
use actx_parse::{FirstError, Lit, ParseError, printing, program};
use actx_scope::{ScopeError, check};
use actx_text::{TextError, from_utf8};
use actx_tree::Tree;
use std::alloc::Global;

// The tokens of the bytes.
fn tokens_of(alloc: Global, bytes: &[u8]) -> Result<Vec<Token>, Answer>
    ensures { MatchResult result (λ found. IsTokenized bytes.now found.items) (ReadingFails bytes.now) }
{
    let text = match from_utf8(alloc, bytes) {
        Ok(text) => text,
        Err(TextError::BadUtf8 { at }) => {
            return Err(Answer::Refused {
                kind: Refusal::Utf8,
                at,
            });
        }
        Err(TextError::Memory) => return Err(Answer::Memory { steps: 0 }),
    };
    match tokens(alloc, &text) {
        Ok(found) => Ok(found),
        Err(LexError::BadToken { at }) => Err(Answer::Refused {
            kind: Refusal::Token,
            at,
        }),
        Err(LexError::Memory) => Err(Answer::Memory { steps: 0 }),
    }
}

// The tree of the bytes.
fn tree_of(alloc: Global, bytes: &[u8]) -> Result<Tree, Answer>
    ensures { MatchResult result (λ tree. IsParsed bytes.now tree) (ReadingFails bytes.now) }
{
    let found = tokens_of(alloc, bytes)?;
    match program(alloc, &found) {
        Ok(tree) => Ok(tree),
        Err(ParseError::NoTree { at }) => Err(Answer::Refused {
            kind: Refusal::Tree,
            at,
        }),
        Err(ParseError::TooNested { at }) => Err(Answer::Refused {
            kind: Refusal::Nested,
            at,
        }),
        Err(ParseError::Memory) => Err(Answer::Memory { steps: 0 }),
    }
}

// The tree of the bytes, where it has no early error.
fn sound_tree_of(alloc: Global, bytes: &[u8]) -> Result<Tree, Answer>
    ensures { MatchResult result (λ tree. IsSound bytes.now tree) (ReadingFails bytes.now) }
{
    let tree = tree_of(alloc, bytes)?;
    match check(alloc, &tree) {
        Ok(_) => Ok(tree),
        Err(ScopeError::Early { at, .. }) => Err(Answer::Refused {
            kind: Refusal::Early,
            at,
        }),
        Err(ScopeError::Memory) => Err(Answer::Memory { steps: 0 }),
    }
}

// The literals of each statement of the bytes.
fn literals_of(alloc: Global, bytes: &[u8]) -> Result<Vec<Vec<Lit>>, Answer>
    ensures { MatchResult result (λ all. IsPrinting bytes.now (literals all)) (ReadingFails bytes.now) }
{
    let tree = sound_tree_of(alloc, bytes)?;
    match printing(alloc, &tree) {
        Ok(all) => Ok(all),
        Err(FirstError::NotBuilt) => Err(Answer::Refused {
            kind: Refusal::NotBuilt,
            at: 0,
        }),
        Err(FirstError::Memory) => Err(Answer::Memory { steps: 0 }),
    }
}

/// The pieces that the bytes of a file print, a line for each statement; or its refusal. All are made
/// before the first is written, so that want of memory leaves nothing half said.
pub fn reading(alloc: Global, bytes: &[u8]) -> Result<Vec<Vec<u8>>, Answer>
    requires { length bytes.now ≤ longest }
    ensures { MatchResult result
        (λ found. IsAccepted bytes.now (flat_map (λ piece. piece.items) found.items))
        (ReadingFails bytes.now) }
{
    let all = literals_of(alloc, bytes)?;
    match pieces(alloc, &all) {
        Ok(found) => Ok(found),
        Err(_) => Err(Answer::Memory { steps: 0 }),
    }
}
