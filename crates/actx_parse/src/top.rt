//! The tree of a file.

ghost use Rattle.std.specs.Prelude.{◌≡◌, ℕ, ◌+◌, ◌*◌, ◌<◌, ◌≤◌, length, IfOk};
ghost use Rattle.actx_grammar.specs.Given.{OnNoTree, OnTooNested};
ghost use Rattle.actx_program.specs.TreeReader as spec;
ghost use Rattle.actx_program.specs.Trees.{SpTree};
ghost use Rattle.actx_tree.specs.declared.tree.Tree.{Tree};
ghost use Rattle.actx_tree.specs.Sizes.{tree_size};
ghost use Rattle.actx_parse.specs.Finds as finds;
ghost use Rattle.actx_parse.specs.Finds.{Finds, GivesTree};

use crate::files::file_items;
use crate::worklist::bodies;
use actx_grammar::ParseError;
use actx_lex::Token;
use actx_tree::Tree;
use std::alloc::Global;

/// How many levels of nodes a tree has at most: no node has more than 200 nodes around it.
pub const MAX_LEVELS: usize = 201;

/// The tree that the definition finds.
#[tactic(auto, unfolding(actx_program::specs::TreeReader::program, actx_program::specs::TreeReader::program_in))]
fn read_program(alloc: Global, tokens: &[Token]) -> Result<Tree, ParseError>
    ensures { Finds (spec.program tokens.now) result }
{
    let items = file_items(alloc, tokens)?;
    let bodies = bodies(alloc, tokens, items.as_slice())?;
    Ok(Tree { items, bodies })
}

/// The answer for a file of so many tokens. In one of at most 100 no tree is too deep, so there is none
/// where reading sank too deep.
fn settled(count: usize, answer: Result<Tree, ParseError>) -> Result<Tree, ParseError>
    ensures { result ≡ finds.settled count answer }
{
    match answer {
        Err(ParseError::TooNested { at }) if count <= 100 => Err(ParseError::NoTree { at }),
        other => other,
    }
}

/// The tree of a file from its tokens (ECMA-262 §16.1): its statements, and the bodies of all
/// functions in it. There is one at most.
///
/// # Errors
/// `NoTree` where the grammar has no tree, `TooNested` where each tree has a node with more than 200
/// nodes around it and there are more than 100 tokens; in both `at` is the number of units of the
/// text before the token where reading stopped. `Memory`.
pub fn program(alloc: Global, tokens: &[Token]) -> Result<Tree, ParseError>
    // What is given is spelled, with no node too deep.
    ensures spelled { IfOk result (λ t. (h : ℕ) × SpTree tokens.now t h × (h ≤ 201)) }
    // It is small.
    ensures small { IfOk result (λ t. tree_size t ≤ 16 * length tokens.now + 16) }
    // A tree that is spelled, with no node too deep, is given, unless memory runs out.
    ensures given { (t : Tree) (h : ℕ) → SpTree tokens.now t h → h ≤ 201 → GivesTree t result }
    // No tree, of any depth.
    ensures no_tree { OnNoTree result ((t : Tree) (h : ℕ) → SpTree tokens.now t h → ⊥) }
    // No tree without a deeper node, and many tokens.
    ensures too_nested { OnTooNested result ((t : Tree) (h : ℕ) → SpTree tokens.now t h → 201 < h) }
    ensures long { OnTooNested result (100 < length tokens.now) }
{
    let answer = read_program(alloc, tokens);
    settled(tokens.len(), answer)
}
