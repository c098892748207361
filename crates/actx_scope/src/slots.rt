//! The early error of a file, or the slots of the names in it.

ghost use Rattle.actx_scope.specs.Checks.{RefusedFor, place_slot, slot_of, slots_of_uses};
ghost use Rattle.actx_scope_rules.specs.Early.{early_errors, first_error, name_uses, joined_count, token_count};
ghost use Rattle.actx_scope.specs.declared.slots.ScopeError.TheVariants.{Memory};
ghost use Rattle.actx_tree.specs.Levels.{stmts_levels};
ghost use Rattle.std.specs.Prelude.{◌≡◌, ◌+◌, ◌≤◌, [], map, slice_get, IfOk, IfErr};

use crate::walk::walk_tree;
use actx_scope_rules::{EarlyKind, Use};
use actx_tree::{BodyTree, Nested, Tree, bodies_of_stmts};
use sqlite_items::Items;
use std::alloc::{AllocError, Global};
use std::marker::Model;

/// Why the slots of a file aren't given.
#[derive(Clone, Copy, Debug, PartialEq, Eq)]
pub enum ScopeError {
    /// The file has an early error: its kind, and the number of the node where it stands.
    Early { kind: EarlyKind, at: usize },
    /// There is no memory.
    Memory,
}

impl From<AllocError> for ScopeError {
    ghost from_gives = { λ _ e. e ≡ Memory };

    fn from(_refused: AllocError) -> ScopeError {
        ScopeError::Memory
    }
}

/// The slot of the use of a name: the node, how many scopes out, which slot, and whether it is a global
/// name.
#[derive(Clone, Copy, Debug, PartialEq, Eq)]
struct Place {
    node: usize,
    hops: u32,
    slot: u32,
    is_global: bool,
}

/// The slots of the uses of names in a file, in source order. Contracts see the list of them: the
/// number of the node, how many scopes out, which slot, and whether it is a global name.
#[derive(Drop)]
pub struct Slots {
    places: Items<Place>,
}

impl Model for Slots {
    ghost use Rattle.std.specs.Prelude.{List, ℕ, Bool, map};
    ghost use Rattle.actx_scope.specs.Checks.{place_slot};

    ghost Value = { List (ℕ × ℕ × ℕ × Bool) };

    ghost view = { λ s. map place_slot s.places };
}

impl Slots {
    /// The slot of the use of this number, from 0.
    pub fn at(&self, i: usize) -> Option<(usize, u32, u32, bool)>
        ensures { result ≡ slice_get self.now i }
    {
        match self.places.get(i) {
            Some(place) => Some((place.node, place.hops, place.slot, place.is_global)),
            None => None,
        }
    }
}

/// The place of a use, where its numbers fit.
fn place_of(found: Use) -> Result<Place, AllocError>
    ensures { IfOk result (λ p. place_slot p ≡ slot_of found) }
{
    let Ok(hops) = u32::try_from(found.name.hops) else {
        return Err(AllocError);
    };
    let Ok(slot) = u32::try_from(found.name.slot) else {
        return Err(AllocError);
    };
    Ok(Place {
        node: found.at,
        hops,
        slot,
        is_global: found.name.is_global,
    })
}

/// The places of uses.
fn places_of(alloc: Global, uses: &[Use]) -> Result<Items<Place>, AllocError>
    ensures { IfOk result (λ ps. map place_slot ps ≡ slots_of_uses uses.now) }
{
    let mut places = Items::new(alloc);
    for found in uses {
        places.push(place_of(*found)?)?;
    }
    Ok(places)
}

/// The number of tokens of a file: the first body is that of the first function in its statements.
fn joined(functions: &[Nested], bodies: &[BodyTree]) -> u128
    ensures { result ≡ joined_count functions.now bodies.now }
{
    match functions {
        [] => 0,
        [function, ..] => match bodies {
            [] => 0,
            [body, ..] => function.range.from as u128 + body.from as u128,
        },
    }
}

/// The number of tokens of a file.
fn count_of(alloc: Global, tree: &Tree) -> Result<u128, AllocError>
    requires { stmts_levels tree.now.items ≤ 1000 }
    ensures { IfOk result (λ n. n ≡ token_count tree.now) }
{
    let mut functions = Items::new(alloc);
    bodies_of_stmts(tree.items.as_slice(), 0, &mut functions)?;
    Ok(joined(functions.as_slice(), tree.bodies.as_slice()))
}

/// The slots of the names in a file, for each use of a name in source order, or the early error that
/// the file is refused for: of the errors at the node with the lowest number the first one in the order
/// of `EarlyKind`. Nodes are numbered in source order, an outer one before an inner one, from 0.
///
/// The call goes as deep as the tree with the bodies of its functions: no deeper than 201 nodes in what
/// `program` of `actx_parse` gives.
///
/// # Errors
/// `Early` exactly where there is an early error. `Memory` where there is no room, also for a file with
/// more slots in a scope, or scopes around a place, than a `u32` counts.
pub fn check(alloc: Global, tree: &Tree) -> Result<Slots, ScopeError>
    requires low { stmts_levels tree.now.items ≤ 1000 }
    // No early error, and what each use of a name means.
    ensures sound { IfOk result (λ slots. early_errors tree.now ≡ []) }
    ensures slots { IfOk result (λ slots. slots ≡ slots_of_uses (name_uses tree.now)) }
    // The first early error.
    ensures refused { IfErr result (RefusedFor (first_error tree.now)) }
{
    let count = count_of(alloc, tree)?;
    let found = walk_tree(alloc, tree, count)?;
    match found.first {
        Some(early) => Err(ScopeError::Early {
            kind: early.kind,
            at: early.at,
        }),
        None => {
            let places = places_of(alloc, found.uses.as_slice())?;
            Ok(Slots { places })
        }
    }
}
