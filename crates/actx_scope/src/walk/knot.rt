//! The bodies of functions in the bodies of functions.

ghost use Rattle.actx_scope_rules.specs.Early.{tree_nodes, token_count};
ghost use Rattle.actx_scope.specs.Holds.{inside_of};
ghost use Rattle.actx_scope_rules.specs.Nodes as nodes;
ghost use Rattle.actx_scope_rules.specs.Statements as statements;
ghost use Rattle.actx_scope.specs.Walks.{Adds, after, nothing};
ghost use Rattle.actx_scope_rules.specs.declared.place.Role.TheVariants as roles;
ghost use Rattle.std.specs.Prelude.{◌≡◌, IfOk, OnOk, map};

use crate::bodies::{Bodies, body_of};
use crate::findings::{self, Findings};
use crate::places::places_of;
use crate::walk::{Inner, Walk};
use actx_scope_rules::{Earlier, Place, Scopes, file_place};
use actx_tree::{Tree, Unread};
use std::alloc::{AllocError, Global};

/// The body of a range among these bodies.
#[cycle(knot)]
fn walk_body(
    bodies: Bodies<'_>,
    range: Unread,
    place: Place,
    walk: &mut Walk,
) -> Result<(), AllocError>
    ensures { OnOk result (Adds (inside_of bodies.entry) (nodes.body_marks range) roles.Evaluated place walk.old walk.new) }
{
    match body_of(bodies, range) {
        Some((body, behind)) => {
            let inner = Inner {
                bodies: behind,
                body: walk_body,
            };
            inner.of_body_items(body.items.as_slice(), place, walk)
        }
        None => Ok(()),
    }
}

/// What is found in a file.
pub fn walk_tree(alloc: Global, tree: &Tree, count: u128) -> Result<Findings, AllocError>
    requires { count ≡ token_count tree.now }
    ensures { IfOk result (λ out. out ≡ after nothing (tree_nodes tree.now)) }
{
    let mut walk = Walk {
        scopes: Scopes::new(alloc),
        earlier: Earlier::new(alloc),
        out: findings::nothing(alloc),
    };
    let list = tree.bodies.as_slice();
    let places = places_of(alloc, list)?;
    let bodies = Bodies {
        alloc,
        count,
        list,
        start: 0,
        places: &places,
    };
    let inner = Inner {
        bodies,
        body: walk_body,
    };
    inner.of_block(tree.items.as_slice(), file_place(), &mut walk)?;
    Ok(walk.out)
}
