//! A walk over a tree in the order of its nodes: it keeps the scopes around each place and the names
//! before it, and adds each node with its error and the name that is used there.
//!
//! Each function adds what is in a part at a place, and leaves the names as they were. Each part is
//! walked once.

mod exprs;
mod functions;
mod heads;
mod knot;
mod patterns;
mod statements;

ghost use Rattle.actx_scope.specs.Holds.{Holds, inside_of};
ghost use Rattle.actx_scope_rules.specs.Nodes as nodes;
ghost use Rattle.actx_scope_rules.specs.Scopes.{opened};
ghost use Rattle.actx_scope.specs.Walks.{Adds, AddsNode};
ghost use Rattle.actx_scope_rules.specs.Scopes.{has_any, closed};
ghost use Rattle.actx_scope_rules.specs.declared.place.Role.TheVariants as roles;
ghost use Rattle.std.specs.Prelude.{◌≡◌, ◌∷◌, [], true, IfOk, OnOk};

use crate::bodies::Bodies;
use crate::findings::{Findings, add_node};
use actx_scope_rules::{Earlier, EarlyKind, Found, Place, Role, Scopes, Slot, name_error};
use actx_text::Units;
use actx_tree::Unread;
pub use knot::walk_tree;
use sqlite_items::Items;
use std::alloc::{AllocError, Global};
use std::mem;

/// The names around a place, and what was found before it.
#[derive(Drop)]
pub struct Walk {
    /// The scopes around the place.
    pub scopes: Scopes,
    /// The names before the place in the innermost scope.
    pub earlier: Earlier,
    /// What was found.
    pub out: Findings,
}

/// What is to be put back when the walk leaves a scope.
#[derive(Drop)]
pub struct Outer {
    /// The names before the place where the scope stands.
    pub earlier: Earlier,
    /// Whether a scope was opened.
    pub opened: bool,
}

impl Walk {
    /// Adds a node with its first error and the name that is used there.
    pub fn add(&mut self, error: Option<EarlyKind>, name: Option<Found>) -> Result<(), AllocError>
        ensures { OnOk result (AddsNode error (nodes.listed name) self.old self.new) }
    {
        add_node(&mut self.out, error, name)
    }

    /// Goes into a scope of these slots, if there are any; no name stands before the place.
    pub fn enter(&mut self, alloc: Global, slots: Items<Slot>) -> Result<Outer, AllocError>
        ensures inside { OnOk result (self.new ≡ record { scopes = opened slots self.old.scopes; earlier = []; out = self.old.out }) }
        ensures outer { IfOk result (λ o. o ≡ record { earlier = self.old.earlier; opened = has_any slots }) }
    {
        let opened = self.scopes.open(alloc, slots)?;
        let earlier = mem::replace(&mut self.earlier, Earlier::new(alloc));
        Ok(Outer { earlier, opened })
    }

    /// Goes into a scope of these slots, also where there are none; no name stands before the place.
    pub fn enter_params(&mut self, alloc: Global, slots: Items<Slot>) -> Result<Outer, AllocError>
        ensures inside { OnOk result (self.new ≡ record { scopes = slots ∷ self.old.scopes; earlier = []; out = self.old.out }) }
        ensures outer { IfOk result (λ o. o ≡ record { earlier = self.old.earlier; opened = true }) }
    {
        self.scopes.push(alloc, slots)?;
        let earlier = mem::replace(&mut self.earlier, Earlier::new(alloc));
        Ok(Outer {
            earlier,
            opened: true,
        })
    }

    /// Goes out of a scope again.
    pub fn leave(&mut self, outer: Outer)
        ensures { self.new ≡ record { scopes = closed outer.opened self.old.scopes; earlier = outer.earlier; out = self.old.out } }
    {
        let Outer { earlier, opened } = outer;
        self.scopes.close(opened);
        self.earlier = earlier;
    }
}

/// What walks over a part: the bodies of the functions in it, and a function that walks over the
/// body of a range among these bodies.
#[derive(Clone, Copy)]
pub struct Inner<'a, F> {
    pub bodies: Bodies<'a>,
    pub body: F,
}

impl<F: Fn(Bodies<'_>, Unread, Place, &mut Walk) -> Result<(), AllocError>> Inner<'_, F> {
    /// A use of a name.
    pub fn of_name(
        &self,
        name: &Units,
        role: Role,
        place: Place,
        walk: &mut Walk,
    ) -> Result<(), AllocError>
        ensures { OnOk result (Adds (inside_of self.now.bodies) (nodes.name_node name.now) role place walk.old walk.new) }
    {
        let found = walk.scopes.find(name);
        walk.add(name_error(role, found), found)
    }

    /// The body of a function.
    pub fn of_body(&self, range: Unread, place: Place, walk: &mut Walk) -> Result<(), AllocError>
        requires holds { Holds self.now.bodies (F.pre self.now.body) (F.post self.now.body) }
        ensures { OnOk result (Adds (inside_of self.now.bodies) (nodes.body_marks range) roles.Evaluated place walk.old walk.new) }
    {
        (self.body)(self.bodies, range, place, walk)
    }
}
