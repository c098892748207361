//! The scopes around a place.

ghost use Rattle.actx_scope_rules.specs.Scopes.{found, opened, last_slot, global_slots, found_from};
ghost use Rattle.actx_scope_rules.specs.Scopes.{has_any, closed};
ghost use Rattle.std.specs.Prelude.{◌≡◌, ◌∷◌, [], reverse, IfOk, OnOk};

use crate::globals::global_slot;
use crate::slot::{Found, Slot};
use crate::table::Table;
use actx_text::Units;
use sqlite_items::Items;
use std::alloc::{AllocError, Global};
use std::marker::Model;

/// The scopes around a place. Contracts see the list of them, from the inside out.
#[derive(Drop)]
pub struct Scopes {
    // from the outside in
    tables: Items<Table>,
}

impl Model for Scopes {
    ghost use Rattle.std.specs.Prelude.{List, reverse};
    ghost use Rattle.actx_scope_rules.specs.Scopes.{Scope};

    ghost Value = { List Scope };

    ghost view = { λ s. reverse s.tables };
}

impl Scopes {
    /// Only the global names.
    pub fn new(alloc: Global) -> Scopes
        ensures { result ≡ [] }
    {
        Scopes {
            tables: Items::new(alloc),
        }
    }

    /// Goes into a scope of these slots.
    pub fn push(&mut self, alloc: Global, slots: Items<Slot>) -> Result<(), AllocError>
        ensures { OnOk result (self.new ≡ slots ∷ self.old) }
    {
        let table = Table::new(alloc, slots)?;
        self.tables.push(table)
    }

    /// Goes into a scope of these slots, if there are any; whether it did.
    pub fn open(&mut self, alloc: Global, slots: Items<Slot>) -> Result<bool, AllocError>
        ensures scopes { OnOk result (self.new ≡ opened slots self.old) }
        ensures whether { IfOk result (λ b. b ≡ has_any slots) }
    {
        if slots.is_empty() {
            return Ok(false);
        }
        self.push(alloc, slots)?;
        Ok(true)
    }

    /// Goes out of the innermost scope, if one was opened.
    pub fn close(&mut self, opened: bool)
        ensures { self.new ≡ closed opened self.old }
    {
        if opened {
            let _table = self.tables.pop();
        }
    }

    /// What a name means here, if it means anything. It takes the same time for scopes of any size.
    pub fn find(&self, name: &Units) -> Option<Found>
        ensures { result ≡ found self.now name.now }
    {
        find_in(self.tables.as_slice(), name)
    }
}

/// What a name means in the scopes of these tables, which come from the outside in.
fn find_in(tables: &[Table], name: &Units) -> Option<Found>
    ensures { result ≡ found (reverse tables.now) name.now }
{
    let count = tables.len();
    for hops in 0..count {
        let table = &tables[count - 1 - hops];
        if let Some((slot, is_fixed)) = table.last(name) {
            return Some(Found {
                hops,
                slot,
                is_global: false,
                is_fixed,
            });
        }
    }
    global_found(name, count)
}

/// What a name means outside of all scopes, so many scopes out.
fn global_found(name: &Units, hops: usize) -> Option<Found>
    ensures { result ≡ found_from name.now [] hops }
{
    match global_slot(name) {
        Some((slot, is_fixed)) => Some(Found {
            hops,
            slot,
            is_global: true,
            is_fixed,
        }),
        None => None,
    }
}
