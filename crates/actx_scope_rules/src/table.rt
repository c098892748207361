//! The slots of one scope.

ghost use Rattle.actx_scope_rules.specs.Scopes.{last_slot, or_else};
ghost use Rattle.actx_scope_rules.specs.Tables.{at_name};
ghost use Rattle.actx_scope_rules.specs.Words.{is_word};
ghost use Rattle.actx_text.specs.declared.units.Units as texts;
ghost use Rattle.std.specs.Prelude.{◌≡◌, if◌then◌else◌, Some, None, IfOk, OnOk};

use crate::slot::Slot;
use actx_text::{Units, as_units};
use indexmap::IndexMap;
use sqlite_items::Items;
use std::alloc::{AllocError, Global};
use std::marker::Model;

/// The slots of a scope, where a name is found in the same time however many there are. Contracts see
/// the list of slots.
#[derive(Drop)]
pub struct Table {
    slots: Items<Slot>,
    // of each name the last slot, and whether it is fixed
    last: IndexMap<Vec<u16>, (usize, bool)>,
}

impl Model for Table {
    ghost use Rattle.actx_scope_rules.specs.Scopes.{Scope};
    ghost use Rattle.actx_scope_rules.specs.Tables.{IsLast};

    ghost Value = { Scope };

    ghost view = { λ t. t.slots };

    ghost invariant = { λ t. IsLast t.last t.slots };
}

impl Table {
    /// The scope of these slots.
    pub fn new(alloc: Global, slots: Items<Slot>) -> Result<Table, AllocError>
        ensures { IfOk result (λ t. t ≡ slots) }
    {
        let last = last_of(alloc, slots.as_slice())?;
        Ok(Table { slots, last })
    }

    /// The last slot of a name, and whether it is fixed.
    pub fn last(&self, name: &Units) -> Option<(usize, bool)>
        ensures { result ≡ last_slot name.now self.now 0 }
    {
        let _slots = self.slots.len();
        match self.last.get(as_units(name)) {
            Some(last) => Some(*last),
            None => None,
        }
    }
}

/// The slot that a name has here, or else another one.
pub fn here_or(
    is_here: bool,
    i: usize,
    is_fixed: bool,
    other: Option<(usize, bool)>,
) -> Option<(usize, bool)>
    ensures { result ≡ or_else (if is_here then Some (i, is_fixed) else None) other }
{
    if is_here { Some((i, is_fixed)) } else { other }
}

/// Notes the slot of this number at its name.
fn note(
    alloc: Global,
    slot: &Slot,
    i: usize,
    last: &mut IndexMap<Vec<u16>, (usize, bool)>,
) -> Result<(), AllocError>
    ensures { OnOk result ((name : texts.Units) → at_name last.new name ≡ or_else (if is_word name slot.now.name then Some (i, slot.now.is_fixed) else None) (at_name last.old name)) }
{
    match &slot.name {
        Some(name) => {
            let key = Vec::from_slice(alloc, as_units(name))?;
            last.insert(key, (i, slot.is_fixed))?;
            Ok(())
        }
        None => Ok(()),
    }
}

/// Of each name among these slots the last slot.
fn last_of(alloc: Global, slots: &[Slot]) -> Result<IndexMap<Vec<u16>, (usize, bool)>, AllocError>
    ensures { IfOk result (λ m. (name : texts.Units) → at_name m name ≡ last_slot name slots.now 0) }
{
    let mut last = IndexMap::new(alloc);
    for (i, slot) in slots.iter().enumerate() {
        note(alloc, slot, i, &mut last)?;
    }
    Ok(last)
}
