//! The names before a place in its scope.

ghost use Rattle.actx_scope_rules.specs.Scopes.{slot_names};
ghost use Rattle.actx_scope_rules.specs.Tables.{IsFirst};
ghost use Rattle.actx_scope_rules.specs.Words.{among, is_word};
ghost use Rattle.std.specs.Prelude.{◌≡◌, ◌∷◌, ◌++◌, ◌≤◌, [], length, take, slice_get, OnOk};

use crate::slot::Slot;
use crate::words::is_same;
use actx_text::{Units, as_units, copy};
use indexmap::IndexMap;
use sqlite_items::Items;
use std::alloc::{AllocError, Global};
use std::marker::Model;

/// The names that stand before a place in its scope, where a name is found in the same time however
/// many there are. Contracts see the list of them.
#[derive(Drop)]
pub struct Earlier {
    alloc: Global,
    names: Items<Units>,
    // of each name the first place; of a name that was taken away again any place
    places: IndexMap<Vec<u16>, usize>,
}

impl Model for Earlier {
    ghost use Rattle.std.specs.Prelude.{List};
    ghost use Rattle.actx_text.specs.declared.units.Units.{Units};
    ghost use Rattle.actx_scope_rules.specs.Tables.{IsFirst};

    ghost Value = { List Units };

    ghost view = { λ e. e.names };

    ghost invariant = { λ e. IsFirst e.places e.names };
}

impl Earlier {
    /// No name.
    pub fn new(alloc: Global) -> Earlier
        ensures { result ≡ [] }
    {
        Earlier {
            alloc,
            names: Items::new(alloc),
            places: IndexMap::new(alloc),
        }
    }

    /// How many names there are.
    pub fn len(&self) -> usize
        ensures { result ≡ length self.now }
    {
        self.names.len()
    }

    /// Whether a name is among them.
    pub fn has(&self, name: &Units) -> bool
        ensures { result ≡ among name.now self.now }
    {
        has_name(&self.places, self.names.as_slice(), name)
    }

    /// Adds a name.
    pub fn add(&mut self, name: &Units) -> Result<(), AllocError>
        ensures { OnOk result (self.new ≡ self.old ++ name.now ∷ []) }
    {
        note_name(self.alloc, name, self.names.as_slice(), &mut self.places)?;
        let name = copy(self.alloc, name)?;
        self.names.push(name)?;
        Ok(())
    }

    /// Adds the name of a slot, if it has one.
    fn add_name(&mut self, slot: &Slot) -> Result<(), AllocError>
        ensures { OnOk result (self.new ≡ self.old ++ slot_names (slot.now ∷ [])) }
    {
        match &slot.name {
            Some(name) => self.add(name),
            None => Ok(()),
        }
    }

    /// Adds the names of slots.
    pub fn add_all(&mut self, slots: &[Slot]) -> Result<(), AllocError>
        ensures { OnOk result (self.new ≡ self.old ++ slot_names slots.now) }
    {
        for slot in slots {
            self.add_name(slot)?;
        }
        Ok(())
    }

    /// Leaves the first so many names.
    pub fn back_to(&mut self, count: usize)
        requires { count ≤ length self.old }
        ensures { self.new ≡ take count self.old }
    {
        cut(&mut self.names, count);
    }
}

/// Whether a name stands at this place.
fn is_at(names: &[Units], i: usize, name: &Units) -> bool
    ensures { result ≡ is_word name.now (slice_get names.now i) }
{
    match names.get(i) {
        Some(other) => is_same(name, other),
        None => false,
    }
}

/// Whether a name is among these, of which a map gives the places.
fn has_name(places: &IndexMap<Vec<u16>, usize>, names: &[Units], name: &Units) -> bool
    requires { IsFirst places.now names.now }
    ensures { result ≡ among name.now names.now }
{
    match places.get(as_units(name)) {
        Some(place) => is_at(names, *place, name),
        None => false,
    }
}

/// Notes the place behind these names, unless the name is among them.
fn note_name(
    alloc: Global,
    name: &Units,
    names: &[Units],
    places: &mut IndexMap<Vec<u16>, usize>,
) -> Result<(), AllocError>
    requires { IsFirst places.old names.now }
    ensures same { IsFirst places.new names.now }
    ensures more { OnOk result (IsFirst places.new (names.now ++ name.now ∷ [])) }
{
    if has_name(places, names, name) {
        return Ok(());
    }
    let key = Vec::from_slice(alloc, as_units(name))?;
    places.insert(key, names.len())?;
    Ok(())
}

/// Leaves the first so many names of a list.
fn cut(names: &mut Items<Units>, count: usize)
    requires { count ≤ length names.old }
    ensures { names.new ≡ take count names.old }
{
    while names.len() > count {
        let _name = names.pop();
    }
}
