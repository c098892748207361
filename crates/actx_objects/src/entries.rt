//! The entries of a Map or a Set.

ghost use Rattle.std.specs.Prelude.{◌≡◌, ◌<◌, [], Some, None, length, slice_get, OnOk, OnErr};
ghost use Rattle.std.specs.Option.{option_map};
ghost use Rattle.actx_objects.specs.Entries.{entry_in, with_entry, without_entry, none_standing, first_from, StandInOrder};
ghost use Rattle.actx_objects.specs.Slots.{blanks};
ghost use Rattle.actx_objects.specs.declared.entries.Placed.{Placed};

use crate::slot::{Places, Slot};
use actx_value::Value;
use std::alloc::{AllocError, Global};
use std::marker::Model;

/// An entry under its key: the place where the key was put first, and the value.
#[derive(Clone, Copy, Debug)]
pub struct Placed {
    /// The place.
    pub place: u64,
    /// The value.
    pub value: Value,
}

/// The entries of a Map or a Set in order of their places. Contracts see the list of keys with what
/// stands under each, and how many entries were put under a new key. Underneath there is a slot for each
/// place, so that no entry moves when another is dropped.
#[derive(Drop)]
pub struct Entries {
    places: Places,
    slots: Vec<Option<Slot>>,
    count: usize,
}

impl Model for Entries {
    ghost use Rattle.std.specs.Prelude.{length};
    ghost use Rattle.actx_objects.specs.Entries.{EntryList};
    ghost use Rattle.actx_objects.specs.Keys.{value_eq};
    ghost use Rattle.actx_objects.specs.Pairs.{at_key};
    ghost use Rattle.actx_objects.specs.Slots.{standing_from, IsFound};

    ghost Value = { EntryList };

    ghost view = { λ e. record { standing = standing_from 0 e.slots.items; places = length e.slots.items } };

    ghost invariant = { λ e. IsFound (λ key. at_key value_eq key e.places) e.slots.items e.count };
}

impl Entries {
    /// No entries.
    pub(crate) fn new(alloc: Global) -> Entries
        ensures { result ≡ record { standing = []; places = 0 } }
    {
        Entries {
            places: Places::new(alloc),
            slots: Vec::new(alloc),
            count: 0,
        }
    }

    /// How many entries stand.
    pub(crate) fn len(&self) -> usize
        ensures { result ≡ length self.now.standing }
    {
        self.count
    }

    /// How many entries were put under a new key.
    pub(crate) fn places(&self) -> u64
        ensures { result ≡ self.now.places }
    {
        self.slots.len() as u64
    }

    /// Entries stand in the order of their places. The call does nothing: its contract is the law.
    pub(crate) fn stand_in_order(&self)
        requires { self.now.places < 2147483648 }
        ensures { StandInOrder self.now }
    {
        let _slots = self.slots.len();
    }

    /// What stands under a normal key.
    pub(crate) fn get(&self, key: Value) -> Option<Placed>
        ensures { result ≡ entry_in key self.now }
    {
        match self.places.get(key) {
            Some(place) => match self.slots[place as usize] {
                Some(slot) => Some(Placed {
                    place: u64::from(place),
                    value: slot.value,
                }),
                None => None,
            },
            None => None,
        }
    }

    /// Puts a value under a normal key: an entry that is there keeps its place, and a new one goes last.
    pub(crate) fn put(&mut self, key: Value, value: Value) -> Result<(), AllocError>
        requires { self.old.places < 2147483648 }
        ensures ok { OnOk result (self.new ≡ with_entry key value self.old) }
        ensures err { OnErr result (self.new ≡ self.old) }
    {
        match self.places.get(key) {
            Some(place) => {
                self.slots[place as usize] = Some(Slot { key, value });
                Ok(())
            }
            None => {
                self.slots.reserve(1)?;
                let place = self.slots.len();
                self.places.insert(key, place as u32)?;
                self.slots.push_reserved(Some(Slot { key, value }));
                self.count += 1;
                Ok(())
            }
        }
    }

    /// Drops the entry under a normal key.
    pub(crate) fn drop_key(&mut self, key: Value)
        ensures { self.new ≡ without_entry key self.old }
    {
        match self.places.get(key) {
            Some(place) => {
                self.places.remove(key);
                self.slots[place as usize] = None;
                self.count -= 1;
            }
            None => {}
        }
    }

    /// Drops all entries. Their places stay given.
    pub(crate) fn clear(&mut self)
        ensures { self.new ≡ none_standing self.old }
    {
        self.places.clear();
        empty_slots(&mut self.slots);
        self.count = 0;
    }

    /// The first entry whose place is at least this one, as its place, its key and its value. It takes one
    /// step for each empty slot before it.
    pub(crate) fn first_from(&self, place: u64) -> Option<(u64, Value, Value)>
        ensures { result ≡ first_from place self.now }
    {
        if place >= self.slots.len() as u64 {
            return None;
        }
        for p in place as usize..self.slots.len() {
            match self.slots[p] {
                Some(slot) => return Some((p as u64, slot.key, slot.value)),
                None => {}
            }
        }
        None
    }
}

/// Empties all slots.
fn empty_slots(slots: &mut Vec<Option<Slot>>)
    ensures { slots.new.items ≡ blanks (length slots.old.items) }
{
    for p in 0..slots.len() {
        slots[p] = None;
    }
}
