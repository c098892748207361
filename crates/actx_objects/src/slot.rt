//! Slots of entries, and where keys are found.

ghost use Rattle.std.specs.Prelude.{◌≡◌, [], Some, None, if◌then◌else◌, OnOk, OnErr};
ghost use Rattle.actx_value.specs.declared.value.Value.{Value as OneValue};
ghost use Rattle.actx_objects.specs.Keys.{value_eq};
ghost use Rattle.actx_objects.specs.Pairs.{at_key};

use actx_value::Value;
use indexmap::IndexMap;
use std::alloc::{AllocError, Global};
use std::marker::Model;

/// An entry that stands.
#[derive(Clone, Copy, Debug)]
pub struct Slot {
    /// Its key.
    pub key: Value,
    /// Its value.
    pub value: Value,
}

/// The places of keys. Contracts see a list of keys with their places.
#[derive(Drop)]
pub struct Places {
    map: IndexMap<Value, u32>,
}

impl Model for Places {
    ghost use Rattle.std.specs.Prelude.{ℕ, List};
    ghost use Rattle.actx_value.specs.declared.value.Value.{Value as OneValue};

    ghost Value = { List (OneValue × ℕ) };

    ghost view = { λ p. p.map.entries };
}

impl Places {
    /// No keys.
    pub(crate) fn new(alloc: Global) -> Places
        ensures { result ≡ [] }
    {
        Places {
            map: IndexMap::new(alloc),
        }
    }

    /// The place of a key.
    pub(crate) fn get(&self, key: Value) -> Option<u32>
        ensures { result ≡ at_key value_eq key self.now }
    {
        self.map.get(&key).copied()
    }

    /// Gives a key this place.
    pub(crate) fn insert(&mut self, key: Value, place: u32) -> Result<(), AllocError>
        ensures ok { OnOk result ((q : OneValue) → at_key value_eq q self.new ≡ (if value_eq key q then Some place else at_key value_eq q self.old)) }
        ensures err { OnErr result (self.new ≡ self.old) }
    {
        self.map.insert(key, place)?;
        Ok(())
    }

    /// Takes all keys out.
    pub(crate) fn clear(&mut self)
        ensures { self.new ≡ [] }
    {
        self.map.clear();
    }

    /// Takes a key out. It takes the same time for every key.
    pub(crate) fn remove(&mut self, key: Value)
        ensures { (q : OneValue) → at_key value_eq q self.new ≡ (if value_eq key q then None else at_key value_eq q self.old) }
    {
        let _ = self.map.swap_remove(&key);
    }
}
