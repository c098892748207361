//! The properties of an object.

ghost use Rattle.std.specs.Prelude.{◌≡◌, [], ◌∷◌, ◌++◌, length, take, slice_get, IfOk, OnOk, OnErr};
ghost use Rattle.actx_objects.specs.Keys.{key_eq};
ghost use Rattle.actx_objects.specs.Pairs.{at_key, with_key, without_key};
ghost use Rattle.actx_objects.specs.Properties.{with_value, shown_keys};

use actx_value::{Key, Value};
use indexmap::IndexMap;
use std::alloc::{AllocError, Global};
use std::marker::Model;

/// What stands at a key: a value, and whether lists of properties pass over it (its attribute
/// [[Enumerable]], ECMA-262 §6.1.7.1, turned round).
#[derive(Clone, Copy, Debug)]
pub struct Prop {
    /// The value.
    pub value: Value,
    /// Whether lists pass over it.
    pub hidden: bool,
}

/// The properties of an object in order of creation. Contracts see the list of keys with what stands
/// at each. The elements of an array are properties at the indices.
#[derive(Drop)]
pub struct Props {
    map: IndexMap<Key, Prop>,
}

impl Model for Props {
    ghost use Rattle.std.specs.Prelude.{List};
    ghost use Rattle.actx_value.specs.declared.value.Key.{Key};
    ghost use Rattle.actx_objects.specs.declared.props.Prop.{Prop};

    ghost Value = { List (Key × Prop) };

    ghost view = { λ p. p.map.entries };
}

impl Props {
    /// No properties.
    pub(crate) fn new(alloc: Global) -> Props
        ensures { result ≡ [] }
    {
        Props {
            map: IndexMap::new(alloc),
        }
    }

    /// How many properties there are.
    pub(crate) fn len(&self) -> usize
        ensures { result ≡ length self.now }
    {
        self.map.len()
    }

    /// What stands at a normal key.
    pub(crate) fn get(&self, k: Key) -> Option<Prop>
        ensures { result ≡ at_key key_eq k self.now }
    {
        self.map.get(&k).copied()
    }

    /// Puts a property at a normal key.
    fn set(&mut self, k: Key, p: Prop) -> Result<(), AllocError>
        ensures ok { OnOk result (self.new ≡ with_key key_eq k p self.old) }
        ensures err { OnErr result (self.new ≡ self.old) }
    {
        self.map.insert(k, p)?;
        Ok(())
    }

    /// Writes a value at a normal key: a property that is there keeps its mark, and a new one takes
    /// `hidden`.
    pub(crate) fn write(&mut self, k: Key, value: Value, hidden: bool) -> Result<(), AllocError>
        ensures ok { OnOk result (self.new ≡ with_value k value hidden self.old) }
        ensures err { OnErr result (self.new ≡ self.old) }
    {
        let hidden = match self.get(k) {
            Some(p) => p.hidden,
            None => hidden,
        };
        self.set(k, Prop { value, hidden })
    }

    /// Takes away the property at a normal key. It moves the properties after it.
    pub(crate) fn delete(&mut self, k: Key)
        ensures { self.new ≡ without_key key_eq k self.old }
    {
        let _ = self.map.shift_remove(&k);
    }

    /// Keeps the first `n` properties.
    pub(crate) fn truncate(&mut self, n: usize)
        ensures { self.new ≡ take n self.old }
    {
        self.map.truncate(n);
    }

    /// The property at an index among all.
    fn at(&self, i: usize) -> Option<(Key, Prop)>
        ensures { result ≡ slice_get self.now i }
    {
        match self.map.get_index(i) {
            Some((k, p)) => Some((*k, *p)),
            None => None,
        }
    }

    /// The keys of the properties that aren't hidden, in order of creation.
    pub(crate) fn shown_keys(&self, alloc: Global) -> Result<Vec<Key>, AllocError>
        ensures { IfOk result (λ keys. keys.items ≡ shown_keys self.now) }
    {
        let mut keys = Vec::new(alloc);
        for i in 0..self.len() {
            match self.at(i) {
                Some((k, p)) => push_shown(&mut keys, k, p)?,
                None => return Ok(keys),
            }
        }
        Ok(keys)
    }
}

/// Puts a key at the end where its property isn't hidden.
fn push_shown(keys: &mut Vec<Key>, k: Key, p: Prop) -> Result<(), AllocError>
    ensures { OnOk result (keys.new.items ≡ keys.old.items ++ shown_keys ((k, p) ∷ [])) }
{
    if !p.hidden {
        keys.push(k)?;
    }
    Ok(())
}
