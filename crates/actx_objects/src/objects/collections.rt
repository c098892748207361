//! The entries of Maps and Sets (ECMA-262 §24.1, §24.2).

ghost use Rattle.std.specs.Prelude.{◌≡◌, false, length, OnOk, OnErr, IsTrue, is_some};
ghost use Rattle.actx_objects.specs.Kinds.{is_collection};
ghost use Rattle.actx_objects.specs.Objects.{kind_of, is_there, size_of, placed_of, entry_of, entries_of, entry_from, entry_put, entry_dropped, has_no_place};
ghost use Rattle.actx_objects.specs.Entries.{StandInOrder};
ghost use Rattle.actx_objects.specs.Writes.{IsRefusedBy};
ghost use Rattle.actx_objects.specs.Collections.{put_refusal, has_entry, entry_written, entry_left, entries_cleared};

use super::Objects;
use crate::kind::{is_array, is_collection};
use crate::normal::normal_value;
use crate::refusal::SetError;
use actx_value::{ObjId, Texts, Value};
use std::alloc::AllocError;

impl Objects {
    /// How many elements an array has, and how many entries stand in a Map or a Set; 0 for every other
    /// kind.
    pub fn len(&self, o: ObjId) -> usize
        ensures { result ≡ size_of self.now o }
    {
        match self.items.get(o.0 as usize) {
            Some(object) => {
                if is_array(object.kind) {
                    object.props.len()
                } else if is_collection(object.kind) {
                    object.entries.len()
                } else {
                    0
                }
            }
            None => 0,
        }
    }

    /// The value under a normal key.
    fn placed(&self, o: ObjId, key: Value) -> Option<Value>
        ensures { result ≡ placed_of self.now o key }
    {
        match self.items.get(o.0 as usize) {
            Some(object) => match object.entries.get(key) {
                Some(e) => Some(e.value),
                None => None,
            },
            None => None,
        }
    }

    /// The value under a key of a Map or a Set (Map.prototype.get, ECMA-262 §24.1.3.6). Keys are equal as by
    /// `===`.
    pub fn entry_get(&self, o: ObjId, key: Value, texts: &Texts) -> Option<Value>
        ensures { result ≡ entry_of texts.now.texts self.now o key }
    {
        self.placed(o, normal_value(key, texts))
    }

    /// Whether the limit of properties refuses an entry under a normal key.
    fn has_no_place(&self, o: ObjId, key: Value) -> bool
        ensures { result ≡ has_no_place self.now o key }
    {
        self.total >= self.most_properties && self.placed(o, key).is_none()
    }

    /// Puts an entry under a normal key where there is an object and room.
    fn put_entry(&mut self, o: ObjId, key: Value, v: Value) -> Result<(), AllocError>
        requires there { IsTrue (is_there self.old o) }
        requires room { has_no_place self.old o key ≡ false }
        ensures ok { OnOk result (self.new ≡ entry_put self.old o key v) }
        ensures err { OnErr result (self.new ≡ self.old) }
    {
        let object = &mut self.items[o.0 as usize];
        let before = object.entries.places();
        object.entries.put(key, v)?;
        let after = object.entries.places();
        self.total += after - before;
        Ok(())
    }

    /// Puts a value under a key of a Map or a Set (Map.prototype.set, ECMA-262 §24.1.3.9; Set.prototype.add,
    /// §24.2.4.1). An entry that is there keeps its place, and a new one goes last. Entries don't freeze.
    ///
    /// # Errors
    /// `Full` exactly where a new entry would be above the limit, and else `Memory` where there is no room.
    /// The objects stay as they were.
    pub fn entry_put(
        &mut self,
        o: ObjId,
        key: Value,
        v: Value,
        texts: &Texts,
    ) -> Result<(), SetError>
        requires { IsTrue (is_collection (kind_of self.old o)) }
        ensures ok { OnOk result (self.new ≡ entry_written texts.now.texts self.old o key v) }
        ensures refused { IsRefusedBy (put_refusal texts.now.texts self.old o key) result }
        ensures err { OnErr result (self.new ≡ self.old) }
    {
        let key = normal_value(key, texts);
        if self.has_no_place(o, key) {
            return Err(SetError::Full);
        }
        match self.put_entry(o, key, v) {
            Ok(()) => Ok(()),
            Err(_) => Err(SetError::Memory),
        }
    }

    /// Drops the entry under a normal key that is there.
    fn drop_entry(&mut self, o: ObjId, key: Value)
        requires { IsTrue (is_some (placed_of self.old o key)) }
        ensures { self.new ≡ entry_dropped self.old o key }
    {
        let object = &mut self.items[o.0 as usize];
        object.entries.drop_key(key);
    }

    /// Drops the entry under a key of a Map or a Set (Map.prototype.delete, ECMA-262 §24.1.3.3;
    /// Set.prototype.delete, §24.2.4.4), and answers whether there was one. It still counts against the
    /// limit.
    pub fn entry_drop(&mut self, o: ObjId, key: Value, texts: &Texts) -> bool
        ensures was { result ≡ has_entry texts.now.texts self.old o key }
        ensures left { self.new ≡ entry_left texts.now.texts self.old o key }
    {
        let key = normal_value(key, texts);
        if self.placed(o, key).is_none() {
            return false;
        }
        self.drop_entry(o, key);
        true
    }

    /// Drops all entries of a Map or a Set (Map.prototype.clear, ECMA-262 §24.1.3.1; Set.prototype.clear,
    /// §24.2.4.2). They still count against the limit, and their places stay given.
    pub fn entries_clear(&mut self, o: ObjId)
        ensures { self.new ≡ entries_cleared self.old o }
    {
        let i = o.0 as usize;
        if i < self.items.len() {
            let object = &mut self.items[i];
            object.entries.clear();
        }
    }

    /// The first entry of a Map or a Set whose place is at least `place`, as its place, its key and its
    /// value. Places only grow, so a walk that goes on after the last place sees each entry once, those
    /// too that are put meanwhile (Map.prototype.forEach, ECMA-262 §24.1.3.5).
    pub fn entry_at(&self, o: ObjId, place: u64) -> Option<(u64, Value, Value)>
        ensures { result ≡ entry_from self.now o place }
    {
        match self.items.get(o.0 as usize) {
            Some(object) => object.entries.first_from(place),
            None => None,
        }
    }
    /// The entries of an object stand in the order of their places, so that a walk by `entry_at` meets each
    /// one. The call does nothing: its contract is the law.
    pub fn entries_stand_in_order(&self, o: ObjId)
        ensures { StandInOrder (entries_of self.now o) }
    {
        let _total = self.total;
        match self.items.get(o.0 as usize) {
            Some(object) => object.entries.stand_in_order(),
            None => {}
        }
    }
}
