//! The objects of a run.

ghost use Rattle.std.specs.Prelude.{◌≡◌, ◌≤◌, ◌<◌, ◌↔◌, [], true, false, is_some, length, IfOk, OnOk, OnErr, IsTrue, IsErrOf};
ghost use Rattle.std.specs.Result.{result_err};
ghost use Rattle.actx_objects.specs.Kinds.{is_array};
ghost use Rattle.actx_objects.specs.Objects.{kind_of, proto_of, is_frozen, width_of, prop_of, own_of, made, standing, with_proto, frozen_by, keys_of, value_of, property_count, is_there, is_array_length, size_of, entry_of, placed_of};
ghost use Rattle.actx_objects.specs.Writes.{has_no_room, with_property, cut, removed, refusal_of, IsRefusedBy, written, has_own, deleted, delete_refusal, push_refusal, pushed};

use crate::array::{array_refusal, length_in};

mod collections;

use crate::entries::Entries;
use crate::kind::{Kind, is_array};
use crate::normal::{is_length, normal_key};
use crate::object::Object;
use crate::order::in_order;
use crate::props::{Prop, Props};
use crate::refusal::{DeleteError, SetError};
use actx_value::{Key, ObjId, StoreError, Texts, Value};
use std::alloc::{AllocError, Global};
use std::marker::Model;

/// The objects of a run, by number, the most objects, and the most properties and entries that they may
/// have in all. Contracts see the list of objects and these two limits. An object number that isn't
/// there counts as a frozen Plain object without prototype and properties.
#[derive(Drop)]
pub struct Objects {
    alloc: Global,
    items: Vec<Object>,
    total: u64,
    most_objects: u64,
    most_properties: u64,
}

impl Model for Objects {
    ghost use Rattle.std.specs.Prelude.{◌≡◌, ◌≤◌, ◌<◌, length};
    ghost use Rattle.actx_objects.specs.Objects.{ObjectStore, property_count};

    ghost Value = { ObjectStore };

    ghost view = { λ t. record { objects = t.items.items; most_objects = t.most_objects; most_properties = t.most_properties } };

    ghost invariant = { λ t. (t.total ≡ property_count t.items.items) × (t.total ≤ t.most_properties) × (length t.items.items ≤ t.most_objects)
        × (t.most_objects < 2147483648) × (t.most_properties < 2147483648) };
}

impl Objects {
    /// No object, where at most `objects` objects are made, with at most `properties` properties and
    /// entries in all.
    pub fn new(alloc: Global, objects: u64, properties: u64) -> Objects
        requires objects { objects < 2147483648 }
        requires properties { properties < 2147483648 }
        ensures { result ≡ record { objects = []; most_objects = objects; most_properties = properties } }
    {
        Objects {
            alloc,
            items: Vec::new(alloc),
            total: 0,
            most_objects: objects,
            most_properties: properties,
        }
    }

    /// Makes an object of this kind, and gives the next number (OrdinaryObjectCreate, ECMA-262 §10.1.12).
    /// A prototype that isn't there is none.
    ///
    /// # Errors
    /// `Full` exactly where there are as many objects as the limit. `Memory` where there is no room. The
    /// objects stay as they were.
    pub fn make(&mut self, kind: Kind, proto: Option<ObjId>) -> Result<ObjId, StoreError>
        ensures number { IfOk result (λ o. o.0 ≡ length self.old.objects) }
        ensures ok { OnOk result (self.new ≡ made self.old kind proto) }
        ensures full { IsErrOf result StoreError.Full ↔ (self.old.most_objects ≤ length self.old.objects) }
        ensures err { OnErr result (self.new ≡ self.old) }
    {
        let n = self.items.len();
        if n as u64 >= self.most_objects {
            return Err(StoreError::Full);
        }
        let proto = match proto {
            Some(p) if (p.0 as usize) < n => Some(p),
            _ => None,
        };
        let object = Object {
            kind,
            proto,
            frozen: false,
            props: Props::new(self.alloc),
            entries: Entries::new(self.alloc),
        };
        match self.items.push(object) {
            Ok(()) => Ok(ObjId(n as u32)),
            Err(_) => Err(StoreError::Memory),
        }
    }

    /// The kind with which an object was made.
    pub fn kind(&self, o: ObjId) -> Kind
        ensures { result ≡ kind_of self.now o }
    {
        match self.items.get(o.0 as usize) {
            Some(object) => object.kind,
            None => Kind::Plain,
        }
    }

    /// The prototype of an object (OrdinaryGetPrototypeOf, ECMA-262 §10.1.1.1).
    pub fn proto(&self, o: ObjId) -> Option<ObjId>
        ensures { result ≡ proto_of self.now o }
    {
        match self.items.get(o.0 as usize) {
            Some(object) => object.proto,
            None => None,
        }
    }

    /// A prototype that isn't there is none.
    fn standing(&self, proto: ObjId) -> Option<ObjId>
        ensures { result ≡ standing self.now (Some proto) }
    {
        if (proto.0 as usize) < self.items.len() {
            Some(proto)
        } else {
            None
        }
    }

    /// Gives an object this prototype, in place of the one that it has (OrdinarySetPrototypeOf, ECMA-262
    /// §10.1.2.1). A prototype that isn't there is none.
    pub fn set_proto(&mut self, o: ObjId, proto: ObjId)
        ensures { self.new ≡ with_proto self.old o proto }
    {
        let proto = self.standing(proto);
        let i = o.0 as usize;
        if i < self.items.len() {
            let object = &mut self.items[i];
            object.proto = proto;
        }
    }

    /// How many objects there are.
    pub fn count(&self) -> u64
        ensures { result ≡ length self.now.objects }
    {
        self.items.len() as u64
    }

    /// How many properties and entries count against their limit.
    pub fn property_count(&self) -> u64
        ensures { result ≡ property_count self.now.objects }
    {
        self.total
    }

    /// Whether an object is frozen.
    fn is_frozen(&self, o: ObjId) -> bool
        ensures { result ≡ is_frozen self.now o }
    {
        match self.items.get(o.0 as usize) {
            Some(object) => object.frozen,
            None => true,
        }
    }

    /// Freezes an object (SetIntegrityLevel, ECMA-262 §7.3.15). The entries of a Map or a Set don't
    /// freeze.
    pub fn freeze(&mut self, o: ObjId)
        ensures { self.new ≡ frozen_by self.old o }
    {
        let i = o.0 as usize;
        if i < self.items.len() {
            let object = &mut self.items[i];
            object.frozen = true;
        }
    }

    /// How many properties an object has.
    fn width(&self, o: ObjId) -> u32
        ensures { result ≡ width_of self.now o }
    {
        match self.items.get(o.0 as usize) {
            Some(object) => object.props.len() as u32,
            None => 0,
        }
    }

    /// What stands at a normal key.
    fn prop(&self, o: ObjId, k: Key) -> Option<Prop>
        ensures { result ≡ prop_of self.now o k }
    {
        match self.items.get(o.0 as usize) {
            Some(object) => object.props.get(k),
            None => None,
        }
    }

    /// Whether a key is the `length` of an array.
    fn is_array_length(&self, o: ObjId, k: Key, texts: &Texts) -> bool
        ensures { result ≡ is_array_length texts.now.texts self.now o k }
    {
        is_array(self.kind(o)) && is_length(k, texts)
    }

    /// An object's own value at a key (OrdinaryGetOwnProperty, ECMA-262 §10.1.5.1). The `length` of an array
    /// is its number of elements.
    pub fn own(&self, o: ObjId, k: Key, texts: &Texts) -> Option<Value>
        ensures { result ≡ own_of texts.now.texts self.now o k }
    {
        if self.is_array_length(o, k, texts) {
            return Some(Value::Num(i64::from(self.width(o))));
        }
        match self.prop(o, normal_key(k, texts)) {
            Some(p) => Some(p.value),
            None => None,
        }
    }

    /// The value at a key along the prototypes (OrdinaryGet, ECMA-262 §10.1.8.1). It takes one step for each
    /// prototype.
    pub fn get(&self, o: ObjId, k: Key, texts: &Texts) -> Option<Value>
        ensures { result ≡ value_of texts.now.texts self.now o k }
    {
        let mut at = o;
        for _ in 0..self.items.len() {
            if let Some(v) = self.own(at, k, texts) {
                return Some(v);
            }
            match self.proto(at) {
                Some(p) => at = p,
                None => return None,
            }
        }
        None
    }

    /// Whether the limit of properties refuses a property at a normal key.
    fn has_no_room(&self, o: ObjId, k: Key) -> bool
        ensures { result ≡ has_no_room self.now o k }
    {
        self.total >= self.most_properties && self.prop(o, k).is_none()
    }

    /// What refuses a write.
    fn refusal(&self, o: ObjId, k: Key, v: Value, texts: &Texts) -> Option<SetError>
        ensures { result ≡ refusal_of texts.now.texts self.now o k v }
    {
        if self.is_frozen(o) {
            return Some(SetError::Frozen);
        }
        if is_array(self.kind(o))
            && let Some(refusal) = array_refusal(self.width(o), k, v, texts)
        {
            return Some(refusal);
        }
        if !self.is_array_length(o, k, texts) && self.has_no_room(o, normal_key(k, texts)) {
            return Some(SetError::Full);
        }
        None
    }

    /// Writes a property at a normal key where there is an object and room.
    fn write(&mut self, o: ObjId, k: Key, v: Value, hidden: bool) -> Result<(), AllocError>
        requires there { IsTrue (is_there self.old o) }
        requires room { has_no_room self.old o k ≡ false }
        ensures ok { OnOk result (self.new ≡ with_property self.old o k v hidden) }
        ensures err { OnErr result (self.new ≡ self.old) }
    {
        let object = &mut self.items[o.0 as usize];
        let before = object.props.len();
        object.props.write(k, v, hidden)?;
        let after = object.props.len();
        self.total += (after - before) as u64;
        Ok(())
    }

    /// Keeps the first elements of an array.
    fn cut(&mut self, o: ObjId, n: usize)
        requires { IsTrue (is_there self.old o) }
        ensures { self.new ≡ cut self.old o n }
    {
        let object = &mut self.items[o.0 as usize];
        let before = object.props.len();
        object.props.truncate(n);
        let after = object.props.len();
        self.total -= (before - after) as u64;
    }

    /// Takes away a property at a normal key that is there.
    fn take_away(&mut self, o: ObjId, k: Key)
        requires { IsTrue (is_some (prop_of self.old o k)) }
        ensures { self.new ≡ removed self.old o k }
    {
        let object = &mut self.items[o.0 as usize];
        object.props.delete(k);
        self.total -= 1;
    }

    /// Writes a value to an object's property (OrdinarySet, ECMA-262 §10.1.9.1; ArraySetLength, §10.4.2.4). A new
    /// property isn't hidden, and one that is there keeps its mark. Writing a smaller `length` of an array
    /// cuts it. Any other value than a number from 0 is no length that an array takes.
    ///
    /// # Errors
    /// The first of `Frozen`, `Gap`, `ArrayProperty` and `Full` that holds, and else `Memory` where there is no
    /// room. The objects stay as they were.
    pub fn set(&mut self, o: ObjId, k: Key, v: Value, texts: &Texts) -> Result<(), SetError>
        ensures ok { OnOk result (self.new ≡ written texts.now.texts self.old o k v false) }
        ensures refused { IsRefusedBy (refusal_of texts.now.texts self.old o k v) result }
        ensures err { OnErr result (self.new ≡ self.old) }
    {
        self.put(o, k, v, false, texts)
    }

    /// Writes a value to an object's property as `set` does, but a new property is hidden.
    ///
    /// # Errors
    /// As of `set`.
    pub fn set_hidden(&mut self, o: ObjId, k: Key, v: Value, texts: &Texts) -> Result<(), SetError>
        ensures ok { OnOk result (self.new ≡ written texts.now.texts self.old o k v true) }
        ensures refused { IsRefusedBy (refusal_of texts.now.texts self.old o k v) result }
        ensures err { OnErr result (self.new ≡ self.old) }
    {
        self.put(o, k, v, true, texts)
    }

    /// Writes a value to an object's property; `hidden` marks a new one.
    fn put(
        &mut self,
        o: ObjId,
        k: Key,
        v: Value,
        hidden: bool,
        texts: &Texts,
    ) -> Result<(), SetError>
        ensures ok { OnOk result (self.new ≡ written texts.now.texts self.old o k v hidden) }
        ensures refused { IsRefusedBy (refusal_of texts.now.texts self.old o k v) result }
        ensures err { OnErr result (self.new ≡ self.old) }
    {
        if let Some(refusal) = self.refusal(o, k, v, texts) {
            return Err(refusal);
        }
        if self.is_array_length(o, k, texts) {
            match length_in(v) {
                Some(n) => self.cut(o, n as usize),
                None => {}
            }
            return Ok(());
        }
        match self.write(o, normal_key(k, texts), v, hidden) {
            Ok(()) => Ok(()),
            Err(_) => Err(SetError::Memory),
        }
    }

    /// Deletes an object's property (OrdinaryDelete, ECMA-262 §10.1.10.1), and answers whether it was there.
    ///
    /// # Errors
    /// `Frozen` exactly for a property that a frozen object has of its own; else `Sparse` exactly for an
    /// element and for the `length` of an array. The objects stay as they were.
    pub fn delete(&mut self, o: ObjId, k: Key, texts: &Texts) -> Result<bool, DeleteError>
        ensures was { IfOk result (λ b. b ≡ has_own texts.now.texts self.old o k) }
        ensures ok { OnOk result (self.new ≡ deleted texts.now.texts self.old o k) }
        ensures refused { result_err result ≡ delete_refusal texts.now.texts self.old o k }
        ensures err { OnErr result (self.new ≡ self.old) }
    {
        if self.own(o, k, texts).is_none() {
            return Ok(false);
        }
        if self.is_frozen(o) {
            return Err(DeleteError::Frozen);
        }
        if is_array(self.kind(o)) {
            return Err(DeleteError::Sparse);
        }
        self.take_away(o, normal_key(k, texts));
        Ok(true)
    }

    /// Puts a value at the end of an array (the last step of Array.prototype.push, ECMA-262 §23.1.3.23).
    ///
    /// # Errors
    /// The first of `Frozen` and `Full` that holds, and else `Memory` where there is no room. The objects
    /// stay as they were.
    pub fn push(&mut self, o: ObjId, v: Value) -> Result<(), SetError>
        requires { IsTrue (is_array (kind_of self.old o)) }
        ensures ok { OnOk result (self.new ≡ pushed self.old o v) }
        ensures refused { IsRefusedBy (push_refusal self.old o) result }
        ensures err { OnErr result (self.new ≡ self.old) }
    {
        let k = Key::Index(self.width(o));
        if self.is_frozen(o) {
            return Err(SetError::Frozen);
        }
        if self.has_no_room(o, k) {
            return Err(SetError::Full);
        }
        match self.write(o, k, v, false) {
            Ok(()) => Ok(()),
            Err(_) => Err(SetError::Memory),
        }
    }

    /// The keys of an object's properties that aren't hidden: array indices ascending, then the others in
    /// order of creation (EnumerableOwnProperties, ECMA-262 §7.3.23; OrdinaryOwnPropertyKeys, §10.1.11.1). A
    /// name is given by the least number of its text. The `length` of an array isn't among them.
    ///
    /// # Errors
    /// Only want of memory.
    pub fn keys(&self, o: ObjId, _texts: &Texts) -> Result<Vec<Key>, AllocError>
        ensures { IfOk result (λ keys. keys.items ≡ keys_of self.now o) }
    {
        match self.items.get(o.0 as usize) {
            Some(object) => {
                let shown = object.props.shown_keys(self.alloc)?;
                in_order(self.alloc, &shown)
            }
            None => Ok(Vec::new(self.alloc)),
        }
    }
}
