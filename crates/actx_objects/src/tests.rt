//! Worked values, taken from ECMA-262, and each limit.

use super::*;
use actx_text::from_utf8;
use actx_value::{Key, ObjId, StoreError, TextId, Texts, Value};
use std::alloc::Global;
use std::test::Fail;

const EMPTY: Key = Key::Name(TextId(0));

const LENGTH: Key = Key::Name(TextId(1));

// The calls that change objects, without contracts: a proof of a test that follows each state is slow.

// Makes an object.
fn make(objects: &mut Objects, kind: Kind, proto: Option<ObjId>) -> Result<ObjId, StoreError> {
    objects.make(kind, proto)
}

// Writes a property.
fn set(objects: &mut Objects, o: ObjId, k: Key, v: Value, texts: &Texts) -> Result<(), SetError> {
    objects.set(o, k, v, texts)
}

// Writes a property that is hidden where it is new.
fn hide(objects: &mut Objects, o: ObjId, k: Key, v: Value, texts: &Texts) -> Result<(), SetError> {
    objects.set_hidden(o, k, v, texts)
}

// Deletes a property.
fn delete(objects: &mut Objects, o: ObjId, k: Key, texts: &Texts) -> Result<bool, DeleteError> {
    objects.delete(o, k, texts)
}

// Freezes an object.
fn freeze(objects: &mut Objects, o: ObjId) {
    objects.freeze(o);
}

// Drops an entry.
fn drop_entry(objects: &mut Objects, o: ObjId, key: Value, texts: &Texts) -> bool {
    objects.entry_drop(o, key, texts)
}

// Adds a text.
fn add(alloc: Global, texts: &mut Texts, letters: &[u8]) -> Result<TextId, Fail> {
    Ok(texts.add(from_utf8(alloc, letters)?)?)
}

// Puts an entry into a Map or a Set.
fn put(objects: &mut Objects, o: ObjId, key: Value, v: Value, texts: &Texts) -> Option<SetError> {
    match objects.kind(o) {
        Kind::Map | Kind::Set => objects.entry_put(o, key, v, texts).err(),
        _ => Some(SetError::ArrayProperty),
    }
}

// Puts an element into an array.
fn push(objects: &mut Objects, o: ObjId, v: Value) -> Option<SetError> {
    match objects.kind(o) {
        Kind::Array => objects.push(o, v).err(),
        _ => Some(SetError::ArrayProperty),
    }
}

#[test]
fn properties_along_prototypes(rt: HostRuntime) {
    let texts = Texts::new(rt.alloc(), 10);
    let mut objects = Objects::new(rt.alloc(), 3, 100);
    let (top, middle, low) = (ObjId(0), ObjId(1), ObjId(2));
    assert_eq!(rt; make(&mut objects, Kind::Function, None), Ok(top));
    assert_eq!(rt; make(&mut objects, Kind::Plain, Some(top)), Ok(middle));
    assert_eq!(rt; make(&mut objects, Kind::Plain, Some(middle)), Ok(low));
    assert_eq!(rt;
        set(&mut objects, top, EMPTY, Value::Num(1), &texts),
        Ok(())
    );
    assert_eq!(rt; objects.get(low, EMPTY, &texts), Some(Value::Num(1)));
    assert_eq!(rt; objects.own(low, EMPTY, &texts), None);
    assert_eq!(rt;
        set(&mut objects, middle, EMPTY, Value::Null, &texts),
        Ok(())
    );
    assert_eq!(rt; objects.get(low, EMPTY, &texts), Some(Value::Null));
    assert_eq!(rt; delete(&mut objects, top, EMPTY, &texts), Ok(true));
    assert_eq!(rt; delete(&mut objects, top, EMPTY, &texts), Ok(false));
    assert_eq!(rt; objects.get(top, EMPTY, &texts), None);
    assert_eq!(rt; objects.proto(low), Some(middle));
    assert_eq!(rt; objects.kind(top), Kind::Function);
    assert_eq!(rt; objects.len(top), 0);
}

#[test]
fn no_such_object(rt: HostRuntime) -> Result<(), Fail> {
    let texts = Texts::new(rt.alloc(), 10);
    let mut objects = Objects::new(rt.alloc(), 1, 10);
    let o = ObjId(7);
    assert_eq!(rt; objects.kind(o), Kind::Plain);
    assert_eq!(rt; objects.proto(o), None);
    assert_eq!(rt; objects.get(o, EMPTY, &texts), None);
    assert_eq!(rt;
        set(&mut objects, o, EMPTY, Value::Null, &texts),
        Err(SetError::Frozen)
    );
    assert_eq!(rt; delete(&mut objects, o, EMPTY, &texts), Ok(false));
    let keys = objects.keys(o, &texts)?;
    assert!(rt; keys.is_empty());
    assert_eq!(rt; make(&mut objects, Kind::Plain, Some(o)), Ok(ObjId(0)));
    assert_eq!(rt; objects.proto(ObjId(0)), None);
    Ok(())
}

#[test]
fn keys_of_a_plain_object(rt: HostRuntime) -> Result<(), Fail> {
    let mut texts = Texts::new(rt.alloc(), 10);
    let a = Key::Name(add(rt.alloc(), &mut texts, b"a")?);
    let b = Key::Name(add(rt.alloc(), &mut texts, b"b")?);
    let mut objects = Objects::new(rt.alloc(), 10, 10);
    let o = ObjId(0);
    assert_eq!(rt; make(&mut objects, Kind::Plain, None), Ok(o));
    for k in [b, Key::Index(2), a, Key::Index(1)] {
        assert_eq!(rt; set(&mut objects, o, k, Value::Null, &texts), Ok(()));
    }
    let keys = objects.keys(o, &texts)?;
    assert_eq!(rt;
        keys.as_slice(),
        [Key::Index(1), Key::Index(2), b, a].as_slice()
    );
    Ok(())
}

#[test]
fn hidden_properties_are_not_listed(rt: HostRuntime) -> Result<(), Fail> {
    let texts = Texts::new(rt.alloc(), 10);
    let mut objects = Objects::new(rt.alloc(), 10, 10);
    let o = ObjId(0);
    let one = Key::Index(1);
    assert_eq!(rt; make(&mut objects, Kind::Plain, None), Ok(o));
    assert_eq!(rt; set(&mut objects, o, EMPTY, Value::Null, &texts), Ok(()));
    assert_eq!(rt; hide(&mut objects, o, one, Value::Null, &texts), Ok(()));
    assert_eq!(rt; set(&mut objects, o, one, Value::Num(5), &texts), Ok(()));
    assert_eq!(rt; objects.own(o, one, &texts), Some(Value::Num(5)));
    assert_eq!(rt; hide(&mut objects, o, EMPTY, Value::Null, &texts), Ok(()));
    let keys = objects.keys(o, &texts)?;
    assert_eq!(rt; keys.as_slice(), [EMPTY].as_slice());
    Ok(())
}

#[test]
fn names_are_equal_by_their_texts(rt: HostRuntime) -> Result<(), Fail> {
    let mut texts = Texts::new(rt.alloc(), 10);
    let first = Key::Name(add(rt.alloc(), &mut texts, b"a")?);
    let second = Key::Name(add(rt.alloc(), &mut texts, b"a")?);
    let mut objects = Objects::new(rt.alloc(), 10, 1);
    let o = ObjId(0);
    assert_eq!(rt; make(&mut objects, Kind::Plain, None), Ok(o));
    assert_eq!(rt; set(&mut objects, o, second, Value::Num(1), &texts), Ok(()));
    assert_eq!(rt; set(&mut objects, o, first, Value::Num(2), &texts), Ok(()));
    assert_eq!(rt; objects.own(o, second, &texts), Some(Value::Num(2)));
    Ok(())
}

#[test]
fn arrays(rt: HostRuntime) -> Result<(), Fail> {
    let mut texts = Texts::new(rt.alloc(), 10);
    let _ = add(rt.alloc(), &mut texts, b"length")?;
    let mut objects = Objects::new(rt.alloc(), 10, 2);
    let a = ObjId(0);
    assert_eq!(rt; make(&mut objects, Kind::Array, None), Ok(a));
    assert_eq!(rt; push(&mut objects, a, Value::Num(10)), None);
    assert_eq!(rt; objects.own(a, LENGTH, &texts), Some(Value::Num(1)));
    assert_eq!(rt;
        set(&mut objects, a, EMPTY, Value::Null, &texts),
        Err(SetError::ArrayProperty)
    );
    assert_eq!(rt;
        set(&mut objects, a, LENGTH, Value::Num(2), &texts),
        Err(SetError::Gap)
    );
    assert_eq!(rt;
        delete(&mut objects, a, LENGTH, &texts),
        Err(DeleteError::Sparse)
    );
    assert_eq!(rt; set(&mut objects, a, LENGTH, Value::Num(0), &texts), Ok(()));
    assert_eq!(rt; objects.len(a), 0);
    Ok(())
}

#[test]
fn an_empty_array(rt: HostRuntime) {
    let texts = Texts::new(rt.alloc(), 10);
    let mut objects = Objects::new(rt.alloc(), 10, 10);
    let a = ObjId(0);
    assert_eq!(rt; make(&mut objects, Kind::Array, None), Ok(a));
    assert_eq!(rt;
        set(&mut objects, a, Key::Index(1), Value::Null, &texts),
        Err(SetError::Gap)
    );
    assert_eq!(rt;
        set(&mut objects, a, Key::Index(0), Value::Null, &texts),
        Ok(())
    );
    assert_eq!(rt;
        delete(&mut objects, a, Key::Index(0), &texts),
        Err(DeleteError::Sparse)
    );
}

#[test]
fn frozen_objects(rt: HostRuntime) {
    let texts = Texts::new(rt.alloc(), 10);
    let mut objects = Objects::new(rt.alloc(), 10, 10);
    let (o, a) = (ObjId(0), ObjId(1));
    assert_eq!(rt; make(&mut objects, Kind::Plain, None), Ok(o));
    assert_eq!(rt; make(&mut objects, Kind::Array, None), Ok(a));
    assert_eq!(rt; set(&mut objects, o, EMPTY, Value::Null, &texts), Ok(()));
    freeze(&mut objects, o);
    freeze(&mut objects, a);
    assert_eq!(rt;
        set(&mut objects, o, EMPTY, Value::Num(1), &texts),
        Err(SetError::Frozen)
    );
    assert_eq!(rt;
        delete(&mut objects, o, EMPTY, &texts),
        Err(DeleteError::Frozen)
    );
    assert_eq!(rt; delete(&mut objects, o, Key::Index(0), &texts), Ok(false));
    assert_eq!(rt;
        set(&mut objects, a, Key::Index(1), Value::Null, &texts),
        Err(SetError::Frozen)
    );
    assert_eq!(rt; push(&mut objects, a, Value::Null), Some(SetError::Frozen));
}

#[test]
fn one_object_and_one_property(rt: HostRuntime) {
    let texts = Texts::new(rt.alloc(), 10);
    let mut objects = Objects::new(rt.alloc(), 1, 1);
    let o = ObjId(0);
    assert_eq!(rt; make(&mut objects, Kind::Plain, None), Ok(o));
    assert_eq!(rt;
        make(&mut objects, Kind::Plain, None),
        Err(StoreError::Full)
    );
    assert_eq!(rt; set(&mut objects, o, EMPTY, Value::Null, &texts), Ok(()));
    assert_eq!(rt;
        set(&mut objects, o, Key::Index(0), Value::Null, &texts),
        Err(SetError::Full)
    );
    assert_eq!(rt; set(&mut objects, o, EMPTY, Value::Num(1), &texts), Ok(()));
}

#[test]
fn walks_over_a_map(rt: HostRuntime) {
    let texts = Texts::new(rt.alloc(), 10);
    let mut objects = Objects::new(rt.alloc(), 10, 3);
    let map = ObjId(0);
    let (k, m, n) = (Value::Num(7), Value::Null, Value::Bool(true));
    assert_eq!(rt; make(&mut objects, Kind::Map, None), Ok(map));
    assert_eq!(rt; put(&mut objects, map, k, Value::Num(1), &texts), None);
    assert_eq!(rt; put(&mut objects, map, m, Value::Num(2), &texts), None);
    assert_eq!(rt; objects.entry_at(map, 0), Some((0, k, Value::Num(1))));
    assert!(rt; drop_entry(&mut objects, map, k, &texts));
    assert!(rt; !drop_entry(&mut objects, map, k, &texts));
    assert_eq!(rt; put(&mut objects, map, n, Value::Num(3), &texts), None);
    assert_eq!(rt; objects.len(map), 2);
    assert_eq!(rt; objects.entry_at(map, 1), Some((1, m, Value::Num(2))));
    assert_eq!(rt; objects.entry_at(map, 2), Some((2, n, Value::Num(3))));
    assert_eq!(rt; objects.entry_at(map, 3), None);
    assert_eq!(rt; objects.entry_at(map, 0), Some((1, m, Value::Num(2))));
}

#[test]
fn dropped_entries_count_and_entries_do_not_freeze(rt: HostRuntime) {
    let texts = Texts::new(rt.alloc(), 10);
    let mut objects = Objects::new(rt.alloc(), 10, 2);
    let map = ObjId(0);
    let (k, m) = (Value::Num(7), Value::Null);
    assert_eq!(rt; make(&mut objects, Kind::Map, None), Ok(map));
    assert_eq!(rt; put(&mut objects, map, k, Value::Num(1), &texts), None);
    assert_eq!(rt; put(&mut objects, map, m, Value::Num(2), &texts), None);
    assert!(rt; drop_entry(&mut objects, map, k, &texts));
    assert_eq!(rt; put(&mut objects, map, k, m, &texts), Some(SetError::Full));
    freeze(&mut objects, map);
    assert_eq!(rt; put(&mut objects, map, m, m, &texts), None);
    assert_eq!(rt; objects.entry_get(map, m, &texts), Some(m));
    assert_eq!(rt; objects.entry_get(map, k, &texts), None);
}

#[test]
fn entries_are_equal_by_their_texts(rt: HostRuntime) -> Result<(), Fail> {
    let mut texts = Texts::new(rt.alloc(), 10);
    let first = Value::Text(add(rt.alloc(), &mut texts, b"a")?);
    let second = Value::Text(add(rt.alloc(), &mut texts, b"a")?);
    let mut objects = Objects::new(rt.alloc(), 10, 1);
    let set = ObjId(0);
    assert_eq!(rt; make(&mut objects, Kind::Set, None), Ok(set));
    assert_eq!(rt; put(&mut objects, set, second, first, &texts), None);
    assert_eq!(rt; objects.entry_get(set, first, &texts), Some(first));
    assert!(rt; drop_entry(&mut objects, set, first, &texts));
    assert_eq!(rt; objects.len(set), 0);
    Ok(())
}
