//! Printed forms, whose text was written by hand.

use super::*;
use actx_objects::{Kind, Objects};
use actx_text::{from_utf8, same};
use actx_value::{Key, ObjId, Texts, Value};
use std::alloc::Global;
use std::test::Fail;

// What a run stores.
#[derive(Drop)]
struct Store {
    texts: Texts,
    objects: Objects,
}

// A store without objects.
fn empty(alloc: Global) -> Store {
    Store {
        texts: Texts::new(alloc, 1000),
        objects: Objects::new(alloc, 100, 100),
    }
}

// A new text.
fn text(alloc: Global, store: &mut Store, letters: &[u8]) -> Result<Value, Fail> {
    Ok(Value::Text(store.texts.add(from_utf8(alloc, letters)?)?))
}

// Writes a property.
fn set(alloc: Global, store: &mut Store, o: ObjId, name: &[u8], v: Value) -> Result<(), Fail> {
    let t = store.texts.add(from_utf8(alloc, name)?)?;
    Ok(store.objects.set(o, Key::Name(t), v, &store.texts)?)
}

// An array of these values.
fn array(store: &mut Store, values: &[Value]) -> Result<Value, Fail> {
    let o = store.objects.make(Kind::Array, None)?;
    let mut i = 0u32;
    for v in values {
        store.objects.set(o, Key::Index(i), *v, &store.texts)?;
        i = i.wrapping_add(1);
    }
    Ok(Value::Object(o))
}

// Whether a value has this printed form.
fn prints(alloc: Global, store: &Store, v: Value, form: &[u8]) -> Result<bool, Fail> {
    Ok(same(
        &shown(alloc, &store.texts, &store.objects, v)?,
        &from_utf8(alloc, form)?,
    ))
}

// Puts an entry into a Map or a Set.
fn put(store: &mut Store, o: ObjId, key: Value, v: Value) -> Result<(), Fail> {
    match store.objects.kind(o) {
        Kind::Map | Kind::Set => Ok(store.objects.entry_put(o, key, v, &store.texts)?),
        _ => Ok(()),
    }
}

// The array of the entries of a Map, of which one is an object with an array.
fn entries(a: Global, store: &mut Store) -> Result<Value, Fail> {
    let x = text(a, store, b"x")?;
    let inner = array(store, &[Value::Num(1), x])?;
    let o = store.objects.make(Kind::Plain, None)?;
    set(a, store, o, b"a", inner)?;
    let k = text(a, store, b"k")?;
    let j = text(a, store, b"j")?;
    let first = array(store, &[k, Value::Num(1)])?;
    let second = array(store, &[j, Value::Object(o)])?;
    array(store, &[first, second])
}

// A Set of one value.
fn set_of(store: &mut Store, v: Value) -> Result<Value, Fail> {
    let o = store.objects.make(Kind::Set, None)?;
    put(store, o, v, v)?;
    Ok(Value::Object(o))
}

// Whether arguments have this line.
fn prints_line(alloc: Global, store: &Store, args: &[Value], form: &[u8]) -> Result<bool, Fail> {
    Ok(same(
        &line(alloc, &store.texts, &store.objects, args)?,
        &from_utf8(alloc, form)?,
    ))
}

#[test]
fn a_line_of_three_arguments(rt: HostRuntime) -> Result<(), Fail> {
    let a = rt.alloc();
    let mut store = empty(a);
    let all = entries(a, &mut store)?;
    let three = set_of(&mut store, Value::Num(3))?;
    assert!(rt;
        prints_line(
            a,
            &store,
            &[Value::Num(2), all, three],
            b"2 [ [ 'k', 1 ], [ 'j', { a: [Array] } ] ] Set(1) { 3 }"
        )?
    );
    assert!(rt; prints_line(a, &store, &[], b"")?);
    Ok(())
}

#[test]
fn maps_and_sets(rt: HostRuntime) -> Result<(), Fail> {
    let a = rt.alloc();
    let mut store = empty(a);
    let set = store.objects.make(Kind::Set, None)?;
    let map = store.objects.make(Kind::Map, None)?;
    assert!(rt; prints(a, &store, Value::Object(set), b"Set(0) {}")?);
    put(&mut store, set, Value::Num(3), Value::Num(3))?;
    put(&mut store, set, Value::Null, Value::Null)?;
    let _ = store.objects.entry_drop(set, Value::Num(3), &store.texts);
    put(&mut store, set, Value::Bool(true), Value::Null)?;
    put(&mut store, map, Value::Undefined, Value::Object(set))?;
    assert!(rt;
        prints(
            a,
            &store,
            Value::Object(map),
            b"Map(1) { undefined => Set(2) { null, true } }"
        )?
    );
    Ok(())
}

#[test]
fn keys_and_quotes(rt: HostRuntime) -> Result<(), Fail> {
    let a = rt.alloc();
    let mut store = empty(a);
    let o = store.objects.make(Kind::Plain, None)?;
    assert!(rt; prints(a, &store, Value::Object(o), b"{}")?);
    let quotes = text(a, &mut store, b"it's\\\n")?;
    set(a, &mut store, o, b"b c", quotes)?;
    set(a, &mut store, o, b"$d", Value::Num(-5))?;
    set(a, &mut store, o, b"9a", Value::Bool(false))?;
    store
        .objects
        .set(o, Key::Index(3), Value::Null, &store.texts)?;
    assert!(rt;
        prints(
            a,
            &store,
            Value::Object(o),
            b"{ '3': null, 'b c': 'it\\'s\\\\\\n', $d: -5, '9a': false }"
        )?
    );
    assert!(rt; prints(a, &store, quotes, b"it's\\\n")?);
    Ok(())
}

#[test]
fn functions_classes_and_errors(rt: HostRuntime) -> Result<(), Fail> {
    let a = rt.alloc();
    let mut store = empty(a);
    let name = text(a, &mut store, b"Foo")?;
    let class = store.objects.make(Kind::Class, None)?;
    let function = store.objects.make(Kind::Function, None)?;
    assert!(rt; prints(a, &store, Value::Object(function), b"[Function]")?);
    set(a, &mut store, class, b"name", name)?;
    set(a, &mut store, function, b"name", name)?;
    assert!(rt; prints(a, &store, Value::Object(class), b"[class Foo]")?);
    assert!(rt; prints(a, &store, Value::Object(function), b"[Function: Foo]")?);
    let proto = store.objects.make(Kind::Plain, None)?;
    set(a, &mut store, proto, b"constructor", Value::Object(class))?;
    let instance = store.objects.make(Kind::Plain, Some(proto))?;
    assert!(rt; prints(a, &store, Value::Object(instance), b"Foo {}")?);
    let error = store.objects.make(Kind::Error, None)?;
    assert!(rt; prints(a, &store, Value::Object(error), b"Error")?);
    set(a, &mut store, error, b"message", name)?;
    assert!(rt; prints(a, &store, Value::Object(error), b"Error: Foo")?);
    let promise = store.objects.make(Kind::Promise, None)?;
    assert!(rt; prints(a, &store, Value::Object(promise), b"[Promise]")?);
    Ok(())
}
