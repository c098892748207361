//! The opening store of a code without literals, looked at by hand.

use super::*;
use actx_code::Code;
use actx_objects::Kind;
use actx_value::{Key, ObjId, TextId, Value, standard};
use std::test::Fail;

// The number of a word.
fn number(store: &Store, word: &[u16]) -> TextId {
    match store.texts.number(word) {
        Some(t) => t,
        None => TextId(0),
    }
}

// An own property by its name.
fn own(store: &Store, o: u32, word: &[u16]) -> Option<Value> {
    store
        .objects
        .own(ObjId(o), Key::Name(number(store, word)), &store.texts)
}

// Whether a write to a property is refused.
fn is_refused(store: &mut Store, o: u32, word: &[u16]) -> bool {
    let key = Key::Name(number(store, word));
    store
        .objects
        .set(ObjId(o), key, Value::Null, &store.texts)
        .is_err()
}

// How many properties are listed.
fn listed(store: &Store, o: u32) -> Result<usize, Fail> {
    Ok(store.objects.keys(ObjId(o), &store.texts)?.len())
}

#[test]
fn opened(rt: HostRuntime) -> Result<(), Fail> {
    let alloc = rt.alloc();
    let code = Code::new(Vec::new(alloc), Vec::new(alloc), Vec::new(alloc));
    let mut store = opening(alloc, &code, &standard())?;
    let push = [0x70u16, 0x75, 0x73, 0x68];
    let name = [0x6Eu16, 0x61, 0x6D, 0x65];
    assert_eq!(rt; own(&store, 33, &push), Some(Value::Object(ObjId(34))));
    assert_eq!(rt;
        own(&store, 34, &name),
        Some(Value::Text(number(&store, &push)))
    );
    assert!(rt; store.texts.get(number(&store, &push)).is_some());
    assert_eq!(rt; store.objects.kind(ObjId(34)), Kind::Native);
    assert_eq!(rt; store.objects.kind(ObjId(33)), Kind::Plain);
    assert_eq!(rt; store.objects.proto(ObjId(34)), Some(ObjId(25)));
    assert_eq!(rt; store.objects.proto(ObjId(0)), Some(ObjId(24)));
    assert_eq!(rt; store.objects.proto(ObjId(1)), Some(ObjId(25)));
    assert_eq!(rt; store.objects.proto(ObjId(79)), Some(ObjId(77)));
    assert_eq!(rt; store.objects.proto(ObjId(24)), None);
    assert_eq!(rt; listed(&store, 33)?, 0);
    assert!(rt; is_refused(&mut store, 33, &name));
    Ok(())
}
