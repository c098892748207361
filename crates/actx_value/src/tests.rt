//! Worked values from outside.

use super::*;
use actx_text::{BodyId, Units, as_units, from_utf8};
use std::test::Fail;

fn text(alloc: std::alloc::Global, s: &str) -> Result<Units, Fail> {
    Ok(from_utf8(alloc, s.as_bytes())?)
}

#[test]
fn texts_of_three_units(rt: HostRuntime) -> Result<(), Fail> {
    let alloc = rt.alloc();
    let mut texts = Texts::new(alloc, 3);
    assert_eq!(rt; texts.add(text(alloc, "ab")?), Ok(TextId(1)));
    assert_eq!(rt; texts.add(text(alloc, "cd")?), Err(StoreError::Full));
    assert_eq!(rt; texts.add(text(alloc, "")?), Ok(TextId(0)));
    assert_eq!(rt; texts.add(text(alloc, "c")?), Ok(TextId(2)));
    assert_eq!(rt; texts.add(text(alloc, "c")?), Err(StoreError::Full));
    assert_eq!(rt; texts.total(), 3);
    texts.one_empty_text();
    Ok(())
}

#[test]
fn numbers_of_texts(rt: HostRuntime) -> Result<(), Fail> {
    let alloc = rt.alloc();
    let mut texts = Texts::new(alloc, 100);
    for (s, number) in [
        ("x", 1),
        ("yy", 2),
        ("x", 3),
        ("", 0),
        ("x", 4),
        ("yy", 5),
        ("z", 6),
    ] {
        assert_eq!(rt; texts.add(text(alloc, s)?), Ok(TextId(number)), "of {s:?}");
    }
    for (number, s, least) in [
        (0, "", 0),
        (1, "x", 1),
        (2, "yy", 2),
        (3, "x", 1),
        (4, "x", 1),
        (5, "yy", 2),
        (6, "z", 6),
    ] {
        let got = texts.get(TextId(number)).ok_or("a text that is there")?;
        let wanted = text(alloc, s)?;
        assert_eq!(rt; as_units(got), as_units(&wanted));
        assert_eq!(rt; texts.least(TextId(number)), TextId(least), "of {number}");
        assert_eq!(rt;
            texts.number(as_units(&wanted)),
            Some(TextId(least)),
            "of {s:?}"
        );
    }
    assert!(rt; texts.get(TextId(7)).is_none());
    assert_eq!(rt; texts.least(TextId(7)), TextId(0));
    assert_eq!(rt; texts.number(as_units(&text(alloc, "y")?)), None);
    assert_eq!(rt; texts.total(), 8);
    Ok(())
}

#[test]
fn standard_limits(rt: HostRuntime) {
    let limits = standard();
    assert_eq!(rt; limits.calls, 4_000);
    assert_eq!(rt; limits.objects, 2_000_000);
    assert_eq!(rt; limits.properties, 8_000_000);
    assert_eq!(rt; limits.cells, 8_000_000);
    assert_eq!(rt; limits.text, 67_108_864);
    assert_eq!(rt; limits.bindings, 1_000_000);
    assert_eq!(rt; limits.variables, 1_024);
    assert_eq!(rt; limits.resources, 2_000_000);
    assert_eq!(rt; limits.turns, 1_000_000);
}

#[test]
fn messages_of_errors(rt: HostRuntime) {
    let cases = [
        (ErrorKind::NOT_A_FUNCTION, Some("not a function")),
        (ErrorKind::NOT_A_CONSTRUCTOR, Some("not a constructor")),
        (ErrorKind::NOT_ITERABLE, Some("not iterable")),
        (
            ErrorKind::NO_PROPERTY,
            Some("no property of undefined or null"),
        ),
        (ErrorKind::FROZEN, Some("frozen")),
        (ErrorKind::GENERATOR_RUNNING, Some("generator is running")),
        (
            ErrorKind::RESOLVED_WITH_ITSELF,
            Some("promise resolved with itself"),
        ),
        (
            ErrorKind::CLASS_WITHOUT_NEW,
            Some("class called without new"),
        ),
        (ErrorKind::WRONG_RECEIVER, Some("wrong receiver")),
        (ErrorKind::BAD_ARGUMENT, Some("bad argument")),
        (ErrorKind::NOT_AN_OBJECT, Some("not an object")),
        (ErrorKind::TypeError(11), None),
        (ErrorKind::OUT_OF_RANGE, Some("bad argument")),
        (ErrorKind::RangeError(1), None),
        (ErrorKind::NOT_INITIALISED, Some("not initialised")),
        (ErrorKind::ReferenceError(1), None),
        (ErrorKind::DESTROYED_TWICE, Some("destroyed twice")),
        (ErrorKind::NO_MODULE, Some("cannot find module")),
        (ErrorKind::Error(2), None),
    ];
    for (kind, wanted) in cases {
        assert!(rt; message(kind) == wanted, "of {kind:?}");
    }
}

#[test]
fn operators_that_ask_no_object(rt: HostRuntime) {
    assert_eq!(rt; UnaryOp::Negate.op(), Some(Op::Negate));
    assert_eq!(rt; UnaryOp::TypeOf.op(), None);
    assert_eq!(rt; BinaryOp::Remainder.op(), Some(Op::Remainder));
    assert_eq!(rt; BinaryOp::In.op(), None);
    assert_eq!(rt; BinaryOp::InstanceOf.op(), None);
}

#[test]
fn truth_of_values(rt: HostRuntime) {
    let cases = [
        (Value::Undefined, false),
        (Value::Null, false),
        (Value::Bool(false), false),
        (Value::Bool(true), true),
        (Value::Num(0), false),
        (Value::Num(-1), true),
        (Value::Text(TextId(0)), false),
        (Value::Text(TextId(1)), true),
        (Value::Object(ObjId(0)), true),
    ];
    for (value, wanted) in cases {
        assert_eq!(rt; is_true(value), wanted, "of {value:?}");
    }
}

#[test]
fn lists_and_requests(rt: HostRuntime) -> Result<(), Fail> {
    let items = vec![in rt.alloc(); Value::Num(1), Value::Scope(ScopeId(2))]?;
    let list = Values::from_vec(items);
    assert_eq!(rt;
        list.as_slice(),
        [Value::Num(1), Value::Scope(ScopeId(2))].as_slice()
    );
    assert_eq!(rt; list.into_vec().len(), 2);
    let asked = Request::Function {
        body: BodyId(1),
        scope: ScopeId(0),
    };
    assert_eq!(rt; asked, asked);
    assert_ne!(rt; asked, Request::Tick);
    assert_ne!(rt; Answer::Go(Value::Null), Answer::Raise(Value::Null));
    assert_ne!(rt; Key::Index(1), Key::Name(TextId(1)));
    assert_ne!(rt; End::Exited(1), End::Limit(Which::Text));
    assert_ne!(rt; CallerId::Promise, CallerId::PromiseThen);
    Ok(())
}
