//! Worked values, taken from ECMA-262 and the rules of the profile, and each limit.

use super::*;
use actx_cells::Cells;
use actx_objects::{Kind, Objects};
use actx_text::from_utf8;
use actx_value::{
    Answer, BinaryOp, ErrorKind, ObjId, Reason, Request, ScopeId, TextId, Texts, UnaryOp, Value,
    Which,
};
use std::alloc::Global;
use std::process::Abort;
use std::test::Fail;

// The stores of a run, made with these limits of objects, properties, cells and units beside what stands here: five
// prototypes and the texts `length` and `size`.
#[derive(Drop)]
struct Run {
    home: Home,
    objects: Objects,
    texts: Texts,
    cells: Cells,
}

fn add(alloc: Global, texts: &mut Texts, letters: &[u8]) -> Result<TextId, Fail> {
    Ok(texts.add(from_utf8(alloc, letters)?)?)
}

fn make(objects: &mut Objects, kind: Kind) -> Result<ObjId, Fail> {
    Ok(objects.make(kind, None)?)
}

// Asks a request, with these arguments of the call and this list.
fn ask_with(
    alloc: Global,
    run: &mut Run,
    r: Request,
    list: &[Value],
    given: &[Value],
) -> Result<Option<Given>, Fail> {
    if plain(&r) {
        let home = run.home;
        let g = answer(
            alloc,
            &r,
            list,
            given,
            &home,
            &mut run.objects,
            &mut run.texts,
            &mut run.cells,
        )?;
        Ok(Some(g))
    } else {
        Ok(None)
    }
}

fn ask(alloc: Global, run: &mut Run, r: Request) -> Result<Option<Given>, Fail> {
    ask_with(alloc, run, r, &[], &[])
}

fn gives(v: Value) -> Option<Given> {
    Some(Given::Answer(Answer::Go(v)))
}

fn throws(e: ErrorKind) -> Option<Given> {
    Some(Given::Throw(e))
}

fn stops(which: Which) -> Option<Given> {
    Some(Given::Limit(which))
}

// A run with these limits; the prototypes are objects 0 to 4 and `length` and `size` have the numbers 1 and 2.
fn start(
    alloc: Global,
    most_objects: u64,
    most_properties: u64,
    most_cells: u64,
    most_units: u64,
) -> Result<Option<Run>, Fail> {
    if most_objects >= 1000 || most_properties >= 1000 || most_cells >= 1000 || most_units >= 1000 {
        return Ok(None);
    }
    let mut objects = Objects::new(alloc, most_objects, most_properties);
    let mut texts = Texts::new(alloc, most_units);
    let home = Home {
        object: make(&mut objects, Kind::Plain)?,
        array: make(&mut objects, Kind::Array)?,
        text: make(&mut objects, Kind::Plain)?,
        number: make(&mut objects, Kind::Plain)?,
        truth: make(&mut objects, Kind::Plain)?,
        length: add(alloc, &mut texts, b"length")?,
        size: add(alloc, &mut texts, b"size")?,
    };
    let cells = Cells::new(alloc, most_cells);
    Ok(Some(Run {
        home,
        objects,
        texts,
        cells,
    }))
}

fn plenty(alloc: Global) -> Result<Option<Run>, Fail> {
    start(alloc, 100, 100, 100, 100)
}

const LENGTH: Value = Value::Text(TextId(1));

const SIZE: Value = Value::Text(TextId(2));

fn get(object: Value, key: Value) -> Request {
    Request::Get { object, key }
}

fn set(object: Value, key: Value, value: Value) -> Request {
    Request::Set { object, key, value }
}

fn binary(op: BinaryOp, left: Value, right: Value) -> Request {
    Request::Binary { op, left, right }
}

// Asks each request in turn and compares what it gives.
fn check_all(
    rt: &impl Abort,
    alloc: Global,
    run: &mut Run,
    rows: &[(Request, Option<Given>)],
) -> Result<(), Fail> {
    for (i, (r, given)) in rows.iter().enumerate() {
        assert_eq!(rt; ask(alloc, run, *r)?, *given, "row {i}");
    }
    Ok(())
}

#[test]
fn scopes_and_operators(rt: HostRuntime) -> Result<(), Fail> {
    let Some(mut run) = start(rt.alloc(), 100, 100, 6, 100)? else {
        return Ok(());
    };
    let outer = ScopeId(0);
    let inner = ScopeId(1);
    let one = Value::Num(1);
    let load = |scope, hops, slot| Request::Load { scope, hops, slot };
    let store = |scope, hops, slot, value| Request::Store {
        scope,
        hops,
        slot,
        value,
    };
    let init = |scope, hops, slot, value| Request::Init {
        scope,
        hops,
        slot,
        value,
    };
    let rows = [
        (Request::Tick, gives(Value::Undefined)),
        (Request::Begin, None),
        (
            Request::Scope {
                parent: ScopeId(9),
                count: 1,
            },
            gives(Value::Scope(outer)),
        ),
        (load(outer, 0, 0), throws(ErrorKind::NOT_INITIALISED)),
        (store(outer, 0, 0, one), throws(ErrorKind::NOT_INITIALISED)),
        (
            Request::Scope {
                parent: outer,
                count: 0,
            },
            gives(Value::Scope(inner)),
        ),
        (init(inner, 1, 0, one), gives(Value::Undefined)),
        (load(outer, 0, 0), gives(one)),
        (store(inner, 1, 0, Value::Null), gives(Value::Undefined)),
        (load(outer, 0, 0), gives(Value::Null)),
        (
            Request::Fork { scope: outer },
            gives(Value::Scope(ScopeId(2))),
        ),
        (load(ScopeId(2), 0, 0), gives(Value::Null)),
        (Request::Fork { scope: outer }, stops(Which::Cells)),
    ];
    check_all(&rt, rt.alloc(), &mut run, &rows)
}

#[test]
fn operators_and_conversions(rt: HostRuntime) -> Result<(), Fail> {
    let alloc = rt.alloc();
    let Some(mut run) = start(alloc, 100, 100, 100, 15)? else {
        return Ok(());
    };
    let ab = Value::Text(add(alloc, &mut run.texts, b"ab")?);
    let cd = Value::Text(add(alloc, &mut run.texts, b"cd")?);
    let one = Value::Num(1);
    let two = Value::Num(2);
    let unary = |op, value| Request::Unary { op, value };
    let rows = [
        (binary(BinaryOp::Add, one, two), gives(Value::Num(3))),
        (binary(BinaryOp::Add, ab, cd), stops(Which::Text)),
        (
            binary(BinaryOp::Divide, one, two),
            Some(Given::OutOfProfile(Reason::Number)),
        ),
        (binary(BinaryOp::In, ab, cd), None),
        (unary(UnaryOp::Negate, one), gives(Value::Num(-1))),
        (
            unary(UnaryOp::ToNumber, ab),
            Some(Given::OutOfProfile(Reason::Conversion)),
        ),
        (unary(UnaryOp::TypeOf, one), None),
        (Request::ToText { value: ab }, gives(ab)),
        (Request::ToKey { value: two }, gives(two)),
        (
            Request::ToText { value: one },
            gives(Value::Text(TextId(5))),
        ),
        (Request::ToText { value: two }, stops(Which::Text)),
    ];
    check_all(&rt, rt.alloc(), &mut run, &rows)
}

#[test]
fn properties(rt: HostRuntime) -> Result<(), Fail> {
    let alloc = rt.alloc();
    let Some(mut run) = plenty(alloc)? else {
        return Ok(());
    };
    let ab = Value::Text(add(alloc, &mut run.texts, b"ab")?);
    let map = Value::Object(make(&mut run.objects, Kind::Map)?);
    let zero = Value::Num(0);
    let o = Value::Object(ObjId(6));
    let list = Value::Object(ObjId(7));
    let delete = |object, key| Request::Delete { object, key };
    let rows = [
        (Request::Object, gives(o)),
        (get(o, ab), gives(Value::Undefined)),
        (set(o, ab, zero), gives(Value::Undefined)),
        (get(o, ab), gives(zero)),
        (get(ab, LENGTH), gives(Value::Num(2))),
        (get(ab, zero), gives(Value::Text(TextId(4)))),
        (get(ab, Value::Num(2)), gives(Value::Undefined)),
        (get(map, SIZE), gives(zero)),
        (get(Value::Null, ab), throws(ErrorKind::NO_PROPERTY)),
        (
            set(Value::Undefined, ab, zero),
            throws(ErrorKind::NO_PROPERTY),
        ),
        (set(ab, LENGTH, zero), throws(ErrorKind::NOT_AN_OBJECT)),
        (Request::Array, gives(list)),
        (set(list, zero, ab), gives(Value::Undefined)),
        (
            set(list, Value::Num(2), ab),
            Some(Given::OutOfProfile(Reason::Sparse)),
        ),
        (
            set(list, ab, ab),
            Some(Given::OutOfProfile(Reason::ArrayProperty)),
        ),
        (
            set(list, LENGTH, Value::Num(-1)),
            throws(ErrorKind::OUT_OF_RANGE),
        ),
        (
            set(list, LENGTH, ab),
            Some(Given::OutOfProfile(Reason::Conversion)),
        ),
        (get(list, LENGTH), gives(Value::Num(1))),
        (
            delete(list, zero),
            Some(Given::OutOfProfile(Reason::Sparse)),
        ),
        (set(list, LENGTH, Value::Null), gives(Value::Undefined)),
        (get(list, LENGTH), gives(zero)),
        (delete(o, ab), gives(Value::Bool(true))),
        (get(o, ab), gives(Value::Undefined)),
        (delete(ab, LENGTH), throws(ErrorKind::NOT_AN_OBJECT)),
        (delete(ab, Value::Num(2)), gives(Value::Bool(true))),
        (delete(Value::Null, ab), throws(ErrorKind::NO_PROPERTY)),
        (
            Request::SuperGet {
                home: o,
                key: ab,
                this: o,
            },
            gives(Value::Undefined),
        ),
        (
            Request::SuperGet {
                home: Value::Object(ObjId(0)),
                key: ab,
                this: o,
            },
            throws(ErrorKind::NO_PROPERTY),
        ),
    ];
    check_all(&rt, rt.alloc(), &mut run, &rows)
}

#[test]
fn frozen_objects(rt: HostRuntime) -> Result<(), Fail> {
    let alloc = rt.alloc();
    let Some(mut run) = plenty(alloc)? else {
        return Ok(());
    };
    let list = make(&mut run.objects, Kind::Array)?;
    run.objects.freeze(list);
    let list = Value::Object(list);
    let rows = [
        (set(list, LENGTH, SIZE), throws(ErrorKind::FROZEN)),
        (
            Request::Delete {
                object: list,
                key: LENGTH,
            },
            throws(ErrorKind::FROZEN),
        ),
        (
            Request::Define {
                object: list,
                key: SIZE,
                value: SIZE,
            },
            throws(ErrorKind::FROZEN),
        ),
    ];
    check_all(&rt, rt.alloc(), &mut run, &rows)
}

#[test]
fn copies(rt: HostRuntime) -> Result<(), Fail> {
    let alloc = rt.alloc();
    let Some(mut run) = plenty(alloc)? else {
        return Ok(());
    };
    let ab = Value::Text(add(alloc, &mut run.texts, b"ab")?);
    let a = Value::Object(ObjId(5));
    let b = Value::Object(ObjId(6));
    let one = Value::Num(1);
    let copy = |object, from| Request::Copy { object, from };
    let rows = [
        (Request::Object, gives(a)),
        (Request::Object, gives(b)),
        (
            Request::Define {
                object: a,
                key: SIZE,
                value: one,
            },
            gives(Value::Undefined),
        ),
        (
            Request::DefineMethod {
                object: a,
                key: LENGTH,
                value: one,
            },
            gives(Value::Undefined),
        ),
        (get(a, LENGTH), gives(one)),
        (copy(b, a), gives(Value::Undefined)),
        (get(b, SIZE), gives(one)),
        (get(b, LENGTH), gives(Value::Undefined)),
        (copy(b, Value::Null), gives(Value::Undefined)),
        (copy(b, ab), gives(Value::Undefined)),
        (get(b, one), gives(Value::Text(TextId(5)))),
    ];
    check_all(&rt, rt.alloc(), &mut run, &rows)?;
    let rest = |from| Request::Rest { from };
    let g = ask_with(alloc, &mut run, rest(b), &[SIZE, Value::Num(0)], &[])?;
    let c = Value::Object(ObjId(7));
    assert_eq!(rt; g, gives(c));
    let rows = [
        (get(c, SIZE), gives(Value::Undefined)),
        (get(c, Value::Num(0)), gives(Value::Undefined)),
        (get(c, one), gives(Value::Text(TextId(5)))),
        (rest(Value::Undefined), throws(ErrorKind::NO_PROPERTY)),
        (rest(one), gives(Value::Object(ObjId(8)))),
    ];
    check_all(&rt, rt.alloc(), &mut run, &rows)
}

#[test]
fn arguments_and_lists(rt: HostRuntime) -> Result<(), Fail> {
    let alloc = rt.alloc();
    let Some(mut run) = plenty(alloc)? else {
        return Ok(());
    };
    let given = [Value::Null, Value::Bool(true), Value::Num(3)];
    let arg = |index| Request::Arg { index };
    assert_eq!(rt;
        ask_with(alloc, &mut run, arg(1), &[], &given)?,
        gives(Value::Bool(true))
    );
    assert_eq!(rt;
        ask_with(alloc, &mut run, arg(3), &[], &given)?,
        gives(Value::Undefined)
    );
    let from = Request::ArgsFrom { index: 1 };
    let list = Value::Object(ObjId(5));
    assert_eq!(rt; ask_with(alloc, &mut run, from, &[], &given)?, gives(list));
    let pair = Value::Object(ObjId(6));
    assert_eq!(rt;
        ask_with(alloc, &mut run, Request::Array, &given, &[])?,
        gives(pair)
    );
    let rows = [
        (get(list, LENGTH), gives(Value::Num(2))),
        (get(list, Value::Num(0)), gives(Value::Bool(true))),
        (get(list, Value::Num(1)), gives(Value::Num(3))),
        (get(pair, LENGTH), gives(Value::Num(3))),
        (get(pair, Value::Num(0)), gives(Value::Null)),
    ];
    check_all(&rt, rt.alloc(), &mut run, &rows)
}

// A run with room for one object, two properties and two units more.
fn tight(alloc: Global) -> Result<Option<Run>, Fail> {
    start(alloc, 6, 2, 100, 12)
}

#[test]
fn first_limit_in_their_order(rt: HostRuntime) -> Result<(), Fail> {
    let alloc = rt.alloc();
    let given = [Value::Null, Value::Null, Value::Null];
    let o = Value::Object(ObjId(5));
    let Some(mut run) = tight(alloc)? else {
        return Ok(());
    };
    let g = ask_with(alloc, &mut run, Request::Array, &given, &[])?;
    assert_eq!(rt; g, stops(Which::Properties));
    let Some(mut run) = tight(alloc)? else {
        return Ok(());
    };
    let rows = [
        (Request::Object, gives(o)),
        (set(o, SIZE, SIZE), gives(Value::Undefined)),
        (
            Request::Copy {
                object: o,
                from: LENGTH,
            },
            stops(Which::Properties),
        ),
    ];
    check_all(&rt, rt.alloc(), &mut run, &rows)?;
    let Some(mut run) = start(alloc, 6, 9, 100, 12)? else {
        return Ok(());
    };
    let rows = [
        (
            Request::Rest { from: Value::Null },
            throws(ErrorKind::NO_PROPERTY),
        ),
        (Request::Object, gives(o)),
        (Request::Object, stops(Which::Objects)),
        (
            Request::Copy {
                object: o,
                from: LENGTH,
            },
            stops(Which::Text),
        ),
    ];
    check_all(&rt, rt.alloc(), &mut run, &rows)
}
