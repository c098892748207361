//! Bodies that are answered step by step.

use super::*;
use actx_code::{
    Argument, Body, BodyKind, Change, ClassMember, Code, Element, Entry, Form, Key, Pattern, Piece,
    Suffix,
};
use actx_text::BodyId;
use actx_tree::Flow;
use actx_value::{Answer, BinaryOp, ObjId, Request, ScopeId, TextId, Value};
use std::alloc::{AllocError, Global};
use std::rc::Rc;
use std::test::Fail;

const SCOPE: ScopeId = ScopeId(7);

/// A frame of a code that has this form alone.
fn begun(alloc: Global, flow: Flow, form: Form) -> Result<(Code, Frame), AllocError> {
    let body = Body {
        kind: BodyKind::Function,
        flow,
        name: 0,
        hidden: true,
        cells: 3,
        form,
    };
    let bodies = vec![in alloc; body]?;
    let code = Code::new(bodies, Vec::new(alloc), Vec::new(alloc));
    let frame = Frame::start(alloc, &code, BodyId(0), SCOPE)?;
    Ok((code, frame))
}

/// `function* g() { try { yield 1; } finally { h(); } }`
fn guarded(alloc: Global) -> Result<Form, AllocError> {
    let one = Rc::new(alloc, Form::Literal(Value::Num(1)))?;
    let block = Rc::new(alloc, Form::Yield(one))?;
    let h = Rc::new(alloc, Form::Name { hops: 1, slot: 0 })?;
    let call = Suffix::Call(false, Rc::new(alloc, Vec::new(alloc))?);
    let suffixes = Rc::new(alloc, vec![in alloc; call]?)?;
    let last = Rc::new(alloc, Form::Suffixes { base: h, suffixes })?;
    let begin = Rc::new(alloc, Form::Begin)?;
    let guarded = Form::Try {
        block,
        catch: None,
        finally: Some(last),
    };
    let guarded = Rc::new(alloc, guarded)?;
    Ok(Form::Sequence(Rc::new(alloc, vec![in alloc; begin, guarded]?)?))
}

#[test]
fn finally_runs_where_a_generator_is_finished(rt: HostRuntime) -> Result<(), Fail> {
    let alloc = rt.alloc();
    for raised in [false, true] {
        let (code, frame) = begun(alloc, Flow::Generator, guarded(alloc)?)?;
        let mut frame = frame;
        let f = Value::Object(ObjId(4));
        let end = if raised {
            Answer::Raise(Value::Num(9))
        } else {
            Answer::Finish(Value::Num(8))
        };
        assert_eq!(rt; frame.want(), Want::Ask(Request::Begin));
        let go = Answer::Go(Value::Undefined);
        let yields = Want::Ask(Request::Yield {
            value: Value::Num(1),
        });
        assert_eq!(rt; frame.next(&code, go)?, yields);
        let loads = Want::Ask(Request::Load {
            scope: SCOPE,
            hops: 1,
            slot: 0,
        });
        assert_eq!(rt; frame.next(&code, end)?, loads);
        let calls = Want::Ask(Request::Call {
            callee: f,
            this: Value::Undefined,
        });
        assert_eq!(rt; frame.next(&code, Answer::Go(f))?, calls);
        assert_eq!(rt; frame.args().len(), 0);
        let ends = if raised {
            Want::Throw(Value::Num(9))
        } else {
            Want::Return(Value::Num(8))
        };
        assert_eq!(rt; frame.next(&code, go)?, ends);
        assert_eq!(rt; frame.next(&code, go)?, ends);
    }
    Ok(())
}

#[test]
fn an_endless_loop_asks_tick_a_million_times(rt: HostRuntime) -> Result<(), Fail> {
    let alloc = rt.alloc();
    let test = Rc::new(alloc, Form::Literal(Value::Bool(true)))?;
    let body = Rc::new(alloc, Form::Sequence(Rc::new(alloc, Vec::new(alloc))?))?;
    let (code, frame) = begun(alloc, Flow::Plain, Form::While { test, body })?;
    let mut frame = frame;
    assert_eq!(rt; frame.want(), Want::Ask(Request::Tick));
    let mut other = 0_u32;
    for _turn in 0..1_000_000 {
        let want = frame.next(&code, Answer::Go(Value::Undefined))?;
        if want != Want::Ask(Request::Tick) {
            other = 1;
        }
    }
    assert_eq!(rt; other, 0);
    Ok(())
}

#[test]
fn a_spread_makes_the_list_of_a_call(rt: HostRuntime) -> Result<(), Fail> {
    let alloc = rt.alloc();
    let items = Rc::new(alloc, Form::Name { hops: 0, slot: 1 })?;
    let last = Rc::new(alloc, Form::Literal(Value::Num(9)))?;
    let members = vec![in alloc; Argument::Spread(items), Argument::One(last)]?;
    let base = Rc::new(alloc, Form::Name { hops: 0, slot: 0 })?;
    let call = Suffix::Call(false, Rc::new(alloc, members)?);
    let suffixes = Rc::new(alloc, vec![in alloc; call]?)?;
    let (code, frame) = begun(alloc, Flow::Plain, Form::Suffixes { base, suffixes })?;
    let mut frame = frame;
    let f = Value::Object(ObjId(1));
    let walk = Value::Object(ObjId(3));
    let answers = [
        f,
        Value::Object(ObjId(2)),
        walk,
        Value::Undefined,
        Value::Num(5),
        Value::Undefined,
    ];
    for v in answers {
        frame.next(&code, Answer::Go(v))?;
    }
    assert_eq!(rt; frame.want(), Want::Ask(Request::Next { walk }));
    let calls = Want::Ask(Request::Call {
        callee: f,
        this: Value::Undefined,
    });
    assert_eq!(rt; frame.next(&code, Answer::Go(Value::Mark))?, calls);
    assert_eq!(rt; frame.args(), [Value::Num(5), Value::Num(9)].as_slice());
    Ok(())
}

// ---- forms, and all that they want under a list of answers (docs/EVALUATION.md)

const BODY: BodyId = BodyId(5);

/// What a body of this form wants, and what it wants after each of these values.
fn wants(alloc: Global, form: Form, values: &[Value]) -> Result<Vec<Want>, AllocError> {
    let (code, frame) = begun(alloc, Flow::Plain, form)?;
    let mut frame = frame;
    let mut wants = Vec::new(alloc);
    wants.push(frame.want())?;
    for v in values {
        wants.push(frame.next(&code, Answer::Go(*v))?)?;
    }
    Ok(wants)
}

/// The name in this slot.
fn name(alloc: Global, slot: u32) -> Result<Rc<Form>, AllocError> {
    Ok(Rc::new(alloc, Form::Name { hops: 0, slot })?)
}

fn load(slot: u32) -> Want {
    Want::Ask(Request::Load {
        scope: SCOPE,
        hops: 0,
        slot,
    })
}

fn object(n: u32) -> Value {
    Value::Object(ObjId(n))
}

fn text(n: u32) -> Value {
    Value::Text(TextId(n))
}

const OVER: Want = Want::Return(Value::Undefined);

/// `a[k] = e`
fn update(alloc: Global) -> Result<Form, AllocError> {
    let object = name(alloc, 0)?;
    let key = Key::Computed(name(alloc, 1)?);
    let change = Change::Plainly(name(alloc, 2)?);
    Ok(Form::ChangeMember {
        object,
        key,
        change,
    })
}

#[test]
fn an_assignment_asks_its_key_first(rt: HostRuntime) -> Result<(), Fail> {
    let alloc = rt.alloc();
    let values = [
        object(1),
        Value::Num(5),
        text(6),
        Value::Num(7),
        Value::Num(7),
    ];
    let expected = [
        load(0),
        load(1),
        Want::Ask(Request::ToKey {
            value: Value::Num(5),
        }),
        load(2),
        Want::Ask(Request::Set {
            object: object(1),
            key: text(6),
            value: Value::Num(7),
        }),
        OVER,
    ];
    assert_eq!(rt;
        wants(alloc, update(alloc)?, &values)?.as_slice(),
        expected.as_slice()
    );
    Ok(())
}

/// `let [x = d, y] = v;`
fn array_pattern(alloc: Global) -> Result<Form, AllocError> {
    let first = Element {
        target: Rc::new(alloc, Pattern::Slot(0))?,
        default: Some(name(alloc, 5)?),
    };
    let second = Element {
        target: Rc::new(alloc, Pattern::Slot(1))?,
        default: None,
    };
    let elements = Rc::new(alloc, vec![in alloc; first, second]?)?;
    let pattern = Rc::new(alloc, Pattern::Elements(elements, None))?;
    let value = name(alloc, 3)?;
    Ok(Form::Bind { pattern, value })
}

fn init(slot: u32, value: Value) -> Want {
    Want::Ask(Request::Init {
        scope: SCOPE,
        hops: 0,
        slot,
        value,
    })
}

#[test]
fn an_array_pattern_asks_for_each_item_and_closes(rt: HostRuntime) -> Result<(), Fail> {
    let alloc = rt.alloc();
    let walk = object(4);
    let none = Value::Undefined;
    let values = [
        object(9),
        walk,
        none,
        Value::Num(6),
        none,
        Value::Null,
        none,
        none,
    ];
    let expected = [
        load(3),
        Want::Ask(Request::Open { value: object(9) }),
        Want::Ask(Request::Next { walk }),
        load(5),
        init(0, Value::Num(6)),
        Want::Ask(Request::Next { walk }),
        init(1, Value::Null),
        Want::Ask(Request::Close { walk }),
        OVER,
    ];
    assert_eq!(rt;
        wants(alloc, array_pattern(alloc)?, &values)?.as_slice(),
        expected.as_slice()
    );
    Ok(())
}

/// `for (const x of v) break;`
fn walk_once(alloc: Global) -> Result<Form, AllocError> {
    let target = Rc::new(alloc, Pattern::Slot(0))?;
    let value = name(alloc, 2)?;
    let body = Rc::new(alloc, Form::Break(0))?;
    Ok(Form::ForOf {
        cells: 1,
        target,
        value,
        body,
    })
}

#[test]
fn a_walk_that_is_left_is_closed(rt: HostRuntime) -> Result<(), Fail> {
    let alloc = rt.alloc();
    let walk = object(4);
    let scope = ScopeId(8);
    let none = Value::Undefined;
    let values = [
        object(9),
        walk,
        none,
        Value::Num(6),
        Value::Scope(scope),
        none,
        none,
    ];
    let expected = [
        load(2),
        Want::Ask(Request::Open { value: object(9) }),
        Want::Ask(Request::Tick),
        Want::Ask(Request::Next { walk }),
        Want::Ask(Request::Scope {
            parent: SCOPE,
            count: 1,
        }),
        Want::Ask(Request::Init {
            scope,
            hops: 0,
            slot: 0,
            value: Value::Num(6),
        }),
        Want::Ask(Request::Close { walk }),
        OVER,
    ];
    assert_eq!(rt;
        wants(alloc, walk_once(alloc)?, &values)?.as_slice(),
        expected.as_slice()
    );
    Ok(())
}

/// `class extends P { m() {} }`
fn subclass(alloc: Global) -> Result<Form, AllocError> {
    let parent = Some(name(alloc, 0)?);
    let method = ClassMember {
        is_static: false,
        key: text(7),
        body: BodyId(6),
    };
    let members = Rc::new(alloc, vec![in alloc; method]?)?;
    Ok(Form::Class {
        constructor: BODY,
        parent,
        prototype: text(3),
        members,
    })
}

#[test]
fn a_class_asks_for_its_parent_first(rt: HostRuntime) -> Result<(), Fail> {
    let alloc = rt.alloc();
    let values = [object(1), object(2), object(3), object(4), Value::Undefined];
    let expected = [
        load(0),
        Want::Ask(Request::Class {
            body: BODY,
            scope: SCOPE,
            parent: Some(object(1)),
        }),
        Want::Ask(Request::Get {
            object: object(2),
            key: text(3),
        }),
        Want::Ask(Request::Method {
            body: BodyId(6),
            scope: SCOPE,
            home: object(3),
        }),
        Want::Ask(Request::DefineMethod {
            object: object(3),
            key: text(7),
            value: object(4),
        }),
        OVER,
    ];
    assert_eq!(rt;
        wants(alloc, subclass(alloc)?, &values)?.as_slice(),
        expected.as_slice()
    );
    Ok(())
}

/// `` ({ k: `a${v}b`, ...c }) ``
fn literal_object(alloc: Global) -> Result<Form, AllocError> {
    let piece = Piece {
        value: name(alloc, 0)?,
        after: Some(text(2)),
    };
    let pieces = Rc::new(alloc, vec![in alloc; piece]?)?;
    let first = text(1);
    let template = Rc::new(alloc, Form::Template { first, pieces })?;
    let pair = Entry::Pair(Key::Plain(text(9)), template);
    let copied = Entry::Copied(name(alloc, 1)?);
    Ok(Form::Object(Rc::new(alloc, vec![in alloc; pair, copied]?)?))
}

fn added(left: Value, right: Value) -> Want {
    Want::Ask(Request::Binary {
        op: BinaryOp::Add,
        left,
        right,
    })
}

#[test]
fn an_object_asks_for_its_entries_in_order(rt: HostRuntime) -> Result<(), Fail> {
    let alloc = rt.alloc();
    let none = Value::Undefined;
    let values = [
        object(1),
        Value::Num(5),
        text(4),
        text(5),
        text(6),
        none,
        object(2),
        none,
    ];
    let expected = [
        Want::Ask(Request::Object),
        load(0),
        Want::Ask(Request::ToText {
            value: Value::Num(5),
        }),
        added(text(1), text(4)),
        added(text(5), text(2)),
        Want::Ask(Request::Define {
            object: object(1),
            key: text(9),
            value: text(6),
        }),
        load(1),
        Want::Ask(Request::Copy {
            object: object(1),
            from: object(2),
        }),
        OVER,
    ];
    assert_eq!(rt;
        wants(alloc, literal_object(alloc)?, &values)?.as_slice(),
        expected.as_slice()
    );
    Ok(())
}
