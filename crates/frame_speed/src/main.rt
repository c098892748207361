//! Measures frames. The words `ticks N` answer N requests of `while (true) {}`, the words `adds N` N
//! requests of `while (true) { i += 1; }`, whose cell is kept here; either prints how many turns
//! began, and what the cell holds. `bench/run.py` compares their times.
#![tactic(auto)]

use actx_code::{Body, BodyKind, Change, Code, Form};
use actx_frame::{Frame, Want};
use actx_text::BodyId;
use actx_tree::Flow;
use actx_value::{Answer, BinaryOp, Request, ScopeId, Value};
use std::alloc::{AllocError, Global};
use std::env;
use std::process::ExitCode;
use std::rc::Rc;

const SCOPE: ScopeId = ScopeId(0);

// An endless loop with this body.
fn endless(alloc: Global, body: Form) -> Result<Form, AllocError> {
    let test = Rc::new(alloc, Form::Literal(Value::Bool(true)))?;
    let body = Rc::new(alloc, body)?;
    Ok(Form::While { test, body })
}

// `i += 1;`
fn one_more(alloc: Global) -> Result<Form, AllocError> {
    let one = Rc::new(alloc, Form::Literal(Value::Num(1)))?;
    Ok(Form::ChangeName {
        hops: 0,
        slot: 0,
        change: Change::WithOperator(BinaryOp::Add, one),
    })
}

// A code of this form alone.
fn code_of(alloc: Global, form: Form) -> Result<Code, AllocError> {
    let body = Body {
        kind: BodyKind::File,
        flow: Flow::Plain,
        name: 0,
        hidden: false,
        cells: 1,
        form,
    };
    let bodies = vec![in alloc; body]?;
    Ok(Code::new(bodies, Vec::new(alloc), Vec::new(alloc)))
}

// What the loop did: how many turns began, and what the cell holds.
#[derive(Clone, Copy)]
struct Done {
    turns: u64,
    cell: i64,
}

// The sum of two numbers; 0 where either is none.
fn sum(left: Value, right: Value) -> i64 {
    match (left, right) {
        (Value::Num(a), Value::Num(b)) => a.wrapping_add(b),
        _ => 0,
    }
}

// What is answered to a request.
fn answered(done: &mut Done, request: Request) -> Value {
    match request {
        Request::Tick => {
            done.turns = done.turns.wrapping_add(1);
            Value::Undefined
        }
        Request::Load { .. } => Value::Num(done.cell),
        Request::Binary { left, right, .. } => Value::Num(sum(left, right)),
        Request::Store { value, .. } => {
            done.cell = sum(value, Value::Num(0));
            Value::Undefined
        }
        _ => Value::Undefined,
    }
}

// Answers so many requests of an endless loop.
fn answer_all(alloc: Global, form: Form, count: u64) -> Result<Done, AllocError> {
    let code = code_of(alloc, form)?;
    let mut frame = Frame::start(alloc, &code, BodyId(0), SCOPE)?;
    let mut done = Done { turns: 0, cell: 0 };
    let mut want = frame.want();
    for _ in 0..count {
        if let Want::Ask(request) = want {
            want = frame.next(&code, Answer::Go(answered(&mut done, request)))?;
        }
    }
    Ok(done)
}

// What the words ask for; None where they ask for nothing, or memory runs out.
fn measured(alloc: Global, what: &str, count: u64) -> Option<Done> {
    let body = match what {
        "ticks" => Form::Sequence(Rc::new(alloc, Vec::new(alloc)).ok()?),
        "adds" => one_more(alloc).ok()?,
        _ => return None,
    };
    let form = endless(alloc, body).ok()?;
    answer_all(alloc, form, count).ok()
}

fn main(rt: HostRuntime) -> ExitCode {
    let Ok(args) = env::args(&rt) else {
        return ExitCode::from(64);
    };
    let mut words = args.skip(1);
    let (Some(what), Some(count)) = (words.next(), words.next()) else {
        return ExitCode::from(64);
    };
    let Ok(count) = count.as_str().parse::<u64>() else {
        return ExitCode::from(64);
    };
    match measured(rt.alloc(), what.as_str(), count) {
        Some(done) => match println!(rt; "{} {}", done.turns, done.cell) {
            Ok(()) => ExitCode::from(0),
            Err(_) => ExitCode::from(74),
        },
        None => ExitCode::from(75),
    }
}
