//! The work between two requests.

ghost use Rattle.std.specs.Prelude.{◌≡◌, [], Ok};
ghost use Rattle.actx_want.specs.Run.{completion as completion_of};
ghost use Rattle.actx_want.specs.Bodies.{eval};
ghost use Rattle.actx_frame_items.specs.Stack.{step_work, kept, control_work, next_work, Leads, Reaches};
ghost use Rattle.actx_frame.specs.Machine.{Works, Settles, completed, ended_of};

use crate::enter::enter;
use actx_code::Form;
use actx_frame_items::{
    Control, Item, Next, Step, begin_key, resume_entry, resume_list, resume_member, resume_name,
    resume_operator,
};
use actx_frame_steps::{
    bind, bind_element, resume_class, resume_ending, resume_loop, resume_of, resume_pattern,
    resume_statement,
};
use actx_value::{Answer, Request, ScopeId, Value};
use actx_want::Completion;
use std::alloc::{AllocError, Global};

/// What a body wants: a request, or how it ended.
#[derive(Clone, Copy, Debug, PartialEq, Eq)]
pub enum Want {
    Ask(Request),
    Return(Value),
    Throw(Value),
}

/// What is done with a value.
#[tactic(auto, using(crate::proofs::MachineLaws::step_laws))]
fn resume_step(alloc: Global, step: Step, v: Value) -> Result<Next, AllocError>
    ensures leads { Leads result (step_work step v) }
{
    match step {
        Step::Name(step) => Ok(resume_name(step, v)),
        Step::Operator(step) => resume_operator(step, v),
        Step::Member(step) => resume_member(alloc, step, v),
        Step::List(step) => resume_list(alloc, step, v),
        Step::Entry(step) => resume_entry(step, v),
        Step::Pattern(step) => resume_pattern(alloc, step, v),
        Step::Statement(step) => resume_statement(step, v),
        Step::Class(step) => Ok(resume_class(step, v)),
        Step::Loop(step) => resume_loop(step, v),
        Step::Of(step) => resume_of(step, v),
    }
}

/// What an item does with a completion.
#[tactic(auto, using(crate::proofs::MachineLaws::item_laws))]
fn resume(alloc: Global, item: Item, c: Completion) -> Result<Next, AllocError>
    ensures leads { Leads result (completed item c) }
{
    match item {
        Item::Value(step) => match c {
            Completion::Normal(v) => resume_step(alloc, step, v),
            _ => Ok(Next::Just(Control::Done(c))),
        },
        Item::Ending(ending) => resume_ending(alloc, ending, c),
    }
}

/// Puts the items onto the stack.
#[tactic(auto, using(crate::proofs::MachineLaws::put_laws))]
fn put(stack: &mut Vec<Item>, next: Next) -> Result<Control, AllocError>
    ensures leads { Reaches result (kept stack.new.items) (next_work next (kept stack.old.items)) }
{
    match next {
        Next::Just(control) => Ok(control),
        Next::Under(item, control) => {
            stack.push(item)?;
            Ok(control)
        }
        Next::UnderTwo(low, high, control) => {
            stack.push(low)?;
            stack.push(high)?;
            Ok(control)
        }
    }
}

/// What is wanted, and its list.
#[derive(Drop)]
pub struct Wanted {
    pub want: Want,
    pub list: Vec<Value>,
}

/// What a piece of work leads to: further work, or what is wanted.
#[derive(Drop)]
pub enum Piece {
    On(Control),
    Out(Wanted),
}

/// What is wanted where nothing is left to do with a completion.
fn ended(c: Completion) -> Want
    ensures { result ≡ ended_of c }
{
    match c {
        Completion::Normal(_) | Completion::Break(_) | Completion::Continue(_) => {
            Want::Return(Value::Undefined)
        }
        Completion::Return(v) => Want::Return(v),
        Completion::Throw(v) => Want::Throw(v),
    }
}

/// Goes on with the items on the stack.
#[tactic(auto, using(crate::proofs::MachineLaws::on_laws))]
fn on(stack: &mut Vec<Item>, next: Next) -> Result<Piece, AllocError>
    ensures leads { Works result stack.new.items (next_work next (kept stack.old.items)) }
{
    Ok(Piece::On(put(stack, next)?))
}

/// Goes on with a completion.
#[tactic(auto, using(crate::proofs::MachineLaws::done_laws))]
fn complete(alloc: Global, stack: &mut Vec<Item>, c: Completion) -> Result<Piece, AllocError>
    ensures leads { Works result stack.new.items (kept stack.old.items c) }
{
    match stack.pop() {
        None => Ok(Piece::Out(Wanted {
            want: ended(c),
            list: Vec::new(alloc),
        })),
        Some(item) => {
            let next = resume(alloc, item, c)?;
            on(stack, next)
        }
    }
}

/// One piece of work.
#[tactic(auto, using(crate::proofs::MachineLaws::work_laws))]
fn work(alloc: Global, stack: &mut Vec<Item>, control: Control) -> Result<Piece, AllocError>
    ensures leads { Works result stack.new.items (control_work control (kept stack.old.items)) }
{
    match control {
        Control::Ask(request) => Ok(Piece::Out(Wanted {
            want: Want::Ask(request),
            list: Vec::new(alloc),
        })),
        Control::AskWith(request, list) => Ok(Piece::Out(Wanted {
            want: Want::Ask(request),
            list,
        })),
        Control::Done(c) => complete(alloc, stack, c),
        Control::Eval(e, p) => {
            let next = enter(alloc, &e, p)?;
            on(stack, next)
        }
        Control::UseKey(key, p, held) => on(stack, begin_key(key, p, held)),
        Control::Bind(pattern, p, v) => {
            let next = bind(alloc, &pattern, p, v)?;
            on(stack, next)
        }
        Control::BindElement(element, p, v) => on(stack, bind_element(element, p, v)),
    }
}

/// Works until something is asked for, or the body has ended. It gives up after 2^64 - 1 pieces of work
/// without a request, which no computer comes to: between two requests there are no more of them than
/// parts of the body.
#[tactic(auto, using(crate::proofs::MachineLaws::run_laws))]
pub fn run(alloc: Global, stack: &mut Vec<Item>, control: Control) -> Result<Wanted, AllocError>
    ensures leads { Settles result stack.new.items (control_work control (kept stack.old.items)) }
{
    let mut control = control;
    for _piece in 0..u64::MAX {
        match work(alloc, stack, control)? {
            Piece::On(next) => control = next,
            Piece::Out(wanted) => return Ok(wanted),
        }
    }
    Err(AllocError)
}

/// An answer as the completion of its request.
pub fn completion(a: Answer) -> Completion
    ensures { result ≡ completion_of a }
{
    match a {
        Answer::Go(v) => Completion::Normal(v),
        Answer::Raise(v) => Completion::Throw(v),
        Answer::Finish(v) => Completion::Return(v),
    }
}

/// Begins a form on an empty stack.
#[tactic(auto, using(crate::proofs::MachineLaws::begin_laws))]
pub fn begin(
    alloc: Global,
    stack: &mut Vec<Item>,
    form: &Form,
    p: ScopeId,
) -> Result<Wanted, AllocError>
    ensures leads { Settles result stack.new.items (eval form.now p (kept stack.old.items)) }
{
    let next = enter(alloc, form, p)?;
    let control = put(stack, next)?;
    run(alloc, stack, control)
}
