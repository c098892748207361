//! Names, and changes of names and members.

ghost use Rattle.std.specs.Prelude.{◌≡◌, Ok};
ghost use Rattle.actx_want.specs.Bodies.{eval_change};
ghost use Rattle.actx_want.specs.Names.{is_due as is_due_of, step_operator as step_operator_of, one as one_of};
ghost use Rattle.actx_frame_items.specs.Names.{access, read_of, write_of, name_work};
ghost use Rattle.actx_frame_items.specs.Stack.{Leads};

use crate::items::{Control, Item, NameStep, Next, Spot, Step};
use crate::shared::is_nullish;
use actx_code::{Change, Logic};
use actx_tree::StepOp;
use actx_value::{BinaryOp, Request, ScopeId, UnaryOp, Value, is_true};
use actx_want::Completion;

/// Where the right operand is due.
pub fn is_due(op: Logic, v: Value) -> bool
    ensures { result ≡ is_due_of op v }
{
    match op {
        Logic::And => is_true(v),
        Logic::Or => !is_true(v),
        Logic::Coalesce => is_nullish(v),
    }
}

fn read(a: Spot) -> Request
    ensures { result ≡ read_of a }
{
    match a {
        Spot::Name { scope, hops, slot } => Request::Load { scope, hops, slot },
        Spot::Member { object, key } => Request::Get { object, key },
    }
}

fn write(a: Spot, value: Value) -> Request
    ensures { result ≡ write_of a value }
{
    match a {
        Spot::Name { scope, hops, slot } => Request::Store {
            scope,
            hops,
            slot,
            value,
        },
        Spot::Member { object, key } => Request::Set { object, key, value },
    }
}

fn step_operator(op: StepOp) -> BinaryOp
    ensures { result ≡ step_operator_of op }
{
    match op {
        StepOp::Increment => BinaryOp::Add,
        StepOp::Decrement => BinaryOp::Subtract,
    }
}

/// The request that steps a number.
fn step(op: StepOp, n: Value) -> Request
    ensures { result ≡ Request.Binary (step_operator_of op) n one_of }
{
    Request::Binary {
        op: step_operator(op),
        left: n,
        right: Value::Num(1),
    }
}

/// The number of a value is asked for.
fn number(value: Value) -> Control
    ensures { result ≡ Control.Ask (Request.Unary UnaryOp.ToNumber value) }
{
    Control::Ask(Request::Unary {
        op: UnaryOp::ToNumber,
        value,
    })
}

fn under(step: NameStep, control: Control) -> Next
    ensures { result ≡ Next.Under (Item.Value (Step.Name step)) control }
{
    Next::Under(Item::Value(Step::Name(step)), control)
}

/// What a step does with a value.
#[tactic(auto, using(crate::proofs::NameLaws::name_laws))]
pub fn resume_name(held: NameStep, v: Value) -> Next
    ensures leads { Leads (Ok result) (name_work held v) }
{
    match held {
        NameStep::Storing(a) => under(NameStep::Keeping(v), Control::Ask(write(a, v))),
        NameStep::Keeping(w) => Next::Just(Control::Done(Completion::Normal(w))),
        NameStep::Combining(a, op, left) => under(
            NameStep::Storing(a),
            Control::Ask(Request::Binary { op, left, right: v }),
        ),
        NameStep::RightOf(a, op, e, p) => {
            under(NameStep::Combining(a, op, v), Control::Eval(e, p))
        }
        NameStep::Deciding(a, op, e, p) => {
            if is_due(op, v) {
                under(NameStep::Storing(a), Control::Eval(e, p))
            } else {
                Next::Just(Control::Done(Completion::Normal(v)))
            }
        }
        NameStep::StoringAfter(a, old) => under(NameStep::Keeping(old), Control::Ask(write(a, v))),
        NameStep::SteppedBefore(a, op) => under(NameStep::Storing(a), Control::Ask(step(op, v))),
        NameStep::SteppedAfter(a, op) => {
            under(NameStep::StoringAfter(a, v), Control::Ask(step(op, v)))
        }
        NameStep::NumberingBefore(a, op) => under(NameStep::SteppedBefore(a, op), number(v)),
        NameStep::NumberingAfter(a, op) => under(NameStep::SteppedAfter(a, op), number(v)),
    }
}

/// Begins a change.
#[tactic(auto, using(crate::proofs::NameLaws::change_laws))]
pub fn change(a: Spot, change: Change, p: ScopeId) -> Next
    ensures leads { Leads (Ok result) (eval_change change (access a) p) }
{
    match change {
        Change::Plainly(e) => under(NameStep::Storing(a), Control::Eval(e, p)),
        Change::WithOperator(op, e) => {
            under(NameStep::RightOf(a, op, e, p), Control::Ask(read(a)))
        }
        Change::WithLogic(op, e) => under(NameStep::Deciding(a, op, e, p), Control::Ask(read(a))),
        Change::StepBefore(op) => under(NameStep::NumberingBefore(a, op), Control::Ask(read(a))),
        Change::StepAfter(op) => under(NameStep::NumberingAfter(a, op), Control::Ask(read(a))),
    }
}
