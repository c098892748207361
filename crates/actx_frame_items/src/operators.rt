//! Operators and templates.

ghost use Rattle.std.specs.Prelude.{◌≡◌, map, drop, Ok};
ghost use Rattle.actx_want.specs.Operators.{chained, decided};
ghost use Rattle.actx_want.specs.Bodies.{eval_operand, eval_piece};
ghost use Rattle.actx_frame_items.specs.Work.{forms};
ghost use Rattle.actx_frame_items.specs.Operators.{operator_work};
ghost use Rattle.actx_frame_items.specs.Stack.{Leads};

use crate::items::{Control, Item, Next, OperatorStep, Step};
use crate::names::is_due;
use crate::shared::share;
use actx_code::{Form, Logic, Operand, Piece};
use actx_value::{BinaryOp, Request, ScopeId, Value, is_true};
use actx_want::Completion;
use std::alloc::AllocError;
use std::rc::Rc;

fn item(step: OperatorStep) -> Item
    ensures { result ≡ Item.Value (Step.Operator step) }
{
    Item::Value(Step::Operator(step))
}

fn given(v: Value) -> Next
    ensures { result ≡ Next.Just (Control.Done (Completion.Normal v)) }
{
    Next::Just(Control::Done(Completion::Normal(v)))
}

/// The text of two texts is asked for.
fn joined(left: Value, right: Value) -> Control
    ensures { result ≡ Control.Ask (Request.Binary BinaryOp.Add left right) }
{
    Control::Ask(Request::Binary {
        op: BinaryOp::Add,
        left,
        right,
    })
}

/// Goes on with a chain of operators, by its value so far.
#[tactic(auto, using(crate::proofs::OperatorLaws::chain_laws))]
pub fn next_operand(
    operands: Rc<Vec<Operand>>,
    at: usize,
    p: ScopeId,
    v: Value,
) -> Result<Next, AllocError>
    ensures leads { Leads result (chained (map eval_operand (drop at operands.value.items)) p v) }
{
    if at >= operands.len() {
        return Ok(given(v));
    }
    let op = operands[at].op;
    let right = share(&operands[at].right)?;
    Ok(Next::UnderTwo(
        item(OperatorStep::Chaining(operands, at + 1, p)),
        item(OperatorStep::Applying(op, v)),
        Control::Eval(right, p),
    ))
}

/// Goes on with a chain of `&&`, `||` or `??`, by its value so far.
#[tactic(auto, using(crate::proofs::OperatorLaws::logic_laws))]
pub fn next_logical(
    op: Logic,
    operands: Rc<Vec<Rc<Form>>>,
    at: usize,
    p: ScopeId,
    v: Value,
) -> Result<Next, AllocError>
    ensures leads { Leads result (decided op (forms (drop at operands.value.items)) p v) }
{
    if at >= operands.len() || !is_due(op, v) {
        return Ok(given(v));
    }
    let operand = share(&operands[at])?;
    Ok(Next::Under(
        item(OperatorStep::DecidingOn(op, operands, at + 1, p)),
        Control::Eval(operand, p),
    ))
}

/// Goes on with a template, by its text so far.
#[tactic(auto, using(crate::proofs::OperatorLaws::piece_laws))]
pub fn next_piece(
    pieces: Rc<Vec<Piece>>,
    at: usize,
    p: ScopeId,
    v: Value,
) -> Result<Next, AllocError>
    ensures leads { Leads result (chained (map eval_piece (drop at pieces.value.items)) p v) }
{
    if at >= pieces.len() {
        return Ok(given(v));
    }
    let after = pieces[at].after;
    let value = share(&pieces[at].value)?;
    Ok(Next::UnderTwo(
        item(OperatorStep::Templating(pieces, at + 1, p)),
        item(OperatorStep::MakingText(after, v)),
        Control::Eval(value, p),
    ))
}

/// What a step does with a value.
#[tactic(auto, using(crate::proofs::OperatorLaws::operator_laws))]
pub fn resume_operator(held: OperatorStep, v: Value) -> Result<Next, AllocError>
    ensures leads { Leads result (operator_work held v) }
{
    match held {
        OperatorStep::AppliedTo(op) => {
            Ok(Next::Just(Control::Ask(Request::Unary { op, value: v })))
        }
        OperatorStep::Negating => Ok(given(Value::Bool(!is_true(v)))),
        OperatorStep::Dropping => Ok(given(Value::Undefined)),
        OperatorStep::Applying(op, left) => Ok(Next::Just(Control::Ask(Request::Binary {
            op,
            left,
            right: v,
        }))),
        OperatorStep::Chaining(operands, at, p) => next_operand(operands, at, p, v),
        OperatorStep::DecidingOn(op, operands, at, p) => next_logical(op, operands, at, p, v),
        OperatorStep::Templating(pieces, at, p) => next_piece(pieces, at, p, v),
        OperatorStep::MakingText(after, text) => Ok(Next::Under(
            item(OperatorStep::JoiningText(after, text)),
            Control::Ask(Request::ToText { value: v }),
        )),
        OperatorStep::JoiningText(after, text) => {
            Ok(Next::Under(item(OperatorStep::Joining(after)), joined(text, v)))
        }
        OperatorStep::Joining(None) => Ok(given(v)),
        OperatorStep::Joining(Some(after)) => Ok(Next::Just(joined(v, after))),
    }
}
