//! What is done with a completion, whatever it is.

ghost use Rattle.std.specs.Prelude.{◌≡◌, Ok};
ghost use Rattle.actx_frame_items.specs.Endings.{ending_work, caught_work};
ghost use Rattle.actx_frame_steps.specs.Ends.{body_end_of};
ghost use Rattle.actx_frame_items.specs.Stack.{Leads};

use crate::loops::{do_turn, of_turn, while_turn};
use crate::patterns::next_element;
use actx_code::Caught;
use actx_frame_items::{
    Control, Elements, Ending, ForLoop, Item, LoopStep, Next, OfLoop, StatementStep, Step,
    WhileLoop, share,
};
use actx_value::{Request, ScopeId, Value};
use actx_want::Completion;
use std::alloc::{AllocError, Global};
use std::rc::Rc;

/// How a loop goes on after its body: another turn, or this completion.
#[derive(Clone, Copy)]
pub enum BodyEnd {
    Again,
    Over(Completion),
}

/// What the end of a body means for its own loop (LoopContinues, ECMA-262 §14.7.1.1).
#[tactic(auto, using(crate::proofs::EndingLaws::body_end_laws))]
fn body_end(c: Completion) -> BodyEnd
    ensures { result ≡ body_end_of c }
{
    match c {
        Completion::Normal(_) => BodyEnd::Again,
        Completion::Break(n) => {
            if n == 0 {
                BodyEnd::Over(Completion::Normal(Value::Undefined))
            } else {
                BodyEnd::Over(Completion::Break(n - 1))
            }
        }
        Completion::Continue(n) => {
            if n == 0 {
                BodyEnd::Again
            } else {
                BodyEnd::Over(Completion::Continue(n - 1))
            }
        }
        Completion::Return(_) | Completion::Throw(_) => BodyEnd::Over(c),
    }
}

fn under(step: LoopStep, control: Control) -> Next
    ensures { result ≡ Next.Under (Item.Value (Step.Loop step)) control }
{
    Next::Under(Item::Value(Step::Loop(step)), control)
}

fn done(c: Completion) -> Next
    ensures { result ≡ Next.Just (Control.Done c) }
{
    Next::Just(Control::Done(c))
}

/// The end of a walk is asked for, and then the completion goes on.
fn close(walk: Value, c: Completion) -> Next
    ensures { result ≡ Next.Under (Item.Ending (Ending.Closed c)) (Control.Ask (Request.Close walk)) }
{
    Next::Under(
        Item::Ending(Ending::Closed(c)),
        Control::Ask(Request::Close { walk }),
    )
}

/// What is done after the end of a walk: a throw wins over what closing answers, any other completion
/// yields to a throw of closing.
#[tactic(auto, using(crate::proofs::EndingLaws::closed_laws))]
fn closed(before: Completion, c: Completion) -> Next
    ensures leads { Leads (Ok result) (ending_work (Ending.Closed before) c) }
{
    match before {
        Completion::Throw(v) => done(Completion::Throw(v)),
        _ => match c {
            Completion::Normal(_) => done(before),
            _ => done(c),
        },
    }
}

/// What a catch clause does with a completion.
#[tactic(auto, using(crate::proofs::EndingLaws::catch_laws))]
fn caught(clause: &Caught, p: ScopeId, v: Value) -> Result<Next, AllocError>
    ensures leads { Leads result (caught_work clause.now p v) }
{
    match clause {
        Caught::Unbound(block) => Ok(Next::Just(Control::Eval(share(block)?, p))),
        Caught::Bound {
            cells,
            target,
            block,
        } => {
            let request = Request::Scope {
                parent: p,
                count: *cells,
            };
            let target = share(target)?;
            let block = share(block)?;
            Ok(Next::Under(
                Item::Value(Step::Statement(StatementStep::CatchEntered(target, block, v, p))),
                Control::Ask(request),
            ))
        }
    }
}

/// What is done after the body of a `while`.
#[tactic(auto, using(crate::proofs::EndingLaws::ending_laws))]
fn while_ended(held: WhileLoop, c: Completion) -> Next
    ensures leads { Leads (Ok result) (ending_work (Ending.While held) c) }
{
    match body_end(c) {
        BodyEnd::Again => while_turn(held),
        BodyEnd::Over(c) => done(c),
    }
}

/// What is done after the body of a `do`: the test is due.
#[tactic(auto, using(crate::proofs::EndingLaws::ending_laws))]
fn do_ended(held: WhileLoop, c: Completion) -> Result<Next, AllocError>
    ensures leads { Leads result (ending_work (Ending.Do held) c) }
{
    match body_end(c) {
        BodyEnd::Again => {
            let test = share(&held.test)?;
            let p = held.place;
            Ok(under(LoopStep::Repeating(held), Control::Eval(test, p)))
        }
        BodyEnd::Over(c) => Ok(done(c)),
    }
}

/// What is done after the body of a `for`: the update is due.
#[tactic(auto, using(crate::proofs::EndingLaws::ending_laws))]
fn for_ended(held: ForLoop, c: Completion) -> Result<Next, AllocError>
    ensures leads { Leads result (ending_work (Ending.For held) c) }
{
    match body_end(c) {
        BodyEnd::Again => {
            let update = share(&held.update)?;
            let p = held.place;
            Ok(under(LoopStep::ForDue(held), Control::Eval(update, p)))
        }
        BodyEnd::Over(c) => Ok(done(c)),
    }
}

/// What is done after the body of a `for` with `let`: a copy of the scope is due, and the update in it.
#[tactic(auto, using(crate::proofs::EndingLaws::ending_laws))]
fn let_ended(held: ForLoop, c: Completion) -> Next
    ensures leads { Leads (Ok result) (ending_work (Ending.Let held) c) }
{
    match body_end(c) {
        BodyEnd::Again => {
            let scope = held.place;
            under(
                LoopStep::Updating(held),
                Control::Ask(Request::Fork { scope }),
            )
        }
        BodyEnd::Over(c) => done(c),
    }
}

/// What is done after the body of a `for-of`: a walk that is left early is closed.
#[tactic(auto, using(crate::proofs::EndingLaws::ending_laws))]
fn of_ended(held: OfLoop, walk: Value, c: Completion) -> Next
    ensures leads { Leads (Ok result) (ending_work (Ending.Of held walk) c) }
{
    match body_end(c) {
        BodyEnd::Again => of_turn(held, walk),
        BodyEnd::Over(c) => close(walk, c),
    }
}

/// What is done after the target of a `for-of`: the body is due in the scope of the turn.
#[tactic(auto, using(crate::proofs::EndingLaws::ending_laws))]
fn target_ended(held: OfLoop, p: ScopeId, walk: Value, c: Completion) -> Result<Next, AllocError>
    ensures leads { Leads result (ending_work (Ending.OfTarget held p walk) c) }
{
    match c {
        Completion::Normal(_) => {
            let body = share(&held.body)?;
            Ok(Next::Under(Item::Ending(Ending::Of(held, walk)), Control::Eval(body, p)))
        }
        _ => Ok(close(walk, c)),
    }
}

/// What is done after an element of an array pattern.
#[tactic(auto, using(crate::proofs::EndingLaws::ending_laws))]
fn element_ended(alloc: Global, held: Elements, walk: Value, c: Completion) -> Next
    ensures leads { Leads (Ok result) (ending_work (Ending.OrClose held walk) c) }
{
    match c {
        Completion::Normal(_) => next_element(alloc, held, walk),
        _ => close(walk, c),
    }
}

/// What is done after a block with a catch clause: a throw alone is caught.
#[tactic(auto, using(crate::proofs::EndingLaws::ending_laws))]
fn block_ended(clause: Rc<Caught>, p: ScopeId, c: Completion) -> Result<Next, AllocError>
    ensures leads { Leads result (ending_work (Ending.Catching clause p) c) }
{
    match c {
        Completion::Throw(v) => caught(&clause, p, v),
        _ => Ok(done(c)),
    }
}

/// What an item does with a completion.
#[tactic(auto, using(crate::proofs::EndingLaws::ending_laws))]
pub fn resume_ending(alloc: Global, held: Ending, c: Completion) -> Result<Next, AllocError>
    ensures leads { Leads result (ending_work held c) }
{
    match held {
        Ending::While(held) => Ok(while_ended(held, c)),
        Ending::Do(held) => do_ended(held, c),
        Ending::For(held) => for_ended(held, c),
        Ending::Let(held) => Ok(let_ended(held, c)),
        Ending::Of(held, walk) => Ok(of_ended(held, walk, c)),
        Ending::OfTarget(held, p, walk) => target_ended(held, p, walk, c),
        Ending::OrClose(held, walk) => Ok(element_ended(alloc, held, walk, c)),
        Ending::Closed(before) => Ok(closed(before, c)),
        Ending::Catching(clause, p) => block_ended(clause, p, c),
        Ending::Finishing(block, p) => Ok(Next::Under(
            Item::Value(Step::Statement(StatementStep::Settling(c))),
            Control::Eval(block, p),
        )),
    }
}
