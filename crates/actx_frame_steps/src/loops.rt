//! Loops.

ghost use Rattle.std.specs.Prelude.{◌≡◌, Ok};
ghost use Rattle.actx_frame_items.specs.Loops.{Moved, loop_work, of_work};
ghost use Rattle.actx_frame_items.specs.Stack.{Leads};

use actx_frame_items::{
    Control, Ending, ForLoop, Item, LoopStep, Next, OfLoop, OfStep, Step, WhileLoop, inside,
    is_mark, share,
};
use actx_value::{Request, Value, is_true};
use actx_want::Completion;
use std::alloc::AllocError;

fn under(step: LoopStep, control: Control) -> Next
    ensures { result ≡ Next.Under (Item.Value (Step.Loop step)) control }
{
    Next::Under(Item::Value(Step::Loop(step)), control)
}

fn over() -> Next
    ensures { result ≡ Next.Just (Control.Done (Completion.Normal Value.Undefined)) }
{
    Next::Just(Control::Done(Completion::Normal(Value::Undefined)))
}

/// The next turn of a `while`.
pub fn while_turn(held: WhileLoop) -> Next
    ensures { result ≡ Next.Under (Item.Value (Step.Loop (LoopStep.WhileTurn held))) (Control.Ask Request.Tick) }
{
    under(LoopStep::WhileTurn(held), Control::Ask(Request::Tick))
}

/// The next turn of a `do`.
pub fn do_turn(held: WhileLoop) -> Next
    ensures { result ≡ Next.Under (Item.Value (Step.Loop (LoopStep.DoTurn held))) (Control.Ask Request.Tick) }
{
    under(LoopStep::DoTurn(held), Control::Ask(Request::Tick))
}

/// The next turn of a `for`.
fn for_turn(held: ForLoop) -> Next
    ensures { result ≡ Next.Under (Item.Value (Step.Loop (LoopStep.ForTurn held))) (Control.Ask Request.Tick) }
{
    under(LoopStep::ForTurn(held), Control::Ask(Request::Tick))
}

/// The next turn of a `for` with `let`.
fn let_turn(held: ForLoop) -> Next
    ensures { result ≡ Next.Under (Item.Value (Step.Loop (LoopStep.LetTurn held))) (Control.Ask Request.Tick) }
{
    under(LoopStep::LetTurn(held), Control::Ask(Request::Tick))
}

/// The same loop in the scope that came.
fn moved(held: ForLoop, v: Value) -> ForLoop
    ensures { Moved result held v }
{
    let ForLoop {
        test,
        update,
        body,
        place,
    } = held;
    ForLoop {
        test,
        update,
        body,
        place: inside(place, v),
    }
}

/// The test of a turn of `while` is due.
#[tactic(auto, using(crate::proofs::LoopLaws::loop_laws))]
fn test_while(held: WhileLoop, v: Value) -> Result<Next, AllocError>
    ensures leads { Leads result (loop_work (LoopStep.WhileTurn held) v) }
{
    let test = share(&held.test)?;
    let p = held.place;
    Ok(under(LoopStep::WhileTested(held), Control::Eval(test, p)))
}

/// What is done with the test of a `while`.
#[tactic(auto, using(crate::proofs::LoopLaws::loop_laws))]
fn while_tested(held: WhileLoop, v: Value) -> Result<Next, AllocError>
    ensures leads { Leads result (loop_work (LoopStep.WhileTested held) v) }
{
    if !is_true(v) {
        return Ok(over());
    }
    let body = share(&held.body)?;
    let p = held.place;
    Ok(Next::Under(Item::Ending(Ending::While(held)), Control::Eval(body, p)))
}

/// The body of a turn of `do` is due.
#[tactic(auto, using(crate::proofs::LoopLaws::loop_laws))]
fn enter_do_body(held: WhileLoop, v: Value) -> Result<Next, AllocError>
    ensures leads { Leads result (loop_work (LoopStep.DoTurn held) v) }
{
    let body = share(&held.body)?;
    let p = held.place;
    Ok(Next::Under(Item::Ending(Ending::Do(held)), Control::Eval(body, p)))
}

/// The test of a turn of `for` is due.
#[tactic(auto, using(crate::proofs::LoopLaws::loop_laws))]
fn test_for(held: ForLoop, v: Value) -> Result<Next, AllocError>
    ensures leads { Leads result (loop_work (LoopStep.ForTurn held) v) }
{
    let test = share(&held.test)?;
    let p = held.place;
    Ok(under(LoopStep::ForTested(held), Control::Eval(test, p)))
}

/// What is done with the test of a `for`.
#[tactic(auto, using(crate::proofs::LoopLaws::loop_laws))]
fn for_tested(held: ForLoop, v: Value) -> Result<Next, AllocError>
    ensures leads { Leads result (loop_work (LoopStep.ForTested held) v) }
{
    if !is_true(v) {
        return Ok(over());
    }
    let body = share(&held.body)?;
    let p = held.place;
    Ok(Next::Under(Item::Ending(Ending::For(held)), Control::Eval(body, p)))
}

/// The test of a turn of a `for` with `let` is due.
#[tactic(auto, using(crate::proofs::LoopLaws::loop_laws))]
fn test_let(held: ForLoop, v: Value) -> Result<Next, AllocError>
    ensures leads { Leads result (loop_work (LoopStep.LetTurn held) v) }
{
    let test = share(&held.test)?;
    let p = held.place;
    Ok(under(LoopStep::LetTested(held), Control::Eval(test, p)))
}

/// What is done with the test of a `for` with `let`.
#[tactic(auto, using(crate::proofs::LoopLaws::loop_laws))]
fn let_tested(held: ForLoop, v: Value) -> Result<Next, AllocError>
    ensures leads { Leads result (loop_work (LoopStep.LetTested held) v) }
{
    if !is_true(v) {
        return Ok(over());
    }
    let body = share(&held.body)?;
    let p = held.place;
    Ok(Next::Under(Item::Ending(Ending::Let(held)), Control::Eval(body, p)))
}

/// The update is due, in the copy of the scope that came.
#[tactic(auto, using(crate::proofs::LoopLaws::loop_laws))]
fn update_let(held: ForLoop, v: Value) -> Result<Next, AllocError>
    ensures leads { Leads result (loop_work (LoopStep.Updating held) v) }
{
    let held = moved(held, v);
    let update = share(&held.update)?;
    let p = held.place;
    Ok(under(LoopStep::LetUpdated(held), Control::Eval(update, p)))
}

/// What a step of a loop does with a value.
#[tactic(auto, using(crate::proofs::LoopLaws::loop_laws))]
pub fn resume_loop(held: LoopStep, v: Value) -> Result<Next, AllocError>
    ensures leads { Leads result (loop_work held v) }
{
    match held {
        LoopStep::WhileTurn(l) => test_while(l, v),
        LoopStep::WhileTested(l) => while_tested(l, v),
        LoopStep::DoTurn(l) => enter_do_body(l, v),
        LoopStep::Repeating(l) => {
            if is_true(v) {
                Ok(do_turn(l))
            } else {
                Ok(over())
            }
        }
        LoopStep::ForDue(l) => Ok(for_turn(l)),
        LoopStep::ForTurn(l) => test_for(l, v),
        LoopStep::ForTested(l) => for_tested(l, v),
        LoopStep::LetEntered(first, l) => {
            let l = moved(l, v);
            let p = l.place;
            Ok(under(LoopStep::LetDeclared(l), Control::Eval(first, p)))
        }
        LoopStep::LetDeclared(l) => {
            let scope = l.place;
            Ok(under(
                LoopStep::LetStarted(l),
                Control::Ask(Request::Fork { scope }),
            ))
        }
        LoopStep::LetStarted(l) => Ok(let_turn(moved(l, v))),
        LoopStep::LetTurn(l) => test_let(l, v),
        LoopStep::LetTested(l) => let_tested(l, v),
        LoopStep::Updating(l) => update_let(l, v),
        LoopStep::LetUpdated(l) => Ok(let_turn(l)),
    }
}

fn under_of(step: OfStep, control: Control) -> Next
    ensures { result ≡ Next.Under (Item.Value (Step.Of step)) control }
{
    Next::Under(Item::Value(Step::Of(step)), control)
}

/// The next turn of a `for-of`.
pub fn of_turn(held: OfLoop, walk: Value) -> Next
    ensures { result ≡ Next.Under (Item.Value (Step.Of (OfStep.Turn held walk))) (Control.Ask Request.Tick) }
{
    under_of(OfStep::Turn(held, walk), Control::Ask(Request::Tick))
}

/// The target of a turn of `for-of` is due, in the scope that came.
#[tactic(auto, using(crate::proofs::OfLaws::of_laws))]
fn enter_item(held: OfLoop, walk: Value, item: Value, v: Value) -> Result<Next, AllocError>
    ensures leads { Leads result (of_work (OfStep.ItemEntered held walk item) v) }
{
    let target = share(&held.target)?;
    let p = inside(held.place, v);
    Ok(Next::Under(
        Item::Ending(Ending::OfTarget(held, p, walk)),
        Control::Bind(target, p, item),
    ))
}

/// What a step of a `for-of` does with a value.
#[tactic(auto, using(crate::proofs::OfLaws::of_laws))]
pub fn resume_of(held: OfStep, v: Value) -> Result<Next, AllocError>
    ensures leads { Leads result (of_work held v) }
{
    match held {
        OfStep::Opening(l) => Ok(under_of(
            OfStep::Walking(l),
            Control::Ask(Request::Open { value: v }),
        )),
        OfStep::Walking(l) => Ok(of_turn(l, v)),
        OfStep::Turn(l, walk) => Ok(under_of(
            OfStep::ItemCame(l, walk),
            Control::Ask(Request::Next { walk }),
        )),
        OfStep::ItemCame(l, walk) => {
            if is_mark(v) {
                return Ok(over());
            }
            let request = Request::Scope {
                parent: l.place,
                count: l.cells,
            };
            Ok(under_of(OfStep::ItemEntered(l, walk, v), Control::Ask(request)))
        }
        OfStep::ItemEntered(l, walk, item) => enter_item(l, walk, item, v),
    }
}
