//! Patterns.

ghost use Rattle.std.specs.Prelude.{◌≡◌, IfOk, List, map, Ok};
ghost use Rattle.actx_want.specs.Patterns.{keys_of};
ghost use Rattle.actx_want.specs.Bodies.{eval_pattern, eval_element, eval_property};
ghost use Rattle.actx_frame_items.specs.Patterns.{properties_left, elements_left, elements_past, pattern_work};
ghost use Rattle.actx_frame_items.specs.Stack.{Leads};

use actx_code::{Element, Pattern, Property};
use actx_frame_items::{
    Control, Elements, Ending, Item, Next, PatternStep, Properties, Step, is_mark, is_undefined,
    share,
};
use actx_value::{Request, ScopeId, Value};
use actx_want::Completion;
use std::alloc::{AllocError, Global};
use std::rc::Rc;

fn under(step: PatternStep, control: Control) -> Next
    ensures { result ≡ Next.Under (Item.Value (Step.Pattern step)) control }
{
    Next::Under(Item::Value(Step::Pattern(step)), control)
}

fn given(v: Value) -> Next
    ensures { result ≡ Next.Just (Control.Done (Completion.Normal v)) }
{
    Next::Just(Control::Done(Completion::Normal(v)))
}

/// The first value of a cell is asked for.
fn init(slot: u32, p: ScopeId, value: Value) -> Control
    ensures { result ≡ Control.Ask (Request.Init p 0 slot value) }
{
    Control::Ask(Request::Init {
        scope: p,
        hops: 0,
        slot,
        value,
    })
}

/// A target with its default, with one more owner of what it holds.
#[tactic(auto, using(crate::proofs::PatternLaws::copy_laws))]
fn copy_element(element: &Element) -> Result<Element, AllocError>
    ensures { IfOk result (λ copy. eval_element copy ≡ eval_element element.now) }
{
    let target = share(&element.target)?;
    match &element.default {
        None => Ok(Element {
            target,
            default: None,
        }),
        Some(e) => {
            let e = share(e)?;
            Ok(Element {
                target,
                default: Some(e),
            })
        }
    }
}

/// Binds a pattern to a value.
#[tactic(auto, using(crate::proofs::PatternLaws::bind_laws))]
pub fn bind(alloc: Global, pattern: &Pattern, p: ScopeId, v: Value) -> Result<Next, AllocError>
    ensures leads { Leads result (eval_pattern pattern.now p v) }
{
    match pattern {
        Pattern::Slot(i) => Ok(Next::Just(init(*i, p, v))),
        Pattern::Properties(list, rest) => next_property(
            alloc,
            Properties {
                list: share(list)?,
                at: 0,
                rest: *rest,
                value: v,
                place: p,
            },
        ),
        Pattern::Elements(list, rest) => Ok(under(
            PatternStep::Walking(Elements {
                list: share(list)?,
                at: 0,
                rest: *rest,
                place: p,
            }),
            Control::Ask(Request::Open { value: v }),
        )),
    }
}

/// Binds a target to a value, or to its default where the value is `undefined`.
#[tactic(auto, using(crate::proofs::PatternLaws::element_laws))]
pub fn bind_element(element: Element, p: ScopeId, v: Value) -> Next
    ensures leads { Leads (Ok result) (eval_element element p v) }
{
    let Element { target, default } = element;
    match default {
        None => Next::Just(Control::Bind(target, p, v)),
        Some(e) => {
            if is_undefined(v) {
                under(PatternStep::Binding(target, p), Control::Eval(e, p))
            } else {
                Next::Just(Control::Bind(target, p, v))
            }
        }
    }
}

/// The keys of these properties, first to last.
#[tactic(auto, using(crate::proofs::PatternLaws::key_laws))]
fn keys(alloc: Global, list: &[Property]) -> Result<Vec<Value>, AllocError>
    ensures { IfOk result (λ keys. keys.items ≡ keys_of (map eval_property list.now)) }
{
    let mut keys = Vec::new(alloc);
    for property in list {
        keys.push(property.key)?;
    }
    Ok(keys)
}

/// Goes on with an object pattern.
#[tactic(auto, using(crate::proofs::PatternLaws::property_laws))]
fn next_property(alloc: Global, held: Properties) -> Result<Next, AllocError>
    ensures leads { Leads result (properties_left held) }
{
    if held.at >= held.list.len() {
        return match held.rest {
            None => Ok(given(Value::Undefined)),
            Some(i) => {
                let keys = keys(alloc, &held.list)?;
                Ok(under(
                    PatternStep::BindingSlot(i, held.place),
                    Control::AskWith(Request::Rest { from: held.value }, keys),
                ))
            }
        };
    }
    let request = Request::Get {
        object: held.value,
        key: held.list[held.at].key,
    };
    Ok(under(PatternStep::PropertyGot(held), Control::Ask(request)))
}

/// What is done with the value of a property.
#[tactic(auto, using(crate::proofs::PatternLaws::got_laws))]
fn property_came(alloc: Global, held: Properties, v: Value) -> Result<Next, AllocError>
    ensures leads { Leads result (pattern_work (PatternStep.PropertyGot held) v) }
{
    let mut held = held;
    let p = held.place;
    if held.at >= held.list.len() {
        return next_property(alloc, held);
    }
    let element = copy_element(&held.list[held.at].element)?;
    held.at += 1;
    Ok(under(
        PatternStep::PropertyBound(held),
        Control::BindElement(element, p, v),
    ))
}

/// Goes on with an array pattern, by its walk.
#[tactic(auto, using(crate::proofs::ElementLaws::next_laws))]
pub fn next_element(alloc: Global, held: Elements, walk: Value) -> Next
    ensures leads { Leads (Ok result) (elements_left held walk) }
{
    if held.at >= held.list.len() {
        return match held.rest {
            None => Next::Under(
                Item::Ending(Ending::Closed(Completion::Normal(Value::Undefined))),
                Control::Ask(Request::Close { walk }),
            ),
            Some(i) => under(
                PatternStep::RestTaking(Vec::new(alloc), walk, i, held.place),
                Control::Ask(Request::Tick),
            ),
        };
    }
    under(
        PatternStep::ItemBound(held, walk),
        Control::Ask(Request::Next { walk }),
    )
}

/// Goes on with an array pattern past the end of its walk.
#[tactic(auto, using(crate::proofs::ElementLaws::past_laws))]
fn next_past(held: Elements) -> Result<Next, AllocError>
    ensures leads { Leads result (elements_past held) }
{
    let mut held = held;
    let p = held.place;
    if held.at >= held.list.len() {
        return match held.rest {
            None => Ok(given(Value::Undefined)),
            Some(i) => Ok(under(PatternStep::BindingSlot(i, p), Control::Ask(Request::Array))),
        };
    }
    let element = copy_element(&held.list[held.at])?;
    held.at += 1;
    Ok(under(
        PatternStep::PastEnd(held),
        Control::BindElement(element, p, Value::Undefined),
    ))
}

/// What is done with an item of the walk, or the mark.
#[tactic(auto, using(crate::proofs::ElementLaws::item_laws))]
fn item_came(alloc: Global, held: Elements, walk: Value, v: Value) -> Result<Next, AllocError>
    ensures leads { Leads result (pattern_work (PatternStep.ItemBound held walk) v) }
{
    let mut held = held;
    let p = held.place;
    if held.at >= held.list.len() {
        return Ok(next_element(alloc, held, walk));
    }
    let element = copy_element(&held.list[held.at])?;
    held.at += 1;
    if is_mark(v) {
        return Ok(under(
            PatternStep::PastEnd(held),
            Control::BindElement(element, p, Value::Undefined),
        ));
    }
    Ok(Next::Under(
        Item::Ending(Ending::OrClose(held, walk)),
        Control::BindElement(element, p, v),
    ))
}

/// What is done with an item of `...`, or the mark.
#[tactic(auto, using(crate::proofs::ElementLaws::rest_laws))]
fn rest_came(
    done: Vec<Value>,
    walk: Value,
    slot: u32,
    p: ScopeId,
    v: Value,
) -> Result<Next, AllocError>
    ensures leads { Leads result (pattern_work (PatternStep.RestComing done walk slot p) v) }
{
    if is_mark(v) {
        return Ok(under(
            PatternStep::BindingSlot(slot, p),
            Control::AskWith(Request::Array, done),
        ));
    }
    let mut done = done;
    done.push(v)?;
    Ok(under(
        PatternStep::RestTaking(done, walk, slot, p),
        Control::Ask(Request::Tick),
    ))
}

/// What a step does with a value.
#[tactic(auto, using(crate::proofs::PatternSteps::step_laws))]
pub fn resume_pattern(alloc: Global, held: PatternStep, v: Value) -> Result<Next, AllocError>
    ensures leads { Leads result (pattern_work held v) }
{
    match held {
        PatternStep::Binding(pattern, p) => Ok(Next::Just(Control::Bind(pattern, p, v))),
        PatternStep::BindingElement(element, p) => {
            let element = copy_element(&element)?;
            Ok(Next::Just(Control::BindElement(element, p, v)))
        }
        PatternStep::BindingSlot(i, p) => Ok(Next::Just(init(i, p, v))),
        PatternStep::PropertyGot(held) => property_came(alloc, held, v),
        PatternStep::PropertyBound(held) => next_property(alloc, held),
        PatternStep::Walking(held) => Ok(next_element(alloc, held, v)),
        PatternStep::ItemBound(held, walk) => item_came(alloc, held, walk, v),
        PatternStep::PastEnd(held) => next_past(held),
        PatternStep::RestTaking(done, walk, i, p) => Ok(under(
            PatternStep::RestComing(done, walk, i, p),
            Control::Ask(Request::Next { walk }),
        )),
        PatternStep::RestComing(done, walk, i, p) => rest_came(done, walk, i, p, v),
    }
}
