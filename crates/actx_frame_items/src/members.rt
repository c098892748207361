//! Keys, members and suffixes.

ghost use Rattle.std.specs.Prelude.{◌≡◌, IfOk, Ok};
ghost use Rattle.actx_want.specs.Members.{stops as stops_of};
ghost use Rattle.actx_want.specs.Bodies.{eval_change, eval_key};
ghost use Rattle.actx_frame_items.specs.Members.{chain_ended, following, used, keyed, stop_value as stop_value_of, member_work};
ghost use Rattle.actx_frame_items.specs.Stack.{Leads};

use crate::items::{
    Chain, ChainEnd, Control, EntryStep, Item, KeyUse, List, ListEnd, MemberStep, Next, Spot, Step,
};
use crate::lists::go_on_list;
use crate::names::change;
use crate::shared::{is_nullish, share};
use actx_code::{Change, Key, Suffix};
use actx_value::{Request, ScopeId, Value};
use actx_want::Completion;
use std::alloc::{AllocError, Global};

fn under(step: MemberStep, control: Control) -> Next
    ensures { result ≡ Next.Under (Item.Value (Step.Member step)) control }
{
    Next::Under(Item::Value(Step::Member(step)), control)
}

/// Whether `?.` stops a chain at this value.
fn stops(optional: bool, v: Value) -> bool
    ensures { result ≡ stops_of optional v }
{
    optional && is_nullish(v)
}

/// A key with one more owner of what it holds.
#[tactic(auto, using(crate::proofs::MemberLaws::copy_laws))]
pub fn copy_key(key: &Key) -> Result<Key, AllocError>
    ensures { IfOk result (λ copy. eval_key copy ≡ eval_key key.now) }
{
    match key {
        Key::Plain(v) => Ok(Key::Plain(*v)),
        Key::Computed(e) => Ok(Key::Computed(share(e)?)),
    }
}

/// A change with one more owner of what it holds.
#[tactic(auto, using(crate::proofs::MemberLaws::copy_laws))]
pub fn copy_change(change: &Change) -> Result<Change, AllocError>
    ensures { IfOk result (λ copy. eval_change copy ≡ eval_change change.now) }
{
    match change {
        Change::Plainly(e) => Ok(Change::Plainly(share(e)?)),
        Change::WithOperator(op, e) => Ok(Change::WithOperator(*op, share(e)?)),
        Change::WithLogic(op, e) => Ok(Change::WithLogic(*op, share(e)?)),
        Change::StepBefore(op) => Ok(Change::StepBefore(*op)),
        Change::StepAfter(op) => Ok(Change::StepAfter(*op)),
    }
}

/// What is done with a key that came.
#[tactic(auto, using(crate::proofs::MemberLaws::use_laws))]
pub fn with_key(held: KeyUse, key: Value) -> Next
    ensures leads { Leads (Ok result) (used held key) }
{
    match held {
        KeyUse::Change(object, how, p) => change(Spot::Member { object, key }, how, p),
        KeyUse::Get(chain, object) => under(
            MemberStep::Following(chain, object),
            Control::Ask(Request::Get { object, key }),
        ),
        KeyUse::Delete(object) => Next::Just(Control::Ask(Request::Delete { object, key })),
        KeyUse::Pair(e, p, object) => Next::Under(
            Item::Value(Step::Entry(EntryStep::Defining(object, key))),
            Control::Eval(e, p),
        ),
        KeyUse::Method(body, scope, home) => Next::Under(
            Item::Value(Step::Entry(EntryStep::Defining(home, key))),
            Control::Ask(Request::Method { body, scope, home }),
        ),
    }
}

/// Begins a key.
#[tactic(auto, using(crate::proofs::MemberLaws::key_laws))]
pub fn begin_key(key: Key, p: ScopeId, held: KeyUse) -> Next
    ensures leads { Leads (Ok result) (keyed key p held) }
{
    match key {
        Key::Plain(name) => with_key(held, name),
        Key::Computed(e) => under(MemberStep::Keying(held), Control::Eval(e, p)),
    }
}

/// What a chain gives where `?.` stops it.
fn stop_value(end: &ChainEnd) -> Value
    ensures { result ≡ stop_value_of end.now }
{
    match end {
        ChainEnd::Give => Value::Undefined,
        ChainEnd::Delete(_, _) => Value::Bool(true),
    }
}

fn given(v: Value) -> Next
    ensures { result ≡ Next.Just (Control.Done (Completion.Normal v)) }
{
    Next::Just(Control::Done(Completion::Normal(v)))
}

/// What is done at the end of a chain.
#[tactic(auto, using(crate::proofs::MemberLaws::end_laws))]
fn end_chain(end: ChainEnd, p: ScopeId, v: Value) -> Next
    ensures leads { Leads (Ok result) (chain_ended end p v) }
{
    match end {
        ChainEnd::Give => given(v),
        ChainEnd::Delete(optional, key) => {
            if stops(optional, v) {
                given(Value::Bool(true))
            } else {
                begin_key(key, p, KeyUse::Delete(v))
            }
        }
    }
}

/// Goes on with a chain, by its receiver and its value so far.
#[tactic(auto, using(crate::proofs::MemberLaws::chain_laws))]
pub fn follow(alloc: Global, chain: Chain, receiver: Value, v: Value) -> Result<Next, AllocError>
    ensures leads { Leads result (following chain receiver v) }
{
    let mut chain = chain;
    let p = chain.place;
    if chain.at >= chain.suffixes.len() {
        return Ok(end_chain(chain.end, p, v));
    }
    match &chain.suffixes[chain.at] {
        Suffix::Member(optional, key) => {
            if stops(*optional, v) {
                return Ok(given(stop_value(&chain.end)));
            }
            let key = copy_key(key)?;
            chain.at += 1;
            Ok(begin_key(key, p, KeyUse::Get(chain, v)))
        }
        Suffix::Call(optional, arguments) => {
            if stops(*optional, v) {
                return Ok(given(stop_value(&chain.end)));
            }
            let members = share(arguments)?;
            chain.at += 1;
            go_on_list(List {
                done: Vec::new(alloc),
                members,
                at: 0,
                place: p,
                end: ListEnd::Call(chain, receiver, v),
            })
        }
    }
}

/// What a step does with a value.
#[tactic(auto, using(crate::proofs::MemberLaws::member_laws))]
pub fn resume_member(alloc: Global, held: MemberStep, v: Value) -> Result<Next, AllocError>
    ensures leads { Leads result (member_work held v) }
{
    match held {
        MemberStep::Keying(held) => Ok(under(
            MemberStep::Keyed(held),
            Control::Ask(Request::ToKey { value: v }),
        )),
        MemberStep::Keyed(held) => Ok(with_key(held, v)),
        MemberStep::AtObject(key, how, p) => Ok(begin_key(key, p, KeyUse::Change(v, how, p))),
        MemberStep::Following(chain, receiver) => follow(alloc, chain, receiver, v),
        MemberStep::SuperThis(key, home, chain) => Ok(under(
            MemberStep::Following(chain, v),
            Control::Ask(Request::SuperGet { home, key, this: v }),
        )),
        MemberStep::SuperHome(hops, key, chain) => {
            let scope = chain.place;
            Ok(under(
                MemberStep::SuperThis(key, v, chain),
                Control::Ask(Request::Load {
                    scope,
                    hops,
                    slot: 0,
                }),
            ))
        }
    }
}
