//! Lists, calls and objects.

ghost use Rattle.std.specs.Prelude.{◌≡◌, map, drop, Ok};
ghost use Rattle.actx_want.specs.Lists.{filled};
ghost use Rattle.actx_want.specs.Bodies.{eval_entry};
ghost use Rattle.actx_frame_items.specs.Lists.{whole, whole_list, listing, list_work, entry_work};
ghost use Rattle.actx_frame_items.specs.Stack.{Leads};

use crate::items::{
    Control, EntryStep, Item, KeyUse, List, ListEnd, ListStep, MemberStep, NameStep, Next, Step,
};
use crate::members::copy_key;
use crate::shared::{is_mark, share};
use actx_code::{Argument, Entry};
use actx_value::{Request, ScopeId, Value};
use actx_want::Completion;
use std::alloc::{AllocError, Global};
use std::rc::Rc;

fn under(step: ListStep, control: Control) -> Next
    ensures { result ≡ Next.Under (Item.Value (Step.List step)) control }
{
    Next::Under(Item::Value(Step::List(step)), control)
}

/// What is done with a list that is whole.
#[tactic(auto, using(crate::proofs::ListLaws::end_laws))]
fn end_list(end: ListEnd, list: Vec<Value>) -> Next
    ensures leads { Leads (Ok result) (whole end list.items) }
{
    match end {
        ListEnd::Call(chain, this, callee) => Next::Under(
            Item::Value(Step::Member(MemberStep::Following(chain, Value::Undefined))),
            Control::AskWith(Request::Call { callee, this }, list),
        ),
        ListEnd::New(callee) => Next::Just(Control::AskWith(Request::New { callee }, list)),
        ListEnd::Super(callee, hops, p) => under(
            ListStep::ThisBound(hops, p),
            Control::AskWith(Request::SuperCall { callee }, list),
        ),
        ListEnd::Array => Next::Just(Control::AskWith(Request::Array, list)),
    }
}

/// Goes on with a list: begins its next member, or asks for what the list is made for.
#[tactic(auto, using(crate::proofs::ListLaws::list_laws))]
pub fn go_on_list(list: List) -> Result<Next, AllocError>
    ensures leads { Leads result (listing list) }
{
    let mut list = list;
    let p = list.place;
    if list.at >= list.members.len() {
        let List { end, done, .. } = list;
        return Ok(end_list(end, done));
    }
    match &list.members[list.at] {
        Argument::One(e) => {
            let e = share(e)?;
            list.at += 1;
            Ok(under(ListStep::Adding(list), Control::Eval(e, p)))
        }
        Argument::Spread(e) => {
            let e = share(e)?;
            list.at += 1;
            Ok(under(ListStep::Opening(list), Control::Eval(e, p)))
        }
    }
}

/// Begins a list.
#[tactic(auto, using(crate::proofs::ListLaws::begin_laws))]
pub fn begin_list(
    alloc: Global,
    members: Rc<Vec<Argument>>,
    p: ScopeId,
    end: ListEnd,
) -> Result<Next, AllocError>
    ensures leads { Leads result (whole_list members.value.items p end) }
{
    go_on_list(List {
        done: Vec::new(alloc),
        members,
        at: 0,
        place: p,
        end,
    })
}

/// What a step does with a value.
#[tactic(auto, using(crate::proofs::ListLaws::step_laws))]
pub fn resume_list(alloc: Global, held: ListStep, v: Value) -> Result<Next, AllocError>
    ensures leads { Leads result (list_work held v) }
{
    match held {
        ListStep::Adding(list) => {
            let mut list = list;
            list.done.push(v)?;
            go_on_list(list)
        }
        ListStep::Opening(list) => Ok(under(
            ListStep::Opened(list),
            Control::Ask(Request::Open { value: v }),
        )),
        ListStep::Opened(list) => Ok(under(ListStep::Taking(list, v), Control::Ask(Request::Tick))),
        ListStep::Taking(list, walk) => Ok(under(
            ListStep::Coming(list, walk),
            Control::Ask(Request::Next { walk }),
        )),
        ListStep::Coming(list, walk) => {
            if is_mark(v) {
                return go_on_list(list);
            }
            let mut list = list;
            list.done.push(v)?;
            Ok(under(ListStep::Taking(list, walk), Control::Ask(Request::Tick)))
        }
        ListStep::Making(members, p) => begin_list(alloc, members, p, ListEnd::New(v)),
        ListStep::SuperCalling(hops, members, p) => {
            begin_list(alloc, members, p, ListEnd::Super(v, hops, p))
        }
        ListStep::ThisBound(hops, p) => Ok(Next::Under(
            Item::Value(Step::Name(NameStep::Keeping(v))),
            Control::Ask(Request::Init {
                scope: p,
                hops,
                slot: 0,
                value: v,
            }),
        )),
    }
}

fn under_entry(step: EntryStep, control: Control) -> Next
    ensures { result ≡ Next.Under (Item.Value (Step.Entry step)) control }
{
    Next::Under(Item::Value(Step::Entry(step)), control)
}

/// Goes on with the entries of an object.
#[tactic(auto, using(crate::proofs::EntryLaws::entry_laws))]
fn next_entry(
    entries: Rc<Vec<Entry>>,
    at: usize,
    p: ScopeId,
    object: Value,
) -> Result<Next, AllocError>
    ensures leads { Leads result (filled (map eval_entry (drop at entries.value.items)) p object) }
{
    if at >= entries.len() {
        return Ok(Next::Just(Control::Done(Completion::Normal(object))));
    }
    match &entries[at] {
        Entry::Pair(key, e) => {
            let key = copy_key(key)?;
            let e = share(e)?;
            Ok(under_entry(
                EntryStep::Filled(entries, at + 1, p, object),
                Control::UseKey(key, p, KeyUse::Pair(e, p, object)),
            ))
        }
        Entry::Method(key, body) => {
            let body = *body;
            let key = copy_key(key)?;
            Ok(under_entry(
                EntryStep::Filled(entries, at + 1, p, object),
                Control::UseKey(key, p, KeyUse::Method(body, p, object)),
            ))
        }
        Entry::Copied(e) => {
            let e = share(e)?;
            Ok(Next::UnderTwo(
                Item::Value(Step::Entry(EntryStep::Filled(entries, at + 1, p, object))),
                Item::Value(Step::Entry(EntryStep::Copying(object))),
                Control::Eval(e, p),
            ))
        }
    }
}

/// What a step does with a value.
#[tactic(auto, using(crate::proofs::EntryLaws::step_laws))]
pub fn resume_entry(held: EntryStep, v: Value) -> Result<Next, AllocError>
    ensures leads { Leads result (entry_work held v) }
{
    match held {
        EntryStep::Filling(entries, p) => next_entry(entries, 0, p, v),
        EntryStep::Filled(entries, at, p, object) => next_entry(entries, at, p, object),
        EntryStep::Defining(object, key) => Ok(Next::Just(Control::Ask(Request::Define {
            object,
            key,
            value: v,
        }))),
        EntryStep::Copying(object) => {
            Ok(Next::Just(Control::Ask(Request::Copy { object, from: v })))
        }
    }
}
