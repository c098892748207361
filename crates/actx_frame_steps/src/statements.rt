//! Statements, scopes and classes.

ghost use Rattle.std.specs.Prelude.{◌≡◌, IfOk, drop, Ok};
ghost use Rattle.actx_want.specs.Statements.{sequenced};
ghost use Rattle.actx_want.specs.Classes.{home_of, stands_on_prototype as stands_on_prototype_of};
ghost use Rattle.actx_frame_items.specs.Work.{forms};
ghost use Rattle.actx_frame_items.specs.Statements.{declarations_left, statement_work, members_left, class_work};
ghost use Rattle.actx_frame_items.specs.Stack.{Leads};

use actx_code::{ClassMember, Form};
use actx_frame_items::{
    ClassMembers, ClassStep, Control, Declarations, Item, NameStep, Next, StatementStep, Step,
    inside, share,
};
use actx_value::{Request, ScopeId, Value, is_true};
use actx_want::Completion;
use std::alloc::AllocError;
use std::rc::Rc;

fn under(step: StatementStep, control: Control) -> Next
    ensures { result ≡ Next.Under (Item.Value (Step.Statement step)) control }
{
    Next::Under(Item::Value(Step::Statement(step)), control)
}

fn done(c: Completion) -> Next
    ensures { result ≡ Next.Just (Control.Done c) }
{
    Next::Just(Control::Done(c))
}

/// The first value of a cell is asked for.
fn init(slot: u32, p: ScopeId, value: Value) -> Control
    ensures { result ≡ Control.Ask (Request.Init p 0 slot value) }
{
    Control::Ask(Request::Init {
        scope: p,
        hops: 0,
        slot,
        value,
    })
}

/// Goes on with a sequence, by the value so far.
#[tactic(auto, using(crate::proofs::StatementLaws::sequence_laws))]
pub fn next_form(
    list: Rc<Vec<Rc<Form>>>,
    at: usize,
    p: ScopeId,
    v: Value,
) -> Result<Next, AllocError>
    ensures leads { Leads result (sequenced (forms (drop at list.value.items)) v p) }
{
    if at >= list.len() {
        return Ok(done(Completion::Normal(v)));
    }
    let e = share(&list[at])?;
    Ok(under(
        StatementStep::Sequenced(list, at + 1, p),
        Control::Eval(e, p),
    ))
}

/// Goes on with the functions that a scope declares, and then its form.
#[tactic(auto, using(crate::proofs::StatementLaws::declaration_laws))]
fn next_declaration(held: Declarations) -> Next
    ensures leads { Leads (Ok result) (declarations_left held) }
{
    let mut held = held;
    if held.at >= held.functions.len() {
        return Next::Just(Control::Eval(held.body, held.place));
    }
    let declared = held.functions[held.at];
    let request = Request::Function {
        body: declared.body,
        scope: held.place,
    };
    held.at += 1;
    under(
        StatementStep::Declaring(declared.slot, held),
        Control::Ask(request),
    )
}

/// What a step does with a value.
#[tactic(auto, using(crate::proofs::StatementLaws::step_laws))]
pub fn resume_statement(held: StatementStep, v: Value) -> Result<Next, AllocError>
    ensures leads { Leads result (statement_work held v) }
{
    match held {
        StatementStep::Sequenced(list, at, p) => next_form(list, at, p, v),
        StatementStep::Choosing(yes, no, p) => {
            if is_true(v) {
                Ok(Next::Just(Control::Eval(yes, p)))
            } else {
                Ok(Next::Just(Control::Eval(no, p)))
            }
        }
        StatementStep::Initialising(slot, p) => Ok(Next::Under(
            Item::Value(Step::Name(NameStep::Keeping(v))),
            init(slot, p, v),
        )),
        StatementStep::Entered(functions, body, p) => Ok(next_declaration(Declarations {
            functions,
            at: 0,
            body,
            place: inside(p, v),
        })),
        StatementStep::Declaring(slot, held) => {
            let control = init(slot, held.place, v);
            Ok(under(StatementStep::DeclaredOne(held), control))
        }
        StatementStep::DeclaredOne(held) => Ok(next_declaration(held)),
        StatementStep::Returning => Ok(done(Completion::Return(v))),
        StatementStep::Throwing => Ok(done(Completion::Throw(v))),
        StatementStep::Yielding => Ok(Next::Just(Control::Ask(Request::Yield { value: v }))),
        StatementStep::Awaiting => Ok(Next::Just(Control::Ask(Request::Await { value: v }))),
        StatementStep::Settling(c) => Ok(done(c)),
        StatementStep::CatchEntered(target, block, thrown, p) => {
            let p = inside(p, v);
            Ok(under(
                StatementStep::CatchBlock(block, p),
                Control::Bind(target, p, thrown),
            ))
        }
        StatementStep::CatchBlock(block, p) => Ok(Next::Just(Control::Eval(block, p))),
    }
}

// ---- classes

fn under_class(step: ClassStep, control: Control) -> Next
    ensures { result ≡ Next.Under (Item.Value (Step.Class step)) control }
{
    Next::Under(Item::Value(Step::Class(step)), control)
}

/// Whether a member isn't static.
#[tactic(auto, using(crate::proofs::ClassLaws::static_laws))]
fn stands_on_prototype(members: &[ClassMember]) -> bool
    ensures { result ≡ stands_on_prototype_of members.now }
{
    for member in members {
        if !member.is_static {
            return true;
        }
    }
    false
}

/// A static member stands on the class, any other on its prototype object.
fn home(member: ClassMember, class: Value, prototype: Value) -> Value
    ensures { result ≡ home_of member class prototype }
{
    if member.is_static { class } else { prototype }
}

/// Goes on with the members of a class.
#[tactic(auto, using(crate::proofs::ClassLaws::member_laws))]
fn next_member(held: ClassMembers) -> Next
    ensures leads { Leads (Ok result) (members_left held) }
{
    let mut held = held;
    if held.at >= held.list.len() {
        return done(Completion::Normal(held.class));
    }
    let member = held.list[held.at];
    let home = home(member, held.class, held.prototype);
    let request = Request::Method {
        body: member.body,
        scope: held.place,
        home,
    };
    held.at += 1;
    Next::UnderTwo(
        Item::Value(Step::Class(ClassStep::MethodDefined(held))),
        Item::Value(Step::Class(ClassStep::MethodMade(home, member.key))),
        Control::Ask(request),
    )
}

/// What a step does with a value.
#[tactic(auto, using(crate::proofs::ClassLaws::step_laws))]
pub fn resume_class(held: ClassStep, v: Value) -> Next
    ensures leads { Leads (Ok result) (class_work held v) }
{
    match held {
        ClassStep::Extending(body, key, list, p) => under_class(
            ClassStep::Made(key, list, p),
            Control::Ask(Request::Class {
                body,
                scope: p,
                parent: Some(v),
            }),
        ),
        ClassStep::Made(key, list, p) => {
            if stands_on_prototype(&list) {
                under_class(
                    ClassStep::PrototypeGot(list, v, p),
                    Control::Ask(Request::Get { object: v, key }),
                )
            } else {
                next_member(ClassMembers {
                    list,
                    at: 0,
                    class: v,
                    prototype: v,
                    place: p,
                })
            }
        }
        ClassStep::PrototypeGot(list, class, p) => next_member(ClassMembers {
            list,
            at: 0,
            class,
            prototype: v,
            place: p,
        }),
        ClassStep::MethodMade(object, key) => Next::Just(Control::Ask(Request::DefineMethod {
            object,
            key,
            value: v,
        })),
        ClassStep::MethodDefined(held) => next_member(held),
    }
}
