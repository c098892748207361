//! How forms begin.

ghost use Rattle.std.specs.Prelude.{◌≡◌, true, false};
ghost use Rattle.actx_want.specs.Bodies.{eval};
ghost use Rattle.actx_frame_items.specs.Stack.{Leads};
ghost use Rattle.actx_frame.specs.Begins.{is_operation, is_statement};

use crate::begin::{
    enter_block, enter_change, enter_class, enter_delete, enter_if, enter_of, enter_suffixes,
    enter_super, enter_try, for_loop, while_loop,
};
use actx_code::Form;
use actx_frame_items::{
    Control, EntryStep, Item, ListEnd, ListStep, LoopStep, Next, OperatorStep, PatternStep, Spot,
    StatementStep, Step, begin_list, change as begin_change, copy_change, next_piece, share,
};
use actx_frame_steps::{do_turn, next_form, while_turn};
use actx_value::{Request, ScopeId, Value};
use actx_want::Completion;
use std::alloc::{AllocError, Global};

fn done(c: Completion) -> Next
    ensures { result ≡ Next.Just (Control.Done c) }
{
    Next::Just(Control::Done(c))
}

fn ask(r: Request) -> Next
    ensures { result ≡ Next.Just (Control.Ask r) }
{
    Next::Just(Control::Ask(r))
}

fn under(step: Step, control: Control) -> Next
    ensures { result ≡ Next.Under (Item.Value step) control }
{
    Next::Under(Item::Value(step), control)
}

/// Begins a form: goes to its first request, to its first part, or to its completion. Here are the forms
/// of names, operators and members.
#[tactic(auto, using(crate::proofs::EnterLaws::operation_laws))]
pub fn enter(alloc: Global, form: &Form, p: ScopeId) -> Result<Next, AllocError>
    ensures leads { Leads result (eval form.now p) }
{
    match form {
        Form::Literal(v) => Ok(done(Completion::Normal(*v))),
        Form::Name { hops, slot } => Ok(ask(Request::Load {
            scope: p,
            hops: *hops,
            slot: *slot,
        })),
        Form::ChangeName { hops, slot, change } => {
            let spot = Spot::Name {
                scope: p,
                hops: *hops,
                slot: *slot,
            };
            Ok(begin_change(spot, copy_change(change)?, p))
        }
        Form::ChangeMember {
            object,
            key,
            change,
        } => enter_change(object, key, change, p),
        Form::Delete {
            base,
            suffixes,
            optional,
            key,
        } => enter_delete(base, suffixes, *optional, key, p),
        Form::Unary { op, operand } => {
            let operand = share(operand)?;
            Ok(under(
                Step::Operator(OperatorStep::AppliedTo(*op)),
                Control::Eval(operand, p),
            ))
        }
        Form::Not(e) => {
            let e = share(e)?;
            Ok(under(Step::Operator(OperatorStep::Negating), Control::Eval(e, p)))
        }
        Form::Void(e) => {
            let e = share(e)?;
            Ok(under(Step::Operator(OperatorStep::Dropping), Control::Eval(e, p)))
        }
        Form::Operators { first, operands } => {
            let first = share(first)?;
            let operands = share(operands)?;
            Ok(under(
                Step::Operator(OperatorStep::Chaining(operands, 0, p)),
                Control::Eval(first, p),
            ))
        }
        Form::Logical {
            op,
            first,
            operands,
        } => {
            let first = share(first)?;
            let operands = share(operands)?;
            Ok(under(
                Step::Operator(OperatorStep::DecidingOn(*op, operands, 0, p)),
                Control::Eval(first, p),
            ))
        }
        Form::If { test, yes, no } => enter_if(test, yes, no, p),
        Form::Template { first, pieces } => next_piece(share(pieces)?, 0, p, *first),
        Form::Suffixes { base, suffixes } => enter_suffixes(base, suffixes, p),
        Form::SuperMember {
            hops,
            key,
            suffixes,
        } => enter_super(*hops, *key, suffixes, p),
        _ => enter_value(alloc, form, p),
    }
}

/// Begins a form of calls, values, cells, generators or parameters.
#[tactic(auto, using(crate::proofs::EnterLaws::value_laws))]
fn enter_value(alloc: Global, form: &Form, p: ScopeId) -> Result<Next, AllocError>
    requires { is_operation form.now ≡ false }
    ensures leads { Leads result (eval form.now p) }
{
    match form {
        Form::New { callee, arguments } => {
            let callee = share(callee)?;
            let arguments = share(arguments)?;
            Ok(under(
                Step::List(ListStep::Making(arguments, p)),
                Control::Eval(callee, p),
            ))
        }
        Form::SuperCall { hops, arguments } => Ok(under(
            Step::List(ListStep::SuperCalling(*hops, share(arguments)?, p)),
            Control::Ask(Request::Load {
                scope: p,
                hops: *hops,
                slot: 1,
            }),
        )),
        Form::Array(members) => begin_list(alloc, share(members)?, p, ListEnd::Array),
        Form::Object(entries) => Ok(under(
            Step::Entry(EntryStep::Filling(share(entries)?, p)),
            Control::Ask(Request::Object),
        )),
        Form::Function(body) => Ok(ask(Request::Function {
            body: *body,
            scope: p,
        })),
        Form::Class {
            constructor,
            parent,
            prototype,
            members,
        } => enter_class(*constructor, parent, *prototype, members, p),
        Form::Init { slot, value } => {
            let value = share(value)?;
            Ok(under(
                Step::Statement(StatementStep::Initialising(*slot, p)),
                Control::Eval(value, p),
            ))
        }
        Form::Bind { pattern, value } => {
            let pattern = share(pattern)?;
            let value = share(value)?;
            Ok(under(
                Step::Pattern(PatternStep::Binding(pattern, p)),
                Control::Eval(value, p),
            ))
        }
        Form::Yield(e) => {
            let e = share(e)?;
            Ok(under(
                Step::Statement(StatementStep::Yielding),
                Control::Eval(e, p),
            ))
        }
        Form::Await(e) => {
            let e = share(e)?;
            Ok(under(
                Step::Statement(StatementStep::Awaiting),
                Control::Eval(e, p),
            ))
        }
        Form::Parameter { index, element } => Ok(under(
            Step::Pattern(PatternStep::BindingElement(share(element)?, p)),
            Control::Ask(Request::Arg { index: *index }),
        )),
        Form::RestParameter { index, target } => Ok(under(
            Step::Pattern(PatternStep::Binding(share(target)?, p)),
            Control::Ask(Request::ArgsFrom { index: *index }),
        )),
        Form::Begin => Ok(ask(Request::Begin)),
        _ => enter_statement(form, p),
    }
}

/// Begins a statement.
#[tactic(auto, using(crate::proofs::EnterLaws::statement_laws))]
fn enter_statement(form: &Form, p: ScopeId) -> Result<Next, AllocError>
    requires { is_statement form.now ≡ true }
    ensures leads { Leads result (eval form.now p) }
{
    match form {
        Form::Sequence(list) => next_form(share(list)?, 0, p, Value::Undefined),
        Form::Block {
            cells,
            functions,
            body,
        } => enter_block(*cells, functions, body, p),
        Form::While { test, body } => Ok(while_turn(while_loop(test, body, p)?)),
        Form::DoWhile { body, test } => Ok(do_turn(while_loop(test, body, p)?)),
        Form::For {
            first,
            test,
            update,
            body,
        } => {
            let held = for_loop(test, update, body, p)?;
            let first = share(first)?;
            Ok(under(Step::Loop(LoopStep::ForDue(held)), Control::Eval(first, p)))
        }
        Form::ForLet {
            cells,
            first,
            test,
            update,
            body,
        } => {
            let held = for_loop(test, update, body, p)?;
            let first = share(first)?;
            Ok(under(
                Step::Loop(LoopStep::LetEntered(first, held)),
                Control::Ask(Request::Scope {
                    parent: p,
                    count: *cells,
                }),
            ))
        }
        Form::ForOf {
            cells,
            target,
            value,
            body,
        } => enter_of(*cells, target, value, body, p),
        Form::Break(n) => Ok(done(Completion::Break(*n))),
        Form::Continue(n) => Ok(done(Completion::Continue(*n))),
        Form::Return(e) => {
            let e = share(e)?;
            Ok(under(
                Step::Statement(StatementStep::Returning),
                Control::Eval(e, p),
            ))
        }
        Form::Throw(e) => {
            let e = share(e)?;
            Ok(under(
                Step::Statement(StatementStep::Throwing),
                Control::Eval(e, p),
            ))
        }
        Form::Try {
            block,
            catch,
            finally,
        } => enter_try(block, catch, finally, p),
        _ => unreachable!(),
    }
}
