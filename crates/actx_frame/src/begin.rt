//! How the forms of several parts begin.

ghost use Rattle.std.specs.Prelude.{◌≡◌, IfOk};
ghost use Rattle.actx_want.specs.Bodies.{eval};
ghost use Rattle.actx_frame.specs.Begins.{IsWhile, IsFor, IsChain};
ghost use Rattle.actx_frame_items.specs.Stack.{Leads};

use actx_code::{Caught, Change, ClassMember, Declared, Form, Key, Pattern, Suffix};
use actx_frame_items::{
    Chain, ChainEnd, ClassStep, Control, Ending, ForLoop, Item, MemberStep, Next, OfLoop, OfStep,
    StatementStep, Step, WhileLoop, copy_change, copy_key, share,
};
use actx_text::BodyId;
use actx_value::{Request, ScopeId, Value};
use std::alloc::AllocError;
use std::rc::Rc;

fn under(step: Step, control: Control) -> Next
    ensures { result ≡ Next.Under (Item.Value step) control }
{
    Next::Under(Item::Value(step), control)
}

/// A chain of suffixes from its first one on.
fn chain(suffixes: &Rc<Vec<Suffix>>, p: ScopeId, end: ChainEnd) -> Result<Chain, AllocError>
    ensures { IfOk result (λ c. IsChain c suffixes.now p end) }
{
    Ok(Chain {
        suffixes: share(suffixes)?,
        at: 0,
        place: p,
        end,
    })
}

#[tactic(auto, using(crate::proofs::BeginLaws::change_laws))]
pub fn enter_change(
    object: &Rc<Form>,
    key: &Key,
    change: &Change,
    p: ScopeId,
) -> Result<Next, AllocError>
    ensures leads { Leads result (eval (Form.ChangeMember object.now key.now change.now) p) }
{
    let object = share(object)?;
    let key = copy_key(key)?;
    let change = copy_change(change)?;
    Ok(under(
        Step::Member(MemberStep::AtObject(key, change, p)),
        Control::Eval(object, p),
    ))
}

#[tactic(auto, using(crate::proofs::BeginLaws::delete_laws))]
pub fn enter_delete(
    base: &Rc<Form>,
    suffixes: &Rc<Vec<Suffix>>,
    optional: bool,
    key: &Key,
    p: ScopeId,
) -> Result<Next, AllocError>
    ensures leads { Leads result (eval (Form.Delete base.now suffixes.now optional key.now) p) }
{
    let base = share(base)?;
    let key = copy_key(key)?;
    let chain = chain(suffixes, p, ChainEnd::Delete(optional, key))?;
    Ok(under(
        Step::Member(MemberStep::Following(chain, Value::Undefined)),
        Control::Eval(base, p),
    ))
}

#[tactic(auto, using(crate::proofs::BeginLaws::if_laws))]
pub fn enter_if(
    test: &Rc<Form>,
    yes: &Rc<Form>,
    no: &Rc<Form>,
    p: ScopeId,
) -> Result<Next, AllocError>
    ensures leads { Leads result (eval (Form.If test.now yes.now no.now) p) }
{
    let test = share(test)?;
    let yes = share(yes)?;
    let no = share(no)?;
    Ok(under(
        Step::Statement(StatementStep::Choosing(yes, no, p)),
        Control::Eval(test, p),
    ))
}

#[tactic(auto, using(crate::proofs::BeginLaws::suffix_laws))]
pub fn enter_suffixes(
    base: &Rc<Form>,
    suffixes: &Rc<Vec<Suffix>>,
    p: ScopeId,
) -> Result<Next, AllocError>
    ensures leads { Leads result (eval (Form.Suffixes base.now suffixes.now) p) }
{
    let base = share(base)?;
    let chain = chain(suffixes, p, ChainEnd::Give)?;
    Ok(under(
        Step::Member(MemberStep::Following(chain, Value::Undefined)),
        Control::Eval(base, p),
    ))
}

#[tactic(auto, using(crate::proofs::BeginLaws::super_laws))]
pub fn enter_super(
    hops: u32,
    key: Value,
    suffixes: &Rc<Vec<Suffix>>,
    p: ScopeId,
) -> Result<Next, AllocError>
    ensures leads { Leads result (eval (Form.SuperMember hops key suffixes.now) p) }
{
    let chain = chain(suffixes, p, ChainEnd::Give)?;
    Ok(under(
        Step::Member(MemberStep::SuperHome(hops, key, chain)),
        Control::Ask(Request::Load {
            scope: p,
            hops,
            slot: 2,
        }),
    ))
}

#[tactic(auto, using(crate::proofs::BeginLaws::class_laws))]
pub fn enter_class(
    body: BodyId,
    parent: &Option<Rc<Form>>,
    key: Value,
    members: &Rc<Vec<ClassMember>>,
    p: ScopeId,
) -> Result<Next, AllocError>
    ensures leads { Leads result (eval (Form.Class body parent.now key members.now) p) }
{
    let members = share(members)?;
    match parent {
        None => Ok(under(
            Step::Class(ClassStep::Made(key, members, p)),
            Control::Ask(Request::Class {
                body,
                scope: p,
                parent: None,
            }),
        )),
        Some(e) => {
            let e = share(e)?;
            Ok(under(
                Step::Class(ClassStep::Extending(body, key, members, p)),
                Control::Eval(e, p),
            ))
        }
    }
}

#[tactic(auto, using(crate::proofs::BeginLaws::block_laws))]
pub fn enter_block(
    cells: u32,
    functions: &Rc<Vec<Declared>>,
    body: &Rc<Form>,
    p: ScopeId,
) -> Result<Next, AllocError>
    ensures leads { Leads result (eval (Form.Block cells functions.now body.now) p) }
{
    let functions = share(functions)?;
    let body = share(body)?;
    Ok(under(
        Step::Statement(StatementStep::Entered(functions, body, p)),
        Control::Ask(Request::Scope {
            parent: p,
            count: cells,
        }),
    ))
}

pub fn while_loop(test: &Rc<Form>, body: &Rc<Form>, p: ScopeId) -> Result<WhileLoop, AllocError>
    ensures { IfOk result (λ l. IsWhile l test.now body.now p) }
{
    let test = share(test)?;
    let body = share(body)?;
    Ok(WhileLoop {
        test,
        body,
        place: p,
    })
}

pub fn for_loop(
    test: &Rc<Form>,
    update: &Rc<Form>,
    body: &Rc<Form>,
    p: ScopeId,
) -> Result<ForLoop, AllocError>
    ensures { IfOk result (λ l. IsFor l test.now update.now body.now p) }
{
    let test = share(test)?;
    let update = share(update)?;
    let body = share(body)?;
    Ok(ForLoop {
        test,
        update,
        body,
        place: p,
    })
}

#[tactic(auto, using(crate::proofs::BeginLaws::of_laws))]
pub fn enter_of(
    cells: u32,
    target: &Rc<Pattern>,
    value: &Rc<Form>,
    body: &Rc<Form>,
    p: ScopeId,
) -> Result<Next, AllocError>
    ensures leads { Leads result (eval (Form.ForOf cells target.now value.now body.now) p) }
{
    let target = share(target)?;
    let value = share(value)?;
    let body = share(body)?;
    let held = OfLoop {
        cells,
        target,
        body,
        place: p,
    };
    Ok(under(Step::Of(OfStep::Opening(held)), Control::Eval(value, p)))
}

/// A block under its catch clause.
#[tactic(auto, using(crate::proofs::BeginLaws::try_laws))]
pub fn enter_try(
    block: &Rc<Form>,
    clause: &Option<Rc<Caught>>,
    last: &Option<Rc<Form>>,
    p: ScopeId,
) -> Result<Next, AllocError>
    ensures leads { Leads result (eval (Form.Try block.now clause.now last.now) p) }
{
    let block = share(block)?;
    match clause {
        None => match last {
            None => Ok(Next::Just(Control::Eval(block, p))),
            Some(last) => Ok(Next::Under(
                Item::Ending(Ending::Finishing(share(last)?, p)),
                Control::Eval(block, p),
            )),
        },
        Some(clause) => {
            let clause = share(clause)?;
            match last {
                None => Ok(Next::Under(
                    Item::Ending(Ending::Catching(clause, p)),
                    Control::Eval(block, p),
                )),
                Some(last) => {
                    let last = share(last)?;
                    Ok(Next::UnderTwo(
                        Item::Ending(Ending::Finishing(last, p)),
                        Item::Ending(Ending::Catching(clause, p)),
                        Control::Eval(block, p),
                    ))
                }
            }
        }
    }
}
