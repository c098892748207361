//! Frames of bodies.

ghost use Rattle.std.specs.Prelude.{◌≡◌, IfOk, OnOk, List, [], ◌∷◌};
ghost use Rattle.actx_value.specs.declared.value.Answer.{Answer};
ghost use Rattle.actx_want.specs.Bodies.{form_wants, wants_after};
ghost use Rattle.actx_frame.specs.Frames.{rest, wanted, args_of};

use crate::machine::{Want, Wanted, begin, completion, run};
use actx_code::{Code, Form};
use actx_frame_items::{Control, Item};
use actx_text::BodyId;
use actx_value::{Answer, ScopeId, Value};
use std::alloc::{AllocError, Global};

/// A body that has begun: what is left to do with the answer that it waits for, and what it wants. It
/// keeps none of the answers that it got.
///
/// What a frame wants after further answers is `rest` of it. A frame whose `next` answered `AllocError`
/// isn't used again.
#[derive(Drop)]
pub struct Frame {
    alloc: Global,
    stack: Vec<Item>,
    want: Want,
    list: Vec<Value>,
}

impl Frame {
    /// A body of this code that has begun in this scope (FunctionDeclarationInstantiation and on,
    /// ECMA-262 §10.2.1.3, §16.1.6). It wants what the body wants. A body that isn't in the code is as
    /// an empty one. `AllocError` where there is no memory.
    pub fn start(
        alloc: Global,
        code: &Code,
        body: BodyId,
        scope: ScopeId,
    ) -> Result<Frame, AllocError>
        ensures law { IfOk result (λ f. rest f ≡ wants_after code.now body scope) }
    {
        match code.body(body) {
            None => Ok(Frame {
                alloc,
                stack: Vec::new(alloc),
                want: Want::Return(Value::Undefined),
                list: Vec::new(alloc),
            }),
            Some(body) => of_form(alloc, &body.form, scope),
        }
    }

    /// What the body wants now: a request, or how it ended.
    pub fn want(&self) -> Want
        ensures law { rest self.now [] ≡ wanted result (args_of self.now) }
    {
        self.want
    }

    /// The list of the request that is wanted: the arguments of Call, New and SuperCall, the elements of
    /// Array, the keys of Rest. It is empty elsewhere.
    pub fn args(&self) -> &[Value]
        ensures { result.now ≡ args_of self.now }
    {
        &self.list
    }

    /// Goes on with an answer to the request that is wanted, and gives what is wanted then. A body that
    /// has ended stays as it is. After it the body wants what it wanted after this answer and any
    /// further ones. `AllocError` where there is no memory.
    pub fn next(&mut self, _code: &Code, a: Answer) -> Result<Want, AllocError>
        ensures law { OnOk result ((more : List Answer) → rest self.new more ≡ rest self.old (a ∷ more)) }
        ensures wanted { IfOk result (λ w. rest self.new [] ≡ wanted w (args_of self.new)) }
    {
        match self.want {
            Want::Ask(_) => {
                let wanted = run(self.alloc, &mut self.stack, Control::Done(completion(a)))?;
                self.want = wanted.want;
                self.list = wanted.list;
                Ok(wanted.want)
            }
            ended => Ok(ended),
        }
    }
}

/// A frame of this form.
#[tactic(auto, using(crate::proofs::MachineLaws::frame_laws))]
fn of_form(alloc: Global, form: &Form, scope: ScopeId) -> Result<Frame, AllocError>
    ensures law { IfOk result (λ f. rest f ≡ form_wants form.now scope) }
{
    let mut stack = Vec::new(alloc);
    let Wanted { want, list } = begin(alloc, &mut stack, form, scope)?;
    Ok(Frame {
        alloc,
        stack,
        want,
        list,
    })
}
