//! Items that look at every completion.

use crate::items::{Elements, ForLoop, OfLoop, WhileLoop};
use actx_code::{Caught, Form};
use actx_value::{ScopeId, Value};
use actx_want::Completion;
use std::rc::Rc;

/// What is done with any completion.
#[derive(Drop)]
pub enum Ending {
    /// It ended the body of a `while`.
    While(WhileLoop),
    /// It ended the body of a `do`.
    Do(WhileLoop),
    /// It ended the body of a `for`.
    For(ForLoop),
    /// It ended the body of a `for` with `let`.
    Let(ForLoop),
    /// It ended the body of a `for-of`, with this walk.
    Of(OfLoop, Value),
    /// It ended the target of a `for-of`; the place in the turn's scope, and the walk.
    OfTarget(OfLoop, ScopeId, Value),
    /// It ended the element of an array pattern before this place, with this walk.
    OrClose(Elements, Value),
    /// It answers the end of a walk; this completion goes on.
    Closed(Completion),
    /// It ended a block with this catch clause.
    Catching(Rc<Caught>, ScopeId),
    /// It ended what stands before this finally block.
    Finishing(Rc<Form>, ScopeId),
}
