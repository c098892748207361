//! Items of operators and templates.

use actx_code::{Form, Logic, Operand, Piece};
use actx_value::{BinaryOp, ScopeId, UnaryOp, Value};
use std::rc::Rc;

/// What is done with a value by an operator or a template.
#[derive(Drop)]
pub enum OperatorStep {
    /// It is the operand.
    AppliedTo(UnaryOp),
    /// It is the operand of `!`.
    Negating,
    /// It is the operand of `void`.
    Dropping,
    /// It is the right operand; the left one stands here.
    Applying(BinaryOp, Value),
    /// It is the value of a chain so far; the operand at this place is due.
    Chaining(Rc<Vec<Operand>>, usize, ScopeId),
    /// It is the value of a chain of `&&`, `||` or `??` so far.
    DecidingOn(Logic, Rc<Vec<Rc<Form>>>, usize, ScopeId),
    /// It is the text of a template so far; the piece at this place is due.
    Templating(Rc<Vec<Piece>>, usize, ScopeId),
    /// It is a value of a template; the piece after it, and the text before it.
    MakingText(Option<Value>, Value),
    /// It is that value as a text.
    JoiningText(Option<Value>, Value),
    /// It is the text with that value; the piece after it is due.
    Joining(Option<Value>),
}
