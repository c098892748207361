//! Members of objects, suffixes, and changes of names and members.

use crate::form::Form;
use crate::item::{Argument, Logic};
use actx_tree::StepOp;
use actx_value::{BinaryOp, Value};
use std::rc::Rc;

/// The key of a member.
#[cycle(form)]
#[derive(Drop)]
pub enum Key {
    /// A key that is written down.
    Plain(Value),
    /// `[ .. ]`: the value is asked for, and then its key.
    Computed(Rc<Form>),
}

/// What follows a value in a chain; the first field says that `?.` stands before it.
#[cycle(form)]
#[derive(Drop)]
pub enum Suffix {
    /// `.name` or `[ .. ]` (ECMA-262 §13.3.2).
    Member(bool, Key),
    /// `( .. )` (§13.3.6)
    Call(bool, Rc<Vec<Argument>>),
}

/// How a name or a member is changed.
#[cycle(form)]
#[derive(Drop)]
pub enum Change {
    /// `=` (ECMA-262 §13.15.2)
    Plainly(Rc<Form>),
    /// `op=` with an operator that asks (§13.15.2).
    WithOperator(BinaryOp, Rc<Form>),
    /// `&&=`, `||=` or `??=` (§13.15.2)
    WithLogic(Logic, Rc<Form>),
    /// `++` or `--` before the place, which gives the new value (§13.4.4, §13.4.5).
    StepBefore(StepOp),
    /// `++` or `--` after the place, which gives the old value as a number (§13.4.2, §13.4.3).
    StepAfter(StepOp),
}
