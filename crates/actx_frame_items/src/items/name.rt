//! Items of names, and of changes of names and members.

use actx_code::{Form, Logic};
use actx_tree::StepOp;
use actx_value::{BinaryOp, ScopeId, Value};
use std::rc::Rc;

/// What is read and written by a change: a cell, so many scopes further out, or a member.
#[derive(Clone, Copy)]
pub enum Spot {
    Name {
        scope: ScopeId,
        hops: u32,
        slot: u32,
    },
    Member {
        object: Value,
        key: Value,
    },
}

/// What is done with a value in the course of a change.
#[derive(Drop)]
pub enum NameStep {
    /// It is written.
    Storing(Spot),
    /// This value is given in its place.
    Keeping(Value),
    /// It is the right operand; the old value stands here.
    Combining(Spot, BinaryOp, Value),
    /// It is the old value; the right operand is due.
    RightOf(Spot, BinaryOp, Rc<Form>, ScopeId),
    /// It is the old value; the right operand may be due.
    Deciding(Spot, Logic, Rc<Form>, ScopeId),
    /// It is written, and the old value given.
    StoringAfter(Spot, Value),
    /// It is the old value as a number, of `++` before the place.
    SteppedBefore(Spot, StepOp),
    /// It is the old value as a number, of `++` after the place.
    SteppedAfter(Spot, StepOp),
    /// It is the old value, of `++` before the place.
    NumberingBefore(Spot, StepOp),
    /// It is the old value, of `++` after the place.
    NumberingAfter(Spot, StepOp),
}
