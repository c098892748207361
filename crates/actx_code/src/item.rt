//! Parts of forms: members of lists, catch clauses, and what classes and scopes declare.

use crate::form::Form;
use crate::member::Key;
use crate::pattern::Pattern;
use actx_text::BodyId;
use actx_value::{BinaryOp, Value};
use std::rc::Rc;

/// An operator that asks nothing and may leave its right operand out (ECMA-262 §13.13).
#[derive(Clone, Copy, Debug, PartialEq, Eq)]
pub enum Logic {
    /// `&&`: the right operand is due where the left one counts as true.
    And,
    /// `||`: the right operand is due where the left one doesn't count as true.
    Or,
    /// `??`: the right operand is due where the left one is `undefined` or `null`.
    Coalesce,
}

/// An operator of a chain, and its right operand.
#[cycle(form)]
#[derive(Drop)]
pub struct Operand {
    pub op: BinaryOp,
    pub right: Rc<Form>,
}

/// A value of a template, and the piece after it, where that isn't empty.
#[cycle(form)]
#[derive(Drop)]
pub struct Piece {
    pub value: Rc<Form>,
    pub after: Option<Value>,
}

/// A member of a list: an argument of a call or an element of an array.
#[cycle(form)]
#[derive(Drop)]
pub enum Argument {
    /// A value.
    One(Rc<Form>),
    /// `...` and a value, whose items stand in its place.
    Spread(Rc<Form>),
}

/// An entry of an object (ECMA-262 §13.2.5).
#[cycle(form)]
#[derive(Drop)]
pub enum Entry {
    /// A key and its value.
    Pair(Key, Rc<Form>),
    /// A key and a method of this body.
    Method(Key, BodyId),
    /// `...` and a value, whose properties are copied.
    Copied(Rc<Form>),
}

/// A member of a class but the constructor (ECMA-262 §15.7.13): whether it is static, its key, and the
/// body of the method.
#[derive(Clone, Copy)]
pub struct ClassMember {
    pub is_static: bool,
    pub key: Value,
    pub body: BodyId,
}

/// A function that a scope declares (ECMA-262 §14.2.3): its slot and its body.
#[derive(Clone, Copy)]
pub struct Declared {
    pub slot: u32,
    pub body: BodyId,
}

/// A catch clause (ECMA-262 §14.15.2).
#[cycle(form)]
#[derive(Drop)]
pub enum Caught {
    /// Without a target: its block.
    Unbound(Rc<Form>),
    /// With a target, in a scope of so many cells; and its block.
    Bound {
        cells: u32,
        target: Rc<Pattern>,
        block: Rc<Form>,
    },
}
