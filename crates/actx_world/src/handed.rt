//! Completions on their way, and what the end of a body does.

use actx_value::{ObjId, Value};

/// A value or a throw on its way to the top item of the stack (Completion Records, ECMA-262 §6.2.4).
#[derive(Clone, Copy, Debug, PartialEq, Eq)]
pub enum Handed {
    /// This value.
    Gives(Value),
    /// A throw of this value.
    Throws(Value),
}

/// What the end of a body does.
#[derive(Clone, Copy, Debug, PartialEq, Eq)]
pub enum BodyEnd {
    /// It hands its completion on (ECMA-262 §10.2.1).
    Plain,
    /// Of a constructor that was given this object as `this`: a value that is no object gives way to it
    /// (§10.2.2).
    Constructor(ObjId),
    /// Of the constructor of a class with `extends`: `undefined` gives way to the value of `this`
    /// (§10.2.2).
    DerivedConstructor,
}
