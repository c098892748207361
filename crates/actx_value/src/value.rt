//! Values, property keys, and answers to requests.

use crate::ids::{ObjId, ScopeId, TextId};

/// A value (the language types of ECMA-262 §6.1). No program holds a `Scope` or a `Mark`.
#[derive(Clone, Copy, Debug, PartialEq, Eq, Hash)]
pub enum Value {
    /// The Undefined type.
    Undefined,
    /// The Null type.
    Null,
    /// The Boolean type.
    Bool(bool),
    /// The Number type: a safe integer, from -9007199254740991 to 9007199254740991, and never −0.
    Num(i64),
    /// The String type: a text by its number.
    Text(TextId),
    /// The Object type: an object by its number.
    Object(ObjId),
    /// A scope, which answers the requests that make one.
    Scope(ScopeId),
    /// What a walk answers when nothing is left.
    Mark,
}

/// A property key (ECMA-262 §6.1.7): an array index, or a text.
#[derive(Clone, Copy, Debug, PartialEq, Eq, Hash)]
pub enum Key {
    /// An index, from 0 to 4294967294.
    Index(u32),
    /// Any other text.
    Name(TextId),
}

/// How a body goes on after a request (the Completion Records of ECMA-262 §6.2.4).
#[derive(Clone, Copy, Debug, PartialEq, Eq)]
pub enum Answer {
    /// With this value.
    Go(Value),
    /// By throwing this value.
    Raise(Value),
    /// By returning this value, at a `yield`.
    Finish(Value),
}
