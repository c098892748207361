//! Items of keys, members and suffixes.

use actx_code::{Change, Form, Key, Suffix};
use actx_text::BodyId;
use actx_value::{ScopeId, Value};
use std::rc::Rc;

/// What is done at the end of a chain of suffixes.
#[derive(Drop)]
pub enum ChainEnd {
    /// Its value is given.
    Give,
    /// A member of its value is deleted: whether `?.` stands before it, and its key.
    Delete(bool, Key),
}

/// A chain of suffixes from the one at this place on.
#[derive(Drop)]
pub struct Chain {
    pub suffixes: Rc<Vec<Suffix>>,
    pub at: usize,
    pub place: ScopeId,
    pub end: ChainEnd,
}

/// What is done with a key.
#[derive(Drop)]
pub enum KeyUse {
    /// The member of this object is changed.
    Change(Value, Change, ScopeId),
    /// The member of this value is read, and the chain goes on.
    Get(Chain, Value),
    /// The member of this value is deleted.
    Delete(Value),
    /// A property of this object is defined by the form's value.
    Pair(Rc<Form>, ScopeId, Value),
    /// A method of this object is defined, in this scope.
    Method(BodyId, ScopeId, Value),
}

/// What is done with a value in the course of a chain of suffixes.
#[derive(Drop)]
pub enum MemberStep {
    /// It stood in the brackets.
    Keying(KeyUse),
    /// It is the key.
    Keyed(KeyUse),
    /// It is the object whose member is changed.
    AtObject(Key, Change, ScopeId),
    /// It is the value of the chain so far, with this receiver.
    Following(Chain, Value),
    /// It is `this`, of `super.name`: the key and the home object.
    SuperThis(Value, Value, Chain),
    /// It is the home object, of `super.name`: how far out `this` is, and the key.
    SuperHome(u32, Value, Chain),
}
