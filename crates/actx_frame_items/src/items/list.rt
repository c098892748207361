//! Items of lists, calls and objects.

use crate::items::Chain;
use actx_code::{Argument, Entry};
use actx_value::{ScopeId, Value};
use std::rc::Rc;

/// What is done with a list when it is whole.
#[derive(Drop)]
pub enum ListEnd {
    /// A call: the chain goes on with what it gives; the receiver, and what is called.
    Call(Chain, Value, Value),
    /// A `new` of this value.
    New(Value),
    /// `super(..)` in this constructor, and how far out `this` is.
    Super(Value, u32, ScopeId),
    /// An array.
    Array,
}

/// A list that is being made: its values so far, and its members from the one at this place on.
#[derive(Drop)]
pub struct List {
    pub done: Vec<Value>,
    pub members: Rc<Vec<Argument>>,
    pub at: usize,
    pub place: ScopeId,
    pub end: ListEnd,
}

/// What is done with a value in the course of a list.
#[derive(Drop)]
pub enum ListStep {
    /// It is a member.
    Adding(List),
    /// It is walked, and its items are members.
    Opening(List),
    /// It is the walk.
    Opened(List),
    /// It answers the Tick before the next item of this walk.
    Taking(List, Value),
    /// It is the next item of this walk, or the mark.
    Coming(List, Value),
    /// It is what `new` makes an object of.
    Making(Rc<Vec<Argument>>, ScopeId),
    /// It is the constructor, of `super(..)`: how far out `this` is, and the arguments.
    SuperCalling(u32, Rc<Vec<Argument>>, ScopeId),
    /// It is `this` from now on: how far out its cell is.
    ThisBound(u32, ScopeId),
}

/// What is done with a value in the course of an object.
#[derive(Drop)]
pub enum EntryStep {
    /// It is the new object.
    Filling(Rc<Vec<Entry>>, ScopeId),
    /// It answers an entry of this object; the one at this place is due.
    Filled(Rc<Vec<Entry>>, usize, ScopeId, Value),
    /// It is the value of a property of this object and key.
    Defining(Value, Value),
    /// Its properties are copied into this object.
    Copying(Value),
}
