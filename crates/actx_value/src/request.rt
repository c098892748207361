//! What the body of a function asks of the machine.

use crate::ids::ScopeId;
use crate::operator::{BinaryOp, UnaryOp};
use crate::value::Value;
use actx_text::BodyId;

/// A request of a body, one at a time, which the machine answers. Where one is said to have a list,
/// that list stands beside it.
#[derive(Clone, Copy, Debug, PartialEq, Eq)]
pub enum Request {
    /// The next turn of a loop.
    Tick,
    /// A new scope in `parent` with `count` cells that aren't initialised; answered by its number
    /// (NewDeclarativeEnvironment, ECMA-262 §9.1.2.2).
    Scope {
        parent: ScopeId,
        count: u32,
    },
    /// A copy of a scope and its cells; answered by its number
    /// (CreatePerIterationEnvironment, ECMA-262 §14.7.4.4).
    Fork {
        scope: ScopeId,
    },
    /// The first value of a cell, `hops` scopes further out (InitializeBinding, ECMA-262 §9.1.1.1.4). All
    /// but `this` behind `super(..)` are initialised in the scope itself, where `hops` is 0.
    Init {
        scope: ScopeId,
        hops: u32,
        slot: u32,
        value: Value,
    },
    /// The value of a cell, `hops` scopes further out (GetBindingValue, ECMA-262 §9.1.1.1.6).
    Load {
        scope: ScopeId,
        hops: u32,
        slot: u32,
    },
    /// A write to a cell, `hops` scopes further out (SetMutableBinding, ECMA-262 §9.1.1.1.5).
    Store {
        scope: ScopeId,
        hops: u32,
        slot: u32,
        value: Value,
    },
    /// An operator before a value (ECMA-262 §13.5).
    Unary {
        op: UnaryOp,
        value: Value,
    },
    /// An operator between two values (ECMA-262 §13.15.4 and §13.10, §13.11).
    Binary {
        op: BinaryOp,
        left: Value,
        right: Value,
    },
    /// A value as a text (ToString, ECMA-262 §7.1.17).
    ToText {
        value: Value,
    },
    /// A value as a property key (ToPropertyKey, ECMA-262 §7.1.19).
    ToKey {
        value: Value,
    },
    /// A new plain object (ECMA-262 §13.2.5).
    Object,
    /// A new array of the values of the list (ECMA-262 §13.2.4).
    Array,
    /// A property (ECMA-262 §13.3.2).
    Get {
        object: Value,
        key: Value,
    },
    /// A write to a property (PutValue, ECMA-262 §6.2.5.6).
    Set {
        object: Value,
        key: Value,
        value: Value,
    },
    /// The end of a property (ECMA-262 §13.5.1).
    Delete {
        object: Value,
        key: Value,
    },
    /// A property of an object that is being written down (CreateDataPropertyOrThrow,
    /// ECMA-262 §7.3.7).
    Define {
        object: Value,
        key: Value,
        value: Value,
    },
    /// A method as a hidden property (DefineMethodProperty, ECMA-262 §10.2.8).
    DefineMethod {
        object: Value,
        key: Value,
        value: Value,
    },
    /// The visible properties of `from` into `object` (CopyDataProperties, ECMA-262 §7.3.25).
    Copy {
        object: Value,
        from: Value,
    },
    /// A new object of the visible properties of `from` but those whose keys the list holds
    /// (RestBindingInitialization, ECMA-262 §14.3.3.2).
    Rest {
        from: Value,
    },
    /// A property of the prototype of `home`, for this receiver (ECMA-262 §13.3.7).
    SuperGet {
        home: Value,
        key: Value,
        this: Value,
    },
    /// A function of this body (ECMA-262 §15.2.5).
    Function {
        body: BodyId,
        scope: ScopeId,
    },
    /// A method of this body and home object (DefineMethod, ECMA-262 §15.4.4).
    Method {
        body: BodyId,
        scope: ScopeId,
        home: Value,
    },
    /// A class whose constructor is this body, with the parent of its `extends` where it has one
    /// (ClassDefinitionEvaluation, ECMA-262 §15.7.14).
    Class {
        body: BodyId,
        scope: ScopeId,
        parent: Option<Value>,
    },
    /// An argument of the call, by its place from 0; `undefined` past the last.
    Arg {
        index: u32,
    },
    /// A new array of the arguments of the call from this place on.
    ArgsFrom {
        index: u32,
    },
    /// A call with the arguments of the list (Call, ECMA-262 §7.3.14).
    Call {
        callee: Value,
        this: Value,
    },
    /// A `new` with the arguments of the list (Construct, ECMA-262 §7.3.15).
    New {
        callee: Value,
    },
    /// `super(..)` in the constructor `callee`, with the arguments of the list
    /// (ECMA-262 §13.3.7.1).
    SuperCall {
        callee: Value,
    },
    /// A walk over a value (GetIterator, ECMA-262 §7.4.4).
    Open {
        value: Value,
    },
    /// The next item of a walk, or a mark where none is left (IteratorStepValue, ECMA-262 §7.4.10).
    Next {
        walk: Value,
    },
    /// The early end of a walk (IteratorClose, ECMA-262 §7.4.11).
    Close {
        walk: Value,
    },
    /// The start of a generator's body, after its parameters (ECMA-262 §15.5.2).
    Begin,
    /// `yield` (ECMA-262 §27.5.3.7).
    Yield {
        value: Value,
    },
    /// `await` (ECMA-262 §27.7.5.3).
    Await {
        value: Value,
    },
}
