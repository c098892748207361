//! Core forms.

use crate::item::{Argument, Caught, ClassMember, Declared, Entry, Logic, Operand, Piece};
use crate::member::{Change, Key, Suffix};
use crate::pattern::{Element, Pattern};
use actx_text::BodyId;
use actx_value::{UnaryOp, Value};
use std::rc::Rc;

/// A core form. A slot is a cell of a scope, by its place from 0; `hops` says how many scopes further
/// out than the present one that scope is. The section of ECMA-262 is the one that evaluates it.
#[cycle(form)]
#[derive(Drop)]
pub enum Form {
    /// A value that is written down (§13.2.3), and `undefined` where a form leaves a value out.
    Literal(Value),
    /// A name, or `this` (§13.1.3, §13.2.1): its scope and slot.
    Name {
        hops: u32,
        slot: u32,
    },
    /// A change of a name (§13.15.2, §13.4).
    ChangeName {
        hops: u32,
        slot: u32,
        change: Change,
    },
    /// A change of a member of an object (§13.15.2, §13.4).
    ChangeMember {
        object: Rc<Form>,
        key: Key,
        change: Change,
    },
    /// `delete` of a member at the end of a chain (§13.5.1): what the chain begins with, its suffixes
    /// before the last, whether `?.` stands before the last, and its key.
    Delete {
        base: Rc<Form>,
        suffixes: Rc<Vec<Suffix>>,
        optional: bool,
        key: Key,
    },
    /// An operator before its operand (§13.5).
    Unary {
        op: UnaryOp,
        operand: Rc<Form>,
    },
    /// `!` (§13.5.7)
    Not(Rc<Form>),
    /// `void` (§13.5.2)
    Void(Rc<Form>),
    /// A chain of operators of one level, grouped to the left (§13.15.4, §13.10, §13.11).
    Operators {
        first: Rc<Form>,
        operands: Rc<Vec<Operand>>,
    },
    /// A chain of `&&`, of `||` or of `??` (§13.13).
    Logical {
        op: Logic,
        first: Rc<Form>,
        operands: Rc<Vec<Rc<Form>>>,
    },
    /// `test ? yes : no`, and `if` (§13.14, §14.6).
    If {
        test: Rc<Form>,
        yes: Rc<Form>,
        no: Rc<Form>,
    },
    /// Forms one after another; it gives the value of the last one, and `undefined` where there is none
    /// (§13.16, §14.2).
    Sequence(Rc<Vec<Rc<Form>>>),
    /// A template: its first piece, and then values, each with the piece after it (§13.2.8.6).
    Template {
        first: Value,
        pieces: Rc<Vec<Piece>>,
    },
    /// A chain of suffixes (§13.3.2, §13.3.6, §13.3.9).
    Suffixes {
        base: Rc<Form>,
        suffixes: Rc<Vec<Suffix>>,
    },
    /// `super.name`, and the suffixes after it (§13.3.7): how far out the scope with `this` is, and the
    /// key.
    SuperMember {
        hops: u32,
        key: Value,
        suffixes: Rc<Vec<Suffix>>,
    },
    /// `new` (§13.3.5)
    New {
        callee: Rc<Form>,
        arguments: Rc<Vec<Argument>>,
    },
    /// `super(..)` (§13.3.7): how far out the scope with `this` is, and the arguments.
    SuperCall {
        hops: u32,
        arguments: Rc<Vec<Argument>>,
    },
    /// `[ .. ]` (§13.2.4)
    Array(Rc<Vec<Argument>>),
    /// `{ .. }` (§13.2.5)
    Object(Rc<Vec<Entry>>),
    /// A function or an arrow of this body (§15.2.5, §15.3.4).
    Function(BodyId),
    /// A class (§15.7.14): the body of its constructor, its parent, the key `prototype`, and its
    /// members but the constructor.
    Class {
        constructor: BodyId,
        parent: Option<Rc<Form>>,
        prototype: Value,
        members: Rc<Vec<ClassMember>>,
    },
    /// The first value of a cell of the present scope; it gives that value (§14.3.1).
    Init {
        slot: u32,
        value: Rc<Form>,
    },
    /// A declaration with a pattern (§14.3.3).
    Bind {
        pattern: Rc<Pattern>,
        value: Rc<Form>,
    },
    /// A scope of so many cells around a form, with the functions that it declares (§14.2.2).
    Block {
        cells: u32,
        functions: Rc<Vec<Declared>>,
        body: Rc<Form>,
    },
    /// `while` (§14.7.3)
    While {
        test: Rc<Form>,
        body: Rc<Form>,
    },
    /// `do` (§14.7.2)
    DoWhile {
        body: Rc<Form>,
        test: Rc<Form>,
    },
    /// `for` whose head declares nothing (§14.7.4).
    For {
        first: Rc<Form>,
        test: Rc<Form>,
        update: Rc<Form>,
        body: Rc<Form>,
    },
    /// `for` whose head declares so many names with `let` or `const` (§14.7.4).
    ForLet {
        cells: u32,
        first: Rc<Form>,
        test: Rc<Form>,
        update: Rc<Form>,
        body: Rc<Form>,
    },
    /// `for (.. of value)`, with so many names in each turn (§14.7.5).
    ForOf {
        cells: u32,
        target: Rc<Pattern>,
        value: Rc<Form>,
        body: Rc<Form>,
    },
    /// `break` (§14.9): how many loops inside the one that it leaves.
    Break(u32),
    /// `continue` (§14.8): how many loops inside the one that it goes on with.
    Continue(u32),
    /// `return` (§14.10)
    Return(Rc<Form>),
    /// `throw` (§14.14)
    Throw(Rc<Form>),
    /// `try` (§14.15)
    Try {
        block: Rc<Form>,
        catch: Option<Rc<Caught>>,
        finally: Option<Rc<Form>>,
    },
    /// `yield` (§15.5.5)
    Yield(Rc<Form>),
    /// `await` (§15.8.5)
    Await(Rc<Form>),
    /// The parameter of this place, from 0 (§10.2.11).
    Parameter {
        index: u32,
        element: Rc<Element>,
    },
    /// The parameter after `...`, from this place on (§15.1).
    RestParameter {
        index: u32,
        target: Rc<Pattern>,
    },
    /// The start of a generator's body, after its parameters (§15.5.2).
    Begin,
}
