//! Bodies of functions.

use crate::form::Form;
use actx_tree::Flow;

/// What a body belongs to.
#[derive(Clone, Copy, Debug, PartialEq, Eq)]
pub enum BodyKind {
    /// A file.
    File,
    /// A function, declared or as an expression (ECMA-262 §15.2).
    Function,
    /// An arrow function (§15.3). It has no `this` of its own.
    Arrow,
    /// A method (§15.4).
    Method,
    /// The constructor of a class without `extends` (§15.7).
    Class,
    /// The constructor of a class with `extends`. Its `this` has no value before `super(..)`.
    DerivedClass,
}

/// The body of a function, of a file, or of a constructor.
#[derive(Drop)]
pub struct Body {
    /// What it belongs to.
    pub kind: BodyKind,
    /// How it runs.
    pub flow: Flow,
    /// The number of the text that is the function's name; 0, the empty text, where it has none.
    pub name: u32,
    /// Whether its parameter scope has the hidden slots 0 `this`, 1 the function, 2 the home object.
    pub hidden: bool,
    /// The number of cells of its parameter scope, the hidden ones among them.
    pub cells: u32,
    /// What it does: its parameters first, and then its statements.
    pub form: Form,
}
