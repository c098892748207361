//! Functions, methods and classes.

use crate::expr::{Expr, Key};
use crate::pattern::Params;
use actx_text::Units;
use sqlite_items::{Boxed, Items};

/// How a body runs.
#[derive(Clone, Copy, Debug, PartialEq, Eq)]
pub enum Flow {
    /// To its end.
    Plain,
    /// `async`: with `await`.
    Async,
    /// `*`: with `yield`.
    Generator,
}

/// The body of a function as a range of tokens that aren't read with it. A place is the number of
/// tokens that are left there: `from` after the bracket that opens the body, `to` after the one that
/// closes it.
#[derive(Clone, Copy, Debug, PartialEq, Eq)]
pub struct Unread {
    pub from: usize,
    pub to: usize,
}

/// The body of a function in a tree, and the number of nodes around its statements: the functions,
/// statements, patterns and expressions that it lies in, its own function among them.
#[derive(Clone, Copy, Debug, PartialEq, Eq)]
pub struct Nested {
    pub range: Unread,
    pub depth: usize,
}

/// A function, declared or as an expression (ECMA-262 §15.2, §15.5, §15.8).
#[cycle(tree)]
#[derive(Drop)]
pub struct Function {
    pub flow: Flow,
    pub name: Option<Units>,
    pub params: Params,
    pub body: Unread,
}

/// A method of an object or a class (ECMA-262 §15.4).
#[cycle(tree)]
#[derive(Drop)]
pub struct Method {
    pub flow: Flow,
    pub key: Key,
    pub params: Params,
    pub body: Unread,
}

/// A class, declared or as an expression (ECMA-262 §15.7).
#[cycle(tree)]
#[derive(Drop)]
pub struct Class {
    pub name: Option<Units>,
    pub parent: Option<Boxed<Expr>>,
    pub members: Items<Member>,
}

/// A method of a class; whether it is static.
#[cycle(tree)]
#[derive(Drop)]
pub struct Member {
    pub is_static: bool,
    pub method: Method,
}
