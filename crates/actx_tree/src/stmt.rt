//! Statements and declarations (ECMA-262 §14).

use crate::expr::Expr;
use crate::function::{Class, Function};
use crate::pattern::{Elem, Target};
use sqlite_items::{Boxed, Items};

/// A statement or a declaration.
#[cycle(statement)]
#[derive(Drop)]
pub enum Stmt {
    /// `let`, or `const` where the first field says so, and what it binds.
    Let(bool, Items<Elem>),
    /// A function declaration; its name is there.
    Function(Function),
    /// A class declaration; its name is there.
    Class(Class),
    /// `{ .. }`
    Block(Items<Stmt>),
    /// `;`
    Empty,
    /// `if`, with or without `else`.
    If(Expr, Boxed<Stmt>, Option<Boxed<Stmt>>),
    /// `while`
    While(Expr, Boxed<Stmt>),
    /// `do .. while`
    Do(Boxed<Stmt>, Expr),
    /// `for` with its head: what comes first, the test, the update.
    For(ForInit, Option<Expr>, Option<Expr>, Boxed<Stmt>),
    /// `for (let target of value)`, or `const` where the first field says so.
    ForOf(bool, Target, Expr, Boxed<Stmt>),
    /// `return`, with or without a value.
    Return(Option<Expr>),
    /// `throw`
    Throw(Expr),
    /// `break`
    Break,
    /// `continue`
    Continue,
    /// `try`: its block, `catch` and `finally`, at least one of these.
    Try(Items<Stmt>, Option<Catch>, Option<Items<Stmt>>),
    /// An expression.
    Expr(Expr),
}

/// What comes first in the head of a `for`.
#[derive(Drop)]
pub enum ForInit {
    /// Nothing.
    Nothing,
    /// A declaration, as in `Stmt::Let`.
    Let(bool, Items<Elem>),
    /// An expression.
    Expr(Expr),
}

/// A catch clause: what the thrown value is bound to, and its block.
#[cycle(statement)]
#[derive(Drop)]
pub struct Catch {
    pub target: Option<Target>,
    pub block: Items<Stmt>,
}
