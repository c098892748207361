//! Expressions.

use crate::function::{Class, Function, Method, Unread};
use crate::operator::{AssignOp, BinaryOp, StepOp, UnaryOp};
use crate::pattern::Params;
use actx_text::Units;
use sqlite_items::{Boxed, Items};

/// An expression (ECMA-262 §13 and the expressions of §15).
#[cycle(tree)]
#[derive(Drop)]
pub enum Expr {
    /// A use of a name.
    Name(Units),
    /// A number, from 0 to 9007199254740991.
    Number(i64),
    /// A text.
    Text(Units),
    /// `true` or `false`.
    Bool(bool),
    /// `null`
    Null,
    /// `this`
    This,
    /// A template: its first piece, and then values, each with the piece after it.
    Template(Units, Items<Piece>),
    /// `( .. )`
    Brackets(Boxed<Expr>),
    /// `[ .. ]`
    Array(Items<Argument>),
    /// `{ .. }`
    Object(Items<Entry>),
    /// `super( .. )`
    SuperCall(Items<Argument>),
    /// `super.name`
    SuperMember(Units),
    /// A function expression.
    Function(Function),
    /// A class expression.
    Class(Class),
    /// `new`, what is made, the members after it, and the arguments, if there are brackets for them.
    New(Boxed<Expr>, Items<Suffix>, Option<Items<Argument>>),
    /// A chain of suffixes, at least one.
    Left(Boxed<Expr>, Items<Suffix>),
    /// `++` or `--` before a place.
    StepBefore(StepOp, Boxed<Expr>),
    /// `++` or `--` after a place.
    StepAfter(Boxed<Expr>, StepOp),
    /// An operator before its operand.
    Unary(UnaryOp, Boxed<Expr>),
    /// A chain of operators of one level, at least one, grouped to the left.
    Chain(Boxed<Expr>, Items<Operand>),
    /// `test ? yes : no`
    Conditional(Boxed<Expr>, Boxed<Expr>, Boxed<Expr>),
    /// An assignment to a place.
    Assign(Boxed<Expr>, AssignOp, Boxed<Expr>),
    /// `yield`, with or without an operand.
    Yield(Option<Boxed<Expr>>),
    /// An arrow function whose body is an expression; whether it is async, and its parameters.
    Arrow(bool, Params, Boxed<Expr>),
    /// An arrow function whose body is a block.
    ArrowBlock(bool, Params, Unread),
    /// Expressions with `,` between, at least two.
    Comma(Boxed<Expr>, Items<Expr>),
}

/// A value of a template, and the piece after it.
#[cycle(tree)]
#[derive(Drop)]
pub struct Piece {
    pub value: Expr,
    pub after: Units,
}

/// A member of a list: an argument of a call or an element of an array.
#[cycle(tree)]
#[derive(Drop)]
pub enum Argument {
    /// A value.
    One(Expr),
    /// `...` and a value, whose items stand in its place.
    Spread(Expr),
}

/// An entry of an object (ECMA-262 §13.2.5).
#[cycle(tree)]
#[derive(Drop)]
pub enum Entry {
    /// `...` and a value, whose properties are copied.
    Spread(Expr),
    /// A name alone: its own value under it.
    Shorthand(Units),
    /// A key and its value.
    Pair(Key, Expr),
    /// A method.
    Method(Method),
}

/// A key of an object, a class or a pattern.
#[cycle(tree)]
#[derive(Drop)]
pub enum Key {
    /// A word, reserved or not.
    Word(Units),
    /// A text.
    Text(Units),
    /// A number.
    Number(i64),
    /// `[ .. ]`
    Computed(Boxed<Expr>),
}

/// What follows a value in a chain; the first field says that `?.` stands before it.
#[cycle(tree)]
#[derive(Drop)]
pub enum Suffix {
    /// `.name`
    Member(bool, Units),
    /// `[ .. ]`
    Index(bool, Expr),
    /// `( .. )`
    Call(bool, Items<Argument>),
}

/// An operator of a chain, and its right operand.
#[cycle(tree)]
#[derive(Drop)]
pub struct Operand {
    pub op: BinaryOp,
    pub right: Expr,
}
