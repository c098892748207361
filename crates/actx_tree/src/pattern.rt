//! Patterns and parameters (ECMA-262 §14.3.3, §15.1).

use crate::expr::{Expr, Key};
use actx_text::Units;
use sqlite_items::{Boxed, Items};

/// What a declaration or a parameter binds.
#[cycle(tree)]
#[derive(Drop)]
pub enum Target {
    /// A name.
    Name(Units),
    /// An object pattern, and the name after `...`.
    Object(Items<Prop>, Option<Units>),
    /// An array pattern, and the name after `...`.
    Array(Items<Elem>, Option<Units>),
}

/// A property of an object pattern.
#[cycle(tree)]
#[derive(Drop)]
pub enum Prop {
    /// A name, bound to the property of that name; and its default.
    Shorthand(Units, Option<Boxed<Expr>>),
    /// A key, and what its value is bound to.
    Pair(Key, Elem),
}

/// A target and its default.
#[cycle(tree)]
#[derive(Drop)]
pub struct Elem {
    pub target: Target,
    pub default: Option<Boxed<Expr>>,
}

/// The parameters of a function, and the target after `...`.
#[cycle(tree)]
#[derive(Drop)]
pub struct Params {
    pub elems: Items<Elem>,
    pub rest: Option<Boxed<Target>>,
}
