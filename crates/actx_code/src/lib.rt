//! Core forms: what the body of a function does, in a few forms, each of which says what it asks of the
//! machine and in which order (the evaluation sections of ECMA-262 §8, §13 to §15).
//!
//! A form holds its parts by `Rc`, and lists of parts by `Rc` of a `Vec`: who works on a form keeps the
//! parts that are still due without a copy of them. A chain of operators, a chain of suffixes, a list
//! and a sequence are one form each, so the depth of a form is that of the nesting in the source.
#![tactic(auto)]

mod body;
mod code;
mod form;
mod item;
mod member;
mod pattern;

pub use body::{Body, BodyKind};
pub use code::Code;
pub use form::Form;
pub use item::{Argument, Caught, ClassMember, Declared, Entry, Logic, Operand, Piece};
pub use member::{Change, Key, Suffix};
pub use pattern::{Element, Pattern, Property};

#[cfg(test)]
mod tests;
