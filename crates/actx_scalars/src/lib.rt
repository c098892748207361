//! The built-in functions of ECMA-262 that look at primitives alone and give one: `String`, `Number`,
//! `Boolean` and two tests of `Number`, ten methods of texts, and six functions of `Math`. What takes a
//! store around them stands elsewhere.
//!
//! Numbers are safe integers. Where ECMA-262 gives another number the answer is `OutOfProfile(Number)`,
//! and where a conversion needs more than is here it is `OutOfProfile(Conversion)`. A missing argument
//! is `undefined`, and a text number that isn't there counts as that of the empty text.
#![tactic(auto)]

mod answer;
mod arguments;
mod bounded;
mod calls;
mod conversions;
mod cut;
mod functions;
mod laws;
mod math;
mod natives;
mod padding;
mod pieces;
mod places;
mod search;
mod searches;
mod split_out;
mod splitting;

pub use bounded::Bounded;
pub use calls::scalar;
pub use laws::{lengths_are_told, pieces_join, places_are_first};
pub use natives::{MathFunction, Scalar, TextMethod, ValueFunction};
pub use split_out::{Pieces, SplitOut};
pub use splitting::split;

#[cfg(test)]
mod tests;
