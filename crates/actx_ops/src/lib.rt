//! Operators and conversions on values (ECMA-262 §7.1, §7.2, §13.15). Numbers are safe integers: where
//! ECMA-262 gives another number, or a conversion needs more than is here, the answer says so.
#![tactic(auto)]

mod answer;
mod arithmetic;
mod convert;
mod decimal;
mod equality;
mod laws;
mod operators;
mod out;
mod plus;
mod relation;

pub use actx_value::Op;
pub use convert::{key_of, to_key, to_text};
pub use laws::texts_of_numbers_are_read;
pub use operators::apply;
pub use out::OpOut;

#[cfg(test)]
mod tests;
