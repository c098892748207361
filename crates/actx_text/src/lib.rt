//! Texts of a program: lists of UTF-16 units (ECMA-262 §6.1.4).
#![tactic(auto)]

mod body_id;
mod decode;
mod encode;
mod error;
mod laws;
mod number;
mod order;
mod pieces;
mod quoting;
mod units;

pub use body_id::BodyId;
pub use decode::from_utf8;
pub use encode::to_utf8;
pub use error::TextError;
pub use laws::{bytes_round_trip, one_decoding, one_reading, text_round_trip, units_fit};
pub use number::number_text;
pub use order::{compare, same};
pub use pieces::{at, concat, copy, len, slice};
pub use quoting::quoted;
pub use units::{Units, as_units, from_units};

#[cfg(test)]
mod tests;
