//! A cursor over tokens, and what the lines of the grammar get for the nodes that lie in a node.
#![tactic(auto)]

mod brackets;
mod cursor;
mod heads;
mod inner;
mod starts;
mod symbols;
mod tokens;
mod words;

pub use cursor::Cursor;
pub use inner::Inner;
pub use starts::goes_on_line;
pub use words::{kind_of, same_units, word_of};
