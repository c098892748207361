//! Expressions from tokens (ECMA-262 §13 to §15): the tree relation of the grammar, a reader of it as
//! a definition, and the laws that join them. The code that reads stands in the crates above.
#![tactic(auto)]

mod bracket;
mod end;
mod error;
mod kind;
mod laws;
mod line;
mod word;

pub use bracket::Bracket;
pub use end::End;
pub use error::{Cause, ParseError};
pub use kind::Kind;
pub use laws::{
    counted_levels, one_assign, one_expression, one_left, one_params, one_target, reached_bodies,
    small_trees,
};
pub use line::Line;
pub use word::Word;
