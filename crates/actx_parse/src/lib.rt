//! The tree of a file from its tokens (ECMA-262 §16): its statements, and the bodies of all functions
//! in it, read in their turn.
#![tactic(auto)]

mod files;
mod stops;
mod top;
mod worklist;

pub use actx_grammar::ParseError;
pub use actx_printing::{FirstError, Lit, one_printing, printing};
pub use top::{MAX_LEVELS, program};

#[cfg(test)]
mod tests;
