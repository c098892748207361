//! Statements, bodies of functions and whole files (ECMA-262 §14 and §16): the tree relation of the
//! grammar, a reader of it as a definition, and the laws that join them. The code that reads is not here.
#![tactic(auto)]

mod laws;

pub use laws::{counted_levels, few_levels, one_block, one_program, read_programs, small_programs};
