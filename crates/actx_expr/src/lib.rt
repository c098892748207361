//! Code that reads whole expressions from tokens (ECMA-262 §13 to §15): operators, assignments,
//! arrow functions, and the public calls.
#![tactic(auto)]

mod ahead;
mod arrows;
mod assigns;
mod calls;
mod chains;
mod conditionals;
mod exprs;
mod knot;
mod operators;
mod readers;
mod unaries;

pub use calls::{MAX_LEVELS, assign, expression, left, params, target};
pub use readers::{read_class, read_function, read_line, read_params, read_target};
