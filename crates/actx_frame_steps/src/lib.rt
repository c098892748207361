//! What the items of patterns, statements, classes and loops do with a value, and what those that look
//! at every completion do with one.
#![tactic(auto)]

mod endings;
mod loops;
mod patterns;
mod statements;

pub use endings::resume_ending;
pub use loops::{do_turn, resume_loop, resume_of, while_turn};
pub use patterns::{bind, bind_element, resume_pattern};
pub use statements::{next_form, resume_class, resume_statement};
