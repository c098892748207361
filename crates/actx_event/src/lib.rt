//! Events of a run, and what they say of each read: brackets, the causal walk, the nearest
//! binding, the mappings that are carried from event to event, and which logs are valid.
#![tactic(auto)]

mod bracket;
mod checking;
mod event;
pub mod laws;
mod open_brackets;
mod search;
mod valid;
mod value;
mod walk;

pub use bracket::{Bracket, Open};
pub use checking::first_failure;
pub use event::{AsyncId, Event, Numbered, SnapId, VarId, VarKind};
pub use open_brackets::{exec, nests, opened};
pub use valid::{Failure, Rule};
pub use value::Shown;
pub use walk::{causal_step, chain, met_binding, nearest_binding};

#[cfg(test)]
mod tests;
