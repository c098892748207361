//! Scopes and their cells (Declarative Environment Records, ECMA-262 §9.1.1.1).
#![tactic(auto)]

mod cells;
mod span;

pub use cells::{Cells, Uninitialised};

#[cfg(test)]
mod tests;
