//! The built-in objects and functions of a run: their numbers and names, the store with which a run opens, printed forms,
//! and the modules that `require` gives.
#![tactic(auto)]

mod modules;
mod printed;

pub use actx_opening::opening;
pub use actx_table::{Built, NativeId, Proto, Store, built_ins, callable, global, prototype, word};
pub use modules::module;
pub use printed::{line, shown};

#[cfg(test)]
mod tests;
