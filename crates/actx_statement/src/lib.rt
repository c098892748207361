//! Statements from tokens (ECMA-262 §14): the code that reads them, and lists of them.
#![tactic(auto)]

mod choices;
mod declarations;
mod ends;
mod fors;
mod jumps;
mod knot;
mod lists;
mod statements;
mod tries;
mod within;

pub use knot::read_items;

#[cfg(test)]
mod tests;
