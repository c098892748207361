//! Printed forms: what `console.log` writes of a value.
#![tactic(auto)]

mod forms;
mod fronts;
mod items;
mod kinds;
mod lone;
mod pushes;
mod quotes;
mod reads;

pub use forms::{line, shown};
pub use items::Item;

#[cfg(test)]
mod tests;
