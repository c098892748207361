//! The opening store of a run: its texts, and the built-in objects with their properties.
#![tactic(auto)]

mod held;
mod laws;
mod member;
mod named;
mod start;
mod starts;
mod store;
mod texts;
mod words;

pub use actx_table::Store;
pub use laws::{
    built_ins_come_first, kinds_are_those_of_the_table, members_are_apart, texts_stand_in_order,
    words_are_there,
};
pub use member::{Given, Member};
pub use start::Start;
pub use store::opening;

#[cfg(test)]
mod tests;
