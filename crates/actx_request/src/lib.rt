//! The answers to the requests of a body that need neither a call nor the inner part of an object: on scopes, operators,
//! arguments, properties, and new objects.
#![tactic(auto)]

mod answering;
mod arguments;
mod copies;
mod given;
mod groups;
mod home;
mod keys;
mod lists;
mod members;
mod operators;
mod pairs;
mod requests;
mod scopes;
mod sources;
mod units;
mod writes;

pub use answering::answer;
pub use given::Given;
pub use home::Home;
pub use requests::plain;

#[cfg(test)]
mod tests;
