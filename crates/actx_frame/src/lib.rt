//! Frames of bodies: a body that has begun, what it wants now, and how it goes on with an answer. What a
//! frame wants is what its body wants after all answers so far, which the frame doesn't keep.
#![tactic(auto)]

mod begin;
mod enter;
mod frame;
mod machine;

pub use frame::Frame;
pub use machine::Want;

#[cfg(test)]
mod tests;
