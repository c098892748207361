//! What the program can run so far: files of printing statements.
#![tactic(auto)]

mod laws;
mod lit;
mod literal;
mod statement;

pub use laws::one_printing;
pub use lit::{FirstError, Lit};
pub use statement::printing;

#[cfg(test)]
mod tests;
