//! Names and early errors of a file: which slot each use of a name means, and which files are refused
//! before they run (the static semantics of ECMA-262 §13 to §16, for the profile of docs/SCOPES.md). A
//! walk over the tree, by the definitions of `actx_scope_rules`.
#![tactic(auto)]

mod bodies;
mod findings;
mod places;
mod repeats;
mod slots;
mod walk;

pub use actx_scope_rules::EarlyKind;
pub use slots::{ScopeError, Slots, check};
