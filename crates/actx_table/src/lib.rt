//! The built-in objects: their numbers, what each function is called as, the values of the global names, the
//! prototypes, and the type of the store in which they stand.
#![tactic(auto)]

mod built;
mod globals;
mod native_id;
mod store;
mod table;
mod words;

pub use built::{Built, Proto};
pub use globals::{global, prototype};
pub use native_id::NativeId;
pub use store::Store;
pub use table::{built_ins, callable};
pub use words::word;

#[cfg(test)]
mod tests;
