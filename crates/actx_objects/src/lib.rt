//! Objects and their properties, arrays, Maps and Sets (ECMA-262 §10.1, §10.4.2, §24.1, §24.2).
#![tactic(auto)]

mod array;
mod entries;
mod kind;
mod laws;
mod normal;
mod object;
mod objects;
mod order;
mod props;
mod refusal;
mod slot;

pub use entries::{Entries, Placed};
pub use kind::Kind;
pub use laws::names_are_equal_where_texts_are;
pub use object::Object;
pub use objects::Objects;
pub use props::{Prop, Props};
pub use refusal::{DeleteError, SetError};

#[cfg(test)]
mod tests;
