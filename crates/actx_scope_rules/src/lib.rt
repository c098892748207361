//! Scopes of names and the conditions of early errors (the static semantics of ECMA-262 §13 to §16, for
//! the profile of docs/SCOPES.md): the definitions, what a part of a tree shows by itself, the slots
//! that each scope has, and the slot that a name means.
#![tactic(auto)]

mod bound;
mod conditions;
mod earlier;
mod early;
mod globals;
mod laws;
mod place;
mod scopes;
mod slot;
mod table;
mod words;

pub use bound::{
    add_elem, add_params, add_prop, add_stmt, hidden, hidden_of, slots_of_caught, slots_of_class,
    slots_of_first, slots_of_items, slots_of_target,
};
pub use conditions::{
    arrow_flow_of, either, has_bad_key, is_constructor_key, is_constructor_member,
    is_derived_constructor, is_member, is_wrong_constructor, method_error, name_error, unary_error,
    when,
};
pub use earlier::Earlier;
pub use early::{Early, EarlyKind};
pub use laws::{errors_in_order, forms_of_files, names_of_files, places_of_words};
pub use place::{Owner, Place, Role, file_place};
pub use scopes::Scopes;
pub use slot::{Found, Slot, Use};
pub use words::is_same;
