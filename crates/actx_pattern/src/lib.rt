//! Patterns, parameters, functions, methods and classes from tokens (ECMA-262 §14.3.3, §15.1 to
//! §15.8). Bodies of functions are passed over: a node keeps the range of tokens of its body.
#![tactic(auto)]

mod classes;
mod commas;
mod elements;
mod functions;
mod methods;
mod parameters;
mod properties;
mod targets;
#[cfg(test)]
mod tests;

pub use classes::{class, heritage, member, members, plain_method};
pub use commas::list_goes_on;
pub use elements::{default_value, elem, elems};
pub use functions::function;
pub use methods::{key, method_tail};
pub use parameters::{params, rest_target};
pub use properties::{prop, props};
pub use targets::{pattern, read_name_target, read_target};
