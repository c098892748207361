//! Core forms of trees of programs (ECMA-262 §13 to §16), as contracts speak of them: what a file
//! becomes, and laws about it.
#![tactic(auto)]

mod core_form;
mod core_parts;
mod laws;
mod meaning;

pub use core_form::Core;
pub use core_parts::{
    CoreArgument, CoreCaught, CoreChange, CoreElement, CoreEntry, CoreKey, CoreOperand,
    CorePattern, CorePiece, CoreProperty, CoreSuffix,
};
pub use laws::{
    bundle_of_functions, classes_of_files, functions_of_files, names_of_files, operators_of_files,
    statements_of_files, texts_of_files, trees_follow,
};
pub use meaning::Meaning;
