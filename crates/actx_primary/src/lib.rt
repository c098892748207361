//! Reads the parts of expressions that bind closest: primaries, `new`, and the suffixes behind them
//! (ECMA-262 §13.2, §13.3).
#![tactic(auto)]

mod kinds;
mod lefts;
mod literals;
mod members;
mod news;
mod objects;
mod places;
mod primaries;
mod templates;
mod values;

pub use kinds::{
    begins_member, begins_suffix, is_colon, is_dots, is_new_word, is_open_parenthesis,
};
pub use lefts::{left, left_after};
pub use literals::{array, brackets, object};
pub use members::{index, member_suffix, member_suffixes, optional_suffix, suffix, suffixes};
pub use news::{made, new_after, new_form};
pub use objects::{entries, entry, keyed, pair_or_method, spread_entry};
pub use places::{is_logical, is_place};
pub use primaries::{function_expression, named, primary, super_form};
pub use templates::{pieces, template};
pub use values::{args, argument, arguments};
