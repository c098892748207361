//! What is left to do in a body that has begun: items, what they mean, and what those of names,
//! operators, members and lists do with a value.
#![tactic(auto)]

mod items;
mod lists;
mod members;
mod names;
mod operators;
mod shared;

pub use items::{
    Chain, ChainEnd, ClassMembers, ClassStep, Control, Declarations, Elements, Ending, EntryStep,
    ForLoop, Item, KeyUse, List, ListEnd, ListStep, LoopStep, MemberStep, NameStep, Next, OfLoop,
    OfStep, OperatorStep, PatternStep, Properties, Spot, StatementStep, Step, WhileLoop,
};
pub use lists::{begin_list, go_on_list, resume_entry, resume_list};
pub use members::{begin_key, copy_change, copy_key, resume_member};
pub use names::{change, resume_name};
pub use operators::{next_piece, resume_operator};
pub use shared::{inside, is_mark, is_nullish, is_undefined, share};
