//! The job semantics: the state of a run, what one move is, how a run ends, and laws about its events
//! (the execution contexts and jobs of ECMA-262 §9.4, §9.5, §10.2, §10.3, §10.4.1). There is no
//! working code: the machine stands above, and its contracts cite these definitions.
#![tactic(auto)]

mod examples;
mod handed;
mod laws;
mod phase;

pub use examples::{
    a_class_is_made, a_derived_class_is_made, a_division_leaves_the_profile, a_function_is_bound,
    a_function_is_called, a_throw_ends_the_run, an_array_is_walked, an_arrow_calls_super,
    an_empty_file_is_three_moves, an_error_is_caught, call_and_apply_cost_a_call,
    files_of_several_functions, maps_sets_and_texts_are_walked, types_are_printed,
};
pub use handed::{BodyEnd, Handed};
pub use laws::{growing, last_step, limits, nesting, replaying, same_events, standing, validity};
pub use phase::{LastJob, LoopPhase};
