//! What a body wants: the request that comes next, or its end, as a function of the answers so far
//! (the evaluation sections of ECMA-262 §8, §10, §13 to §15), and laws about it. There is no working
//! code: what resumes bodies stands above, and its contracts cite these definitions.
#![tactic(auto)]

mod completion;
mod examples;
mod laws;

pub use completion::Completion;
pub use examples::{
    a_chain_stops_at_nothing, a_finished_generator_runs_finally, a_let_loop_counts_in_copies,
    a_spread_ends_at_the_mark, a_super_call_binds_this, a_walk_left_early_is_closed,
    an_array_pattern_closes_its_walk, an_array_pattern_collects_the_rest,
    an_object_pattern_leaves_keys_out, an_update_asks_in_order, class_members_stand_in_order,
};
pub use laws::{
    forms_are_evaluated_by_their_parts, items_ask_tick_first, loops_ask_tick_first,
    meanings_are_local,
};
