//! Worked examples of what forms want. The functions do nothing: the contract of each is the example.

ghost use Rattle.actx_want.specs.CallExamples.{StopsAtNothing, SpreadsUntilTheMark, SuperBindsThis, MembersStandInOrder};
ghost use Rattle.actx_want.specs.PatternExamples.{ClosesOpenWalks, CollectsTheRest, LeavesKeysOut};
ghost use Rattle.actx_want.specs.Examples.{UpdatesInOrder, CountsInCopies, ClosesWhatItLeaves, FinishesInOrder};

/// `object[key] op= right` asks ToKey, Get, Binary and Set, in this order.
pub fn an_update_asks_in_order()
    ensures { UpdatesInOrder }
{}

/// `for (let i = ..; i; ++i) ;` asks Scope, Init and Fork, and in each turn Tick, Load, Fork, and then
/// what the update asks in the new copy.
pub fn a_let_loop_counts_in_copies()
    ensures { CountsInCopies }
{}

/// `for (const x of value) ..` that is left early asks Close, and then goes on as its body ended. A throw
/// of the body wins over one of Close; a throw of Next closes nothing.
pub fn a_walk_left_early_is_closed()
    ensures { ClosesWhatItLeaves }
{}

/// `try { yield a } finally { yield b }` that is finished by `return` runs its finally block first.
pub fn a_finished_generator_runs_finally()
    ensures { FinishesInOrder }
{}

/// `base?.key(argument)` asks Get and Call, with the base as receiver, and nothing after `undefined` or
/// `null`; `delete base?.key` gives true there.
pub fn a_chain_stops_at_nothing()
    ensures { StopsAtNothing }
{}

/// `f(...items, last)` asks Open, and Tick and Next until the mark, and then Call.
pub fn a_spread_ends_at_the_mark()
    ensures { SpreadsUntilTheMark }
{}

/// `super(argument)` asks Load, SuperCall, and Init of `this`.
pub fn a_super_call_binds_this()
    ensures { SuperBindsThis }
{}

/// `class extends parent { .. }` asks Class, Get of `prototype`, and Method and DefineMethod for each
/// member, a static one on the class.
pub fn class_members_stand_in_order()
    ensures { MembersStandInOrder }
{}

/// `const [a = default, b] = value` asks Open, Next and Init, and Close where the end wasn't met; a default
/// stands for `undefined` alone, and one that throws closes the walk.
pub fn an_array_pattern_closes_its_walk()
    ensures { ClosesOpenWalks }
{}

/// `const [a, ...rest] = value` asks Tick and Next until the mark, and Array.
pub fn an_array_pattern_collects_the_rest()
    ensures { CollectsTheRest }
{}

/// `const { key: a = default, ...rest } = value` asks Get, Init, and Rest without the keys before it.
pub fn an_object_pattern_leaves_keys_out()
    ensures { LeavesKeysOut }
{}
