//! The laws of the definitions. Each function here does nothing: its contract is the law.

ghost use Rattle.actx_want.specs.Run.{Run};
ghost use Rattle.actx_world.specs.Rests.{Replay};
ghost use Rattle.actx_world.specs.Keeping.{ReplaysAreRests};
ghost use Rattle.actx_world.specs.Laws.{BothWorldsAreSame, EventsNest, LimitsHold, RequestsMeetLimits, LastIsFirst, EndedWorldsStay, StacksStandWell, EventsGrow, LogsAreValid};

/// The world with mappings carried has the events, the state and the end of the world with reads by the causal
/// walk, after every number of moves, however bodies are kept.
pub fn same_events()
    ensures rests { BothWorldsAreSame Run }
    ensures replays { BothWorldsAreSame Replay }
{}

/// The open brackets of the events are the closing items on the stack, and each closing event has an
/// opener, after every number of moves.
pub fn nesting()
    ensures rests { EventsNest Run }
    ensures replays { EventsNest Replay }
{}

/// A run whose bodies are evaluated again with each answer is, after every number of moves, the run whose
/// bodies go on from where they are.
pub fn replaying()
    ensures { ReplaysAreRests }
{}

/// No count of a world is above its limit; and where that was so before a request, the limit that the
/// request meets is the first count above its own after it.
pub fn limits()
    ensures rests { LimitsHold Run }
    ensures replays { LimitsHold Replay }
    ensures requests { RequestsMeetLimits }
{}

/// The last step of a run is the first world at which an end holds, and else the one where the budget or
/// the tape ends; where an end holds, there is no further move.
pub fn last_step()
    ensures rests { LastIsFirst Run }
    ensures replays { LastIsFirst Replay }
    ensures rests_stay { EndedWorldsStay Run }
    ensures replays_stay { EndedWorldsStay Replay }
{}

/// After every number of moves a Do stands on top alone and with an empty hand, a closing item on top
/// meets a completion, and the lowest item is a closing item, where anything but the main script's Do
/// stands.
pub fn standing()
    ensures rests { StacksStandWell Run }
    ensures replays { StacksStandWell Replay }
{}

/// What was added to the events stays.
pub fn growing()
    ensures rests { EventsGrow Run }
    ensures replays { EventsGrow Replay }
{}

/// No event breaks a rule of valid logs, after every number of moves; the log of a finished run is valid.
pub fn validity()
    ensures rests { LogsAreValid Run }
    ensures replays { LogsAreValid Replay }
{}
