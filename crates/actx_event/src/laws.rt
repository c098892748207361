//! The laws of the definitions. Each function here does nothing: its contract is the law.

ghost use Rattle.actx_event.specs.Examples.{BracketsExample, ExecutionExample, WalkExample, MappingsExample, OffExample, ValidExample};
ghost use Rattle.actx_event.specs.Laws.{NestsWherePrefixOfClosed, CarriedAgrees, EachEventKeepsAgreement, ReadsAreNearest, ExecutionIsInnermost, TriggerIsInnermost, DeclarationIsFirst, EachEventKeepsStanding, StandingGivesSame, NewestEntriesSuffice, StepsGoDown, StepsAgree, OpenedAgree, MetAgree, WalkEnds, WalkGoesOn, NearestAgree, ChainsAgree, ValidWhereRulesMet, ValidReadsAreNearest, ValidLogsAreClosed, FailureIsFirst, ClosingFailsLast};

/// A list of events nests exactly where it is the beginning of a closed list.
pub fn nesting()
    ensures { NestsWherePrefixOfClosed }
{}

/// The mappings that are carried from event to event agree with the causal walk, after every list of
/// events, whatever made it.
pub fn agreement()
    ensures everywhere { CarriedAgrees }
    ensures kept { EachEventKeepsAgreement }
{}

/// What is carried gives each read the nearest binding's value, and the execution identifier and the
/// trigger of the innermost open resource, after every list of events.
pub fn reading()
    ensures value { ReadsAreNearest }
    ensures execution { ExecutionIsInnermost }
    ensures trigger { TriggerIsInnermost }
    ensures declaration { DeclarationIsFirst }
{}

/// A state that keeps the newest entry of each variable alone may stand for the fold over all events.
pub fn standing()
    ensures kept { EachEventKeepsStanding }
    ensures same { StandingGivesSame }
    ensures newest { NewestEntriesSuffice }
{}

/// Each step of the walk goes to a smaller place, by numbers as on fronts.
pub fn stepping()
    ensures smaller { StepsGoDown }
    ensures numbers { StepsAgree }
{}

/// The definitions by numbers of events are those on fronts.
pub fn numbering()
    ensures opened { OpenedAgree }
    ensures met { MetAgree }
    ensures nearest { NearestAgree }
    ensures chain { ChainsAgree }

    // What the walk by numbers does at each place.
    ensures ends { WalkEnds }
    ensures goes_on { WalkGoesOn }
{}

/// What a valid log is, and which failure is the first.
pub fn validity()
    ensures rules { ValidWhereRulesMet }
    ensures reads { ValidReadsAreNearest }
    ensures closed { ValidLogsAreClosed }
    ensures first { FailureIsFirst }
    ensures closing { ClosingFailsLast }
{}

/// The definitions on logs of small programs.
pub fn examples()
    ensures brackets { BracketsExample }
    ensures execution { ExecutionExample }
    ensures walk { WalkExample }
    ensures mappings { MappingsExample }
    ensures off { OffExample }
    ensures valid { ValidExample }
{}
