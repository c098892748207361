//! Valid logs, and the first failure of a log.

/// A rule of valid logs.
#[derive(Clone, Copy, Debug, PartialEq, Eq)]
pub enum Rule {
    /// Resources, captures and variables are numbered from 1 without gaps, in the order in which
    /// they are made.
    Numbering,
    /// What an event names was made before.
    Introduction,
    /// A closing event has an opener.
    Nesting,
    /// An `init` says the execution identifier of its place.
    Execution,
    /// A `get` says the nearest binding's value.
    Reading,
    /// Nothing is open at the end.
    Closing,
}

impl Rule {
    ghost use Rattle.std.specs.Prelude.{◌≡◌};
    ghost use Rattle.actx_event.specs.Valid.{rule_number};

    /// The rule's number, from 1 to 6 in the order in which the rules are looked at.
    pub fn number(self) -> u8
        ensures { result ≡ rule_number self }
    {
        match self {
            Rule::Numbering => 1,
            Rule::Introduction => 2,
            Rule::Nesting => 3,
            Rule::Execution => 4,
            Rule::Reading => 5,
            Rule::Closing => 6,
        }
    }
}

/// Where a log breaks a rule: the number of the event, or the number of events where the rule
/// speaks of the log's end.
#[derive(Clone, Copy, Debug, PartialEq, Eq)]
pub struct Failure {
    pub place: usize,
    pub rule: Rule,
}
