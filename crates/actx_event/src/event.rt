//! The events of a run.

use crate::bracket::Bracket;
use crate::value::Shown;
use actx_text::Units;

/// The number of an asynchronous resource: the k-th `init` of a run makes number k
/// (asyncId of Node's async_hooks page). 0 stands for none.
#[derive(Clone, Copy, Debug, PartialEq, Eq)]
pub struct AsyncId(pub u64);

/// The number of a capture of the context mapping: the k-th `snap` of a run makes number k
/// (AsyncContext.Snapshot of the AsyncContext proposal). 0 is the empty capture.
#[derive(Clone, Copy, Debug, PartialEq, Eq)]
pub struct SnapId(pub u64);

/// The number of a context variable: the k-th `var` of a run makes number k
/// (AsyncContext.Variable of the AsyncContext proposal, AsyncLocalStorage of Node).
#[derive(Clone, Copy, Debug, PartialEq, Eq)]
pub struct VarId(pub u32);

/// What a context variable is to the program.
#[derive(Clone, Copy, Debug, PartialEq, Eq)]
pub enum VarKind {
    /// An AsyncContext.Variable of the proposal.
    Variable,
    /// An AsyncLocalStorage of Node.
    Storage,
}

/// One event of a run. A log is a list of events, the oldest first.
#[derive(Debug, Drop)]
pub enum Event {
    /// A resource is made: its number, its type, the number of the resource that caused it
    /// (a program may choose it), and the resource that was executing.
    Init {
        id: AsyncId,
        kind: Units,
        trigger: u64,
        exec: u64,
    },
    /// A callback of the resource begins.
    Before {
        id: AsyncId,
    },
    /// A callback of the resource has ended.
    After {
        id: AsyncId,
    },
    /// The resource is destroyed.
    Destroy {
        id: AsyncId,
    },
    /// What the resource waits for has settled.
    Ready {
        id: AsyncId,
    },
    /// The current mapping is captured.
    Snap {
        snap: SnapId,
    },
    /// A call under a capture begins.
    Enter {
        snap: SnapId,
    },
    /// A call under a capture has ended.
    Leave {
        snap: SnapId,
    },
    /// A context variable is made, with its name and its default.
    Var {
        id: VarId,
        kind: VarKind,
        name: Units,
        default: Shown,
    },
    /// A call under a binding of the variable begins.
    Bind {
        id: VarId,
        value: Shown,
    },
    /// A call under a binding of the variable has ended.
    Unbind {
        id: VarId,
    },
    /// The variable is bound from here on (enterWith of AsyncLocalStorage).
    Set {
        id: VarId,
        value: Shown,
    },
    /// The variable is switched off (disable of AsyncLocalStorage).
    Off {
        id: VarId,
    },
    /// The variable is read, with the value that was given.
    Get {
        id: VarId,
        value: Shown,
    },
    /// A turn of the loop begins: the clock's reading, and loop time, both in milliseconds.
    Turn {
        now: u64,
        time: u64,
    },
    /// A pending host operation has arrived, and its resource.
    Arrive {
        op: u64,
        id: AsyncId,
    },
    /// An arrival that no pending host operation waits for.
    Stray {
        op: u64,
    },
    /// A line is printed, without its line feed.
    Print {
        text: Units,
    },
}

/// What has numbers of its own, from 1 on.
#[derive(Clone, Copy, Debug, PartialEq, Eq)]
pub enum Numbered {
    /// Asynchronous resources.
    Resource,
    /// Captures of the context mapping.
    Capture,
    /// Context variables.
    Variable,
}

impl Event {
    ghost use Rattle.std.specs.Prelude.{◌≡◌};
    ghost use Rattle.std.specs.Option.{option_copied};
    ghost use Rattle.std.specs.Prelude.{option_map};
    ghost use Rattle.actx_event.specs.Noted.{noted_under};
    ghost use Rattle.actx_event.specs.Event.{is_number, number_made, number_named, opened_bracket, closed_bracket, value_bound, binds, switched_off, declaration_said};

    /// The number that this event makes.
    pub fn number_made(&self, what: Numbered) -> Option<u64>
        ensures { result ≡ number_made what self.now }
    {
        match (what, self) {
            (Numbered::Resource, Event::Init { id, .. }) => Some(id.0),
            (Numbered::Capture, Event::Snap { snap }) => Some(snap.0),
            (Numbered::Variable, Event::Var { id, .. }) => Some(u64::from(id.0)),
            _ => None,
        }
    }

    /// The number that this event names as one that was made before it. The empty capture, 0, is
    /// never made, so it counts as none.
    pub fn number_named(&self, what: Numbered) -> Option<u64>
        ensures { result ≡ number_named what self.now }
    {
        match what {
            Numbered::Resource => self.resource_named(),
            Numbered::Capture => self.capture_named(),
            Numbered::Variable => self.variable_named(),
        }
    }

    fn resource_named(&self) -> Option<u64>
        ensures { result ≡ number_named Numbered.Resource self.now }
    {
        match self {
            Event::Before { id } => Some(id.0),
            Event::After { id } => Some(id.0),
            Event::Destroy { id } => Some(id.0),
            Event::Ready { id } => Some(id.0),
            Event::Arrive { id, .. } => Some(id.0),
            _ => None,
        }
    }

    fn capture_named(&self) -> Option<u64>
        ensures { result ≡ number_named Numbered.Capture self.now }
    {
        match self {
            Event::Enter { snap } => { if snap.0 == 0 { None } else { Some(snap.0) } }
            Event::Leave { snap } => { if snap.0 == 0 { None } else { Some(snap.0) } }
            _ => None,
        }
    }

    fn variable_named(&self) -> Option<u64>
        ensures { result ≡ number_named Numbered.Variable self.now }
    {
        match self {
            Event::Bind { id, .. } => Some(u64::from(id.0)),
            Event::Unbind { id } => Some(u64::from(id.0)),
            Event::Set { id, .. } => Some(u64::from(id.0)),
            Event::Off { id } => Some(u64::from(id.0)),
            Event::Get { id, .. } => Some(u64::from(id.0)),
            _ => None,
        }
    }

    /// The bracket that this event opens.
    pub fn opened_bracket(&self) -> Option<Bracket>
        ensures { result ≡ opened_bracket self.now }
    {
        match self {
            Event::Before { id } => Some(Bracket::Running(*id)),
            Event::Enter { snap } => Some(Bracket::Entered(*snap)),
            Event::Bind { id, .. } => Some(Bracket::Bound(*id)),
            _ => None,
        }
    }

    /// The bracket that this event closes.
    pub fn closed_bracket(&self) -> Option<Bracket>
        ensures { result ≡ closed_bracket self.now }
    {
        match self {
            Event::After { id } => Some(Bracket::Running(*id)),
            Event::Leave { snap } => Some(Bracket::Entered(*snap)),
            Event::Unbind { id } => Some(Bracket::Bound(*id)),
            _ => None,
        }
    }

    /// The value that this event binds the variable to.
    pub fn value_bound(&self, variable: VarId) -> Option<&Shown>
        ensures { option_copied result ≡ value_bound variable.0 self.now }
    {
        match self {
            Event::Bind { id, value } => {
                if variable.0 == id.0 {
                    Some(value)
                } else {
                    None
                }
            }
            Event::Set { id, value } => {
                if variable.0 == id.0 {
                    Some(value)
                } else {
                    None
                }
            }
            _ => None,
        }
    }

    /// Whether this event switches the variable off.
    pub fn switches_off(&self, variable: VarId) -> bool
        ensures { result ≡ is_number variable.0 (switched_off self.now) }
    {
        match self {
            Event::Off { id } => variable.0 == id.0,
            _ => false,
        }
    }

    /// The default that this event declares of the variable.
    pub fn default_declared(&self, variable: VarId) -> Option<&Shown>
        ensures { option_copied result ≡ option_map (λ d. d.default) (noted_under variable.0 (declaration_said self.now)) }
    {
        match self {
            Event::Var { id, default, .. } => {
                if variable.0 == id.0 {
                    Some(default)
                } else {
                    None
                }
            }
            _ => None,
        }
    }
}
