//! Phases of the loop, and kinds of jobs.

/// The phases of a turn of the loop, and what comes before the first turn.
#[derive(Clone, Copy, Debug, PartialEq, Eq)]
pub enum LoopPhase {
    /// No phase is open.
    Between,
    /// The timers that are due.
    Timers,
    /// The arrivals of the turn.
    Arrivals,
    /// The immediates that were queued when the phase began.
    Immediates,
    /// The destroy hooks.
    Destroys,
}

/// The kind of the job that was started last.
#[derive(Clone, Copy, Debug, PartialEq, Eq)]
pub enum LastJob {
    /// A tick.
    Tick,
    /// A microtask.
    Microtask,
    /// Any other: the main script, a timer, an immediate, an arrival, or destroy hooks.
    Other,
}
