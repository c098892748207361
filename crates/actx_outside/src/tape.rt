//! Turns of the event loop, as a clock or a recording gives them.

ghost use Rattle.std.specs.Prelude.{◌≡◌, IfOk};

use std::alloc::Global;
use std::marker::Model;

/// A list of numbers. Contracts see it as the list.
#[derive(Debug, Drop)]
pub struct Numbers {
    items: Vec<u64>,
}

impl Model for Numbers {
    ghost use Rattle.std.specs.Prelude.{List, ℕ};

    ghost Value = { List ℕ };

    ghost view = { λ numbers. numbers.items.items };
}

impl Numbers {
    /// These numbers.
    pub fn new(items: Vec<u64>) -> Numbers
        ensures { result ≡ items.items }
    {
        Numbers { items }
    }

    /// The numbers, first to last.
    pub fn as_slice(&self) -> &[u64]
        ensures { result.now ≡ self.now }
    {
        self.items.as_slice()
    }
}

/// One turn of the event loop.
#[derive(Debug, Drop)]
pub struct Turn {
    /// The reading of the clock in milliseconds, at most 2^53 - 1.
    pub now: u64,
    /// The numbers of the host operations that have finished since the turn before, in order, each
    /// from 1 to 2^53 - 1.
    pub arrivals: Numbers,
}

/// Why there is no turn.
#[derive(Clone, Copy, Debug, PartialEq, Eq)]
pub enum TapeStop {
    /// The tape has come to its end, and its count of ends rose.
    End,
    /// Memory ran out.
    Memory,
}

/// Turns, one after another. A tape counts how often it came to its end; the count never falls.
pub trait Tape {
    ghost use Rattle.actx_outside.specs.Tapes.{TapeState, Tells, IsTurn, HasEnd};

    /// The turns that are left, if it tells them, and its count of ends.
    ghost state: { Self → TapeState };

    /// The next turn. `until` is the reading for which the loop waits: None where it waits for none.
    fn turn(&mut self, alloc: Global, until: Option<u64>) -> Result<Turn, TapeStop>
        ensures range { IfOk result IsTurn }
        ensures told { Tells (state self.old).left until result (state self.new).left }
        // The end comes only where the count rose in this call.
        ensures cause { HasEnd (state self.old).ends (state self.new).ends result };
}
