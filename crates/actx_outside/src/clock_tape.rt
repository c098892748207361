//! The clock of the system.

ghost use Rattle.std.specs.Prelude.{◌≡◌, None};

use crate::tape::{Tape, TapeStop, Turn};
use std::alloc::Global;
use std::marker::Model;

/// The clock of the system as a tape. No program can ask it for a turn yet, since no timer is built:
/// it stands at its end. Contracts see it as its count of ends.
#[derive(Drop)]
pub struct ClockTape {
    ends: u64,
}

impl Model for ClockTape {
    ghost use Rattle.std.specs.Prelude.{ℕ};

    ghost Value = { ℕ };

    ghost view = { λ t. t.ends };
}

impl ClockTape {
    /// A clock that has not been asked.
    pub fn new() -> ClockTape
        ensures { result ≡ 0 }
    {
        ClockTape { ends: 0 }
    }
}

impl Tape for ClockTape {
    ghost state = { λ t. record { left = None; ends = t } };

    fn turn(&mut self, _alloc: Global, _until: Option<u64>) -> Result<Turn, TapeStop> {
        self.ends = self.ends.saturating_add(1);
        Err(TapeStop::End)
    }
}
