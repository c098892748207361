//! The streams of the system.

ghost use Rattle.std.specs.Prelude.{◌≡◌, ◌≤◌, length, None, IfSome};

use crate::sink::{Sink, SinkFault};
use std::io::Write;
use std::marker::Model;

/// A stream of the system, which counts its faults. It tells nothing of what it took. Each write is
/// handed on at once, and a device that takes nothing is a fault. Contracts see it as its count of
/// faults.
#[derive(Drop)]
pub struct StdSink<W: Write + Drop> {
    writer: W,
    faults: u64,
}

impl<W: Write + Drop> Model for StdSink<W> {
    ghost use Rattle.std.specs.Prelude.{ℕ};

    ghost Value = { ℕ };

    ghost view = { λ s. s.faults };
}

impl<W: Write + Drop> StdSink<W> {
    /// This stream, with no fault so far.
    pub fn new(writer: W) -> StdSink<W>
        ensures { result ≡ 0 }
    {
        StdSink { writer, faults: 0 }
    }
}

// Writes some of a piece, and flushes. None where the device fails or takes nothing.
fn write_some<W: Write>(writer: &mut W, piece: &[u8]) -> Option<usize>
    ensures { IfSome result (λ n. (1 ≤ n) × (n ≤ length piece.now)) }
{
    let count = writer.write(piece).ok()?;
    if count == 0 {
        return None;
    }
    writer.flush().ok()?;
    Some(count)
}

impl<W: Write + Drop> Sink for StdSink<W> {
    ghost state = { λ s. record { bytes = None; faults = s } };

    fn write(&mut self, piece: &[u8]) -> Result<usize, SinkFault> {
        match write_some(&mut self.writer, piece) {
            Some(count) => Ok(count),
            None => {
                self.faults = self.faults.saturating_add(1);
                Err(SinkFault)
            }
        }
    }
}
