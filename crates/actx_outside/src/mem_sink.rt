//! A stream into memory.

ghost use Rattle.std.specs.Prelude.{◌≡◌, ◌<◌, ◌≤◌, [], length, min, IfOk, Some, Contains, IsErr};
ghost use Rattle.std.specs.Io.KnownBytes.{WriteAppends};
ghost use Rattle.actx_outside.specs.Streams.{HasCause};

use crate::sink::{Sink, SinkFault};
use std::alloc::Global;
use std::marker::Model;

/// A stream into memory. It takes at most `cut` bytes a write and fails the chosen writes, counted
/// from 0. A write that finds no memory for its bytes is a fault too.
#[derive(Drop)]
pub struct MemSink {
    cut: usize,
    fails: Vec<u64>,
    calls: u64,
    faults: u64,
    bytes: Vec<u8>,
}

impl Model for MemSink {
    ghost use Rattle.std.specs.Prelude.{◌≤◌};
    ghost use Rattle.actx_outside.specs.Devices.{MemSinkParts};

    ghost Value = { MemSinkParts };

    ghost view = { λ s. record { cut = s.cut; fails = s.fails.items; calls = s.calls; faults = s.faults; bytes = s.bytes.items } };

    ghost invariant = { λ s. 1 ≤ s.cut };
}

impl MemSink {
    /// An empty stream that takes at most `cut` bytes a write, `cut` at least 1, and whose writes of
    /// these numbers fail.
    pub fn new(alloc: Global, cut: usize, fails: Vec<u64>) -> MemSink
        requires { 1 ≤ cut }
        ensures { result ≡ record { cut = cut; fails = fails.items; calls = 0; faults = 0; bytes = [] } }
    {
        MemSink {
            cut,
            fails,
            calls: 0,
            faults: 0,
            bytes: Vec::new(alloc),
        }
    }

    /// The bytes that it took.
    pub fn as_slice(&self) -> &[u8]
        ensures { result.now ≡ self.now.bytes }
    {
        self.bytes.as_slice()
    }
}

impl Sink for MemSink {
    ghost state = { λ s. record { bytes = Some s.bytes; faults = s.faults } };

    fn write(&mut self, piece: &[u8]) -> Result<usize, SinkFault>
        requires { 0 < length piece.now }
        ensures took { IfOk result (λ n. (1 ≤ n) × (n ≤ length piece.now)) }
        ensures bytes { WriteAppends (Some self.old.bytes) (Some self.new.bytes) result piece.now }
        ensures cause { HasCause self.old.faults self.new.faults result }
        ensures cut { IfOk result (λ n. n ≡ min self.old.cut (length piece.now)) }
        ensures chosen { Contains self.old.fails self.old.calls → IsErr result }
    {
        let call = self.calls;
        self.calls = call.saturating_add(1);
        let count = piece.len().min(self.cut);
        if self.fails.contains(&call) || self.bytes.extend_from_slice(&piece[..count]).is_err() {
            self.faults = self.faults.saturating_add(1);
            return Err(SinkFault);
        }
        Ok(count)
    }
}
