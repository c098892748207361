//! Streams that take bytes.

ghost use Rattle.std.specs.Prelude.{◌<◌, ◌≤◌, length, IfOk};
ghost use Rattle.std.specs.Io.KnownBytes.{WriteAppends};

/// A write failed. It took nothing, and the sink's count of faults rose.
#[derive(Clone, Copy, Debug, PartialEq, Eq)]
pub struct SinkFault;

/// A stream that takes bytes. It counts its faults; the count never falls.
pub trait Sink {
    ghost use Rattle.actx_outside.specs.Streams.{SinkState, HasCause};

    /// The bytes that it took, if it tells them, and its count of faults.
    ghost state: { Self → SinkState };

    /// Takes some bytes from the front of a piece that isn't empty, at least one, and says how many.
    fn write(&mut self, piece: &[u8]) -> Result<usize, SinkFault>
        requires { 0 < length piece.now }
        ensures took { IfOk result (λ n. (1 ≤ n) × (n ≤ length piece.now)) }
        ensures bytes { WriteAppends (state self.old).bytes (state self.new).bytes result piece.now }
        // The fault comes only where the count rose in this call.
        ensures cause { HasCause (state self.old).faults (state self.new).faults result };
}
