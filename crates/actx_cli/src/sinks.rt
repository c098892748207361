//! Writing whole pieces.

ghost use Rattle.std.specs.Prelude.{◌++◌};
ghost use Rattle.std.specs.List.{flat_map};
ghost use Rattle.actx_cli.specs.Sinks.{Puts};

use actx_outside::{Sink, SinkFault};

/// Writes all of the bytes. At a fault the sink has gained a front of them.
pub fn put<S: Sink>(sink: &mut S, bytes: &[u8]) -> Result<(), SinkFault>
    ensures { Puts (S.state sink.old) (S.state sink.new) bytes.now result }
{
    let mut written = 0;
    while written < bytes.len() {
        written += sink.write(&bytes[written..])?;
    }
    Ok(())
}

/// Writes pieces, one after another.
pub fn put_all<S: Sink>(sink: &mut S, pieces: &[Vec<u8>]) -> Result<(), SinkFault>
    ensures { Puts (S.state sink.old) (S.state sink.new) (flat_map (λ piece. piece.items) pieces.now) result }
{
    for piece in pieces {
        match put(sink, piece) {
            Ok(()) => {}
            Err(fault) => return Err(fault),
        }
    }
    Ok(())
}

/// Writes bytes, and then others.
pub fn put_both<S: Sink>(sink: &mut S, first: &[u8], second: &[u8]) -> Result<(), SinkFault>
    ensures { Puts (S.state sink.old) (S.state sink.new) (first.now ++ second.now) result }
{
    match put(sink, first) {
        Ok(()) => {}
        Err(fault) => return Err(fault),
    }
    put(sink, second)
}

/// Writes three lists of bytes.
pub fn put_three<S: Sink>(
    sink: &mut S,
    first: &[u8],
    second: &[u8],
    third: &[u8],
) -> Result<(), SinkFault>
    ensures { Puts (S.state sink.old) (S.state sink.new) (first.now ++ (second.now ++ third.now)) result }
{
    match put(sink, first) {
        Ok(()) => {}
        Err(fault) => return Err(fault),
    }
    put_both(sink, second, third)
}
