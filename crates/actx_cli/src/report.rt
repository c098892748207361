//! The status of an answer, and its line on standard error.

ghost use Rattle.std.specs.Prelude.{◌≡◌};
ghost use Rattle.actx_cli.specs.Answers.{line_of, refused_front, status_of};
ghost use Rattle.actx_cli.specs.Calls.{from_to};
ghost use Rattle.actx_cli.specs.Runs.{Reports};
ghost use Rattle.actx_cli.specs.Sinks.{Puts};

use crate::answer::{Answer, Refusal};
use crate::sinks::{put, put_three};
use actx_outside::{Sink, SinkFault};
use itoa::Buffer;

// The line of a refusal up to its place.
fn refused_front(kind: Refusal) -> &'static [u8]
    ensures { result.now ≡ refused_front kind }
{
    match kind {
        Refusal::Utf8 => b"actx: refused utf8 at ",
        Refusal::Token => b"actx: refused token at ",
        Refusal::Tree => b"actx: refused tree at ",
        Refusal::Nested => b"actx: refused nested at ",
        Refusal::Early => b"actx: refused early at ",
        Refusal::NotBuilt => b"actx: refused notbuilt at ",
    }
}

fn put_refused<E: Sink>(err: &mut E, kind: Refusal, at: usize) -> Result<(), SinkFault>
    ensures { Puts (E.state err.old) (E.state err.new) (line_of (Answer.Refused kind at)) result }
{
    let mut buffer = Buffer::new();
    let digits = buffer.format(at).as_bytes();
    put_three(err, refused_front(kind), digits, b"\n")
}

// It takes no memory, so it can be said where there is none.
fn put_memory<E: Sink>(err: &mut E, steps: u64) -> Result<(), SinkFault>
    ensures { Puts (E.state err.old) (E.state err.new) (line_of (Answer.Memory steps)) result }
{
    let mut buffer = Buffer::new();
    let digits = buffer.format(steps).as_bytes();
    put_three(err, b"actx: memory after ", digits, b" steps\n")
}

fn put_line<E: Sink>(err: &mut E, answer: Answer) -> Result<(), SinkFault>
    ensures { Puts (E.state err.old) (E.state err.new) (line_of answer) result }
{
    match answer {
        Answer::Finished => Ok(()),
        Answer::Usage => put(err, b"actx: usage\n"),
        Answer::Refused { kind, at } => put_refused(err, kind, at),
        Answer::CannotRead => put(err, b"actx: cannot read\n"),
        Answer::TooLong => put(err, b"actx: too long\n"),
        Answer::WriteFault => put(err, b"actx: write fault\n"),
        Answer::Memory { steps } => put_memory(err, steps),
    }
}

fn status(answer: Answer) -> u8
    ensures { result ≡ status_of answer }
{
    match answer {
        Answer::Finished => 0,
        Answer::Usage => 64,
        Answer::Refused { .. } => 65,
        Answer::CannotRead | Answer::TooLong => 66,
        Answer::WriteFault => 74,
        Answer::Memory { .. } => 75,
    }
}

/// Writes the answer's line, and gives the status: 74 where the line couldn't be written whole.
pub fn report<E: Sink>(err: &mut E, answer: Answer) -> u8
    ensures { Reports answer (from_to (E.state err.old) (E.state err.new)) result }
{
    match put_line(err, answer) {
        Ok(()) => status(answer),
        Err(_) => 74,
    }
}
