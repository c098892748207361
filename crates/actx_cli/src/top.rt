//! The top call.

ghost use Rattle.std.specs.Prelude.{◌≡◌, List, ℕ};
ghost use Rattle.actx_cli.specs.Calls.{call_of, from_to};
ghost use Rattle.actx_cli.specs.Runs.{Comes, Prints, Ran};
ghost use Rattle.actx_cli.specs.Statuses.{FinishedOnly, UsageOnly, UsageAlways, RefusedOnly, RefusedAlways, NoFileOnly, TooLongAlways, WriteFaultOnly, MemoryOnly, OneOfSix, Completes};
ghost use Rattle.actx_cli.specs.Words.{texts};

use crate::answer::Answer;
use crate::prepare::prepare;
use crate::report::report;
use crate::sinks::put_all;
use actx_outside::{Shelf, Sink, Tape};
use std::alloc::Global;

// Does what a command line asks for, but for the report.
fn perform<F: Shelf, O: Sink>(alloc: Global, words: &[String], shelf: &mut F, out: &mut O) -> Answer
    ensures { (text : List ℕ)
        × Comes (texts words.now) (from_to (F.state shelf.old) (F.state shelf.new)) result text
        × Prints result text (from_to (O.state out.old) (O.state out.new)) }
{
    let pieces = match prepare(alloc, words, shelf) {
        Ok(pieces) => pieces,
        Err(answer) => return answer,
    };
    match put_all(out, &pieces) {
        Ok(()) => Answer::Finished,
        Err(_) => Answer::WriteFault,
    }
}

// Does what a command line asks for, and reports.
fn session<F: Shelf, O: Sink, E: Sink>(
    alloc: Global,
    words: &[String],
    shelf: &mut F,
    out: &mut O,
    err: &mut E,
) -> u8
    ensures { Ran (call_of (texts words.now) (F.state shelf.old) (F.state shelf.new) (O.state out.old) (O.state out.new) (E.state err.old) (E.state err.new) result) }
{
    let answer = perform(alloc, words, shelf, out);
    report(err, answer)
}

/// Does all that the program does: reads the words after its name, fetches the file that they name,
/// writes what it prints to `out` and the line of a refusal to `err`, and gives the exit status.
///
/// The first clause is the whole; the others follow from it, one for each status.
pub fn actx<F: Shelf, O: Sink, E: Sink, T: Tape>(
    alloc: Global,
    words: &[String],
    shelf: &mut F,
    out: &mut O,
    err: &mut E,
    tape: &mut T,
) -> u8
    // Its answer with the cause, exactly what it printed, and what it reported.
    ensures ran { Ran (call_of (texts words.now) (F.state shelf.old) (F.state shelf.new) (O.state out.old) (O.state out.new) (E.state err.old) (E.state err.new) result) }
    // 0: the named file is accepted, and its text was printed whole.
    ensures finished { FinishedOnly (call_of (texts words.now) (F.state shelf.old) (F.state shelf.new) (O.state out.old) (O.state out.new) (E.state err.old) (E.state err.new) result) }
    // 64: exactly where the words are no command line, unless the report fails.
    ensures usage { UsageOnly (call_of (texts words.now) (F.state shelf.old) (F.state shelf.new) (O.state out.old) (O.state out.new) (E.state err.old) (E.state err.new) result) }
    ensures usage_always { UsageAlways (call_of (texts words.now) (F.state shelf.old) (F.state shelf.new) (O.state out.old) (O.state out.new) (E.state err.old) (E.state err.new) result) }
    // 65: exactly where the file is refused, for the reason and at the place of the line (of the words `tree` and `nested` a hint), unless the report fails or memory runs out.
    ensures refused { RefusedOnly (call_of (texts words.now) (F.state shelf.old) (F.state shelf.new) (O.state out.old) (O.state out.new) (E.state err.old) (E.state err.new) result) }
    ensures refused_always { RefusedAlways (call_of (texts words.now) (F.state shelf.old) (F.state shelf.new) (O.state out.old) (O.state out.new) (E.state err.old) (E.state err.new) result) }
    // 66: only where the name failed; exactly where the file is too long, unless the report fails or memory runs out.
    ensures no_file { NoFileOnly (call_of (texts words.now) (F.state shelf.old) (F.state shelf.new) (O.state out.old) (O.state out.new) (E.state err.old) (E.state err.new) result) }
    ensures too_long_always { TooLongAlways (call_of (texts words.now) (F.state shelf.old) (F.state shelf.new) (O.state out.old) (O.state out.new) (E.state err.old) (E.state err.new) result) }
    // 74: only where a count of faults rose.
    ensures write_fault { WriteFaultOnly (call_of (texts words.now) (F.state shelf.old) (F.state shelf.new) (O.state out.old) (O.state out.new) (E.state err.old) (E.state err.new) result) }
    // 75: nothing was printed.
    ensures memory { MemoryOnly (call_of (texts words.now) (F.state shelf.old) (F.state shelf.new) (O.state out.old) (O.state out.new) (E.state err.old) (E.state err.new) result) }
    // There is no other status.
    ensures statuses { OneOfSix (call_of (texts words.now) (F.state shelf.old) (F.state shelf.new) (O.state out.old) (O.state out.new) (E.state err.old) (E.state err.new) result) }
    // Where nothing outside stands in the way, the text of an accepted file is printed whole, unless memory runs out.
    ensures complete { Completes (call_of (texts words.now) (F.state shelf.old) (F.state shelf.new) (O.state out.old) (O.state out.new) (E.state err.old) (E.state err.new) result) }
    // No file that can be read yet asks the tape.
    ensures tape { tape.new ≡ tape.old }
{
    session(alloc, words, shelf, out, err)
}
