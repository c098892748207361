//! From the words to the pieces that are to be written.

ghost use Rattle.std.specs.Prelude.{◌≤◌, length, [], MatchResult};
ghost use Rattle.std.specs.List.{flat_map};
ghost use Rattle.actx_outside.specs.Files.{IsFetched};
ghost use Rattle.actx_cli.specs.Words.{texts};
ghost use Rattle.actx_cli.specs.Calls.{from_to};
ghost use Rattle.actx_cli.specs.Accepted.{longest};
ghost use Rattle.actx_cli.specs.Runs.{NoneFailed, Comes};
ghost use Rattle.actx_cli.specs.Phases.{IsRefusal, SourceFails};

use crate::answer::Answer;
use crate::reading::reading;
use crate::words::file_named;
use actx_outside::{Shelf, ShelfError};
use std::alloc::Global;

// The most bytes that a file may have.
const LONGEST: usize = 1_048_576;

// The bytes of the file.
fn source<F: Shelf>(alloc: Global, shelf: &mut F, file: &str) -> Result<Vec<u8>, Answer>
    ensures { MatchResult result
        (λ bytes. IsFetched (F.state shelf.old).files file.now longest bytes.items × (length bytes.items ≤ longest) × NoneFailed (from_to (F.state shelf.old) (F.state shelf.new)))
        (λ e. SourceFails (from_to (F.state shelf.old) (F.state shelf.new)) file.now e) }
{
    match shelf.fetch(alloc, file, LONGEST) {
        Ok(bytes) => {
            if bytes.len() > LONGEST {
                Err(Answer::TooLong)
            } else {
                Ok(bytes)
            }
        }
        Err(ShelfError::Failed) => Err(Answer::CannotRead),
        Err(ShelfError::Memory) => Err(Answer::Memory { steps: 0 }),
    }
}

/// The pieces that a call is to write, or its refusal.
pub fn prepare<F: Shelf>(
    alloc: Global,
    words: &[String],
    shelf: &mut F,
) -> Result<Vec<Vec<u8>>, Answer>
    ensures { MatchResult result
        (λ found. Comes (texts words.now) (from_to (F.state shelf.old) (F.state shelf.new)) Answer.Finished (flat_map (λ piece. piece.items) found.items))
        (λ e. IsRefusal e × Comes (texts words.now) (from_to (F.state shelf.old) (F.state shelf.new)) e []) }
{
    let Ok(file) = file_named(words) else {
        return Err(Answer::Usage);
    };
    let bytes = source(alloc, shelf, file)?;
    reading(alloc, &bytes)
}
