//! The files of the system.

ghost use Rattle.std.specs.Prelude.{◌≡◌, ◌≤◌, [], length, None, IfOk};

use crate::failed::add_failed;
use crate::shelf::{Shelf, ShelfError};
use std::alloc::Global;
use std::fs::File;
use std::io::Read;
use std::marker::Model;
use std::rt::Files;

// How many bytes one read asks for at most.
const BLOCK: usize = 16_384;

/// The files of the system, by the names as given, and the names that failed. It tells nothing of
/// what a file holds; contracts see it as the list of the failed names.
#[derive(Drop)]
pub struct FileShelf<R: Files + Drop> {
    files: R,
    failed: Vec<String>,
}

impl<R: Files + Drop> Model for FileShelf<R> {
    ghost use Rattle.std.specs.Prelude.{List, ℕ, map, string_bytes};

    ghost Value = { List (List ℕ) };

    ghost view = { λ s. map string_bytes s.failed.items };
}

impl<R: Files + Drop> FileShelf<R> {
    /// The files of the system, no name of which has failed so far.
    pub fn new(alloc: Global, files: R) -> FileShelf<R>
        ensures { result ≡ [] }
    {
        FileShelf {
            files,
            failed: Vec::new(alloc),
        }
    }
}

// Reads up to `limit` bytes; each turn takes at least one.
fn read_front<R: Read>(alloc: Global, reader: &mut R, limit: usize) -> Result<Vec<u8>, ShelfError>
    ensures { IfOk result (λ bytes. length bytes.items ≤ limit) }
{
    let mut bytes = Vec::new(alloc);
    let mut block = [0u8; BLOCK];
    while bytes.len() < limit {
        let room = (limit - bytes.len()).min(BLOCK);
        let Ok(count) = reader.read(&mut block[..room]) else {
            return Err(ShelfError::Failed);
        };
        if count == 0 {
            break;
        }
        if bytes.extend_from_slice(&block[..count]).is_err() {
            return Err(ShelfError::Memory);
        }
    }
    Ok(bytes)
}

impl<R: Files + Drop> Shelf for FileShelf<R> {
    ghost state = { λ s. record { files = None; failed = s } };

    fn fetch(&mut self, alloc: Global, name: &str, most: usize) -> Result<Vec<u8>, ShelfError> {
        let Ok(mut file) = File::open(&self.files, name) else {
            return Err(add_failed(alloc, &mut self.failed, name));
        };
        match read_front(alloc, &mut file, most.saturating_add(1)) {
            Ok(bytes) => Ok(bytes),
            Err(ShelfError::Memory) => Err(ShelfError::Memory),
            Err(ShelfError::Failed) => Err(add_failed(alloc, &mut self.failed, name)),
        }
    }
}
