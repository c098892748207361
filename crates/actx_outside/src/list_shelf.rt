//! Files in memory.

ghost use Rattle.std.specs.Prelude.{◌≡◌, ◌+◌, ◌≤◌, ◌⊎◌, [], length, IfOk, Some, None, MatchOption, Contains, IsErr, IsErrOf};
ghost use Rattle.actx_outside.specs.Files.{contents_of, named, IsFetched, failed_after};

use crate::failed::add_failed;
use crate::shelf::{Shelf, ShelfError};
use std::alloc::Global;
use std::marker::Model;

/// Files in memory. It fails the chosen calls, counted from 0, and each name that it lacks. Of two
/// files of one name the first counts.
#[derive(Drop)]
pub struct ListShelf {
    files: Vec<(String, Vec<u8>)>,
    fails: Vec<u64>,
    calls: u64,
    failed: Vec<String>,
}

impl Model for ListShelf {
    ghost use Rattle.std.specs.Prelude.{map, string_bytes};
    ghost use Rattle.actx_outside.specs.Devices.{ListShelfParts};
    ghost use Rattle.actx_outside.specs.Files.{named};

    ghost Value = { ListShelfParts };

    ghost view = { λ s. record { files = named s.files.items; fails = s.fails.items; calls = s.calls; failed = map string_bytes s.failed.items } };
}

// The first file of a name.
fn find<'a>(files: &'a [(String, Vec<u8>)], name: &str) -> Option<&'a Vec<u8>>
    ensures { MatchOption result (contents_of (named files.now) name.now ≡ None) (λ bytes. contents_of (named files.now) name.now ≡ Some bytes.now.items) }
{
    for file in files {
        if file.0.as_str() == name {
            return Some(&file.1);
        }
    }
    None
}

impl ListShelf {
    /// A shelf of these files, given by name and contents, whose calls of these numbers fail.
    pub fn new(alloc: Global, files: Vec<(String, Vec<u8>)>, fails: Vec<u64>) -> ListShelf
        ensures { result ≡ record { files = named files.items; fails = fails.items; calls = 0; failed = [] } }
    {
        ListShelf {
            files,
            fails,
            calls: 0,
            failed: Vec::new(alloc),
        }
    }
}

impl Shelf for ListShelf {
    ghost state = { λ s. record { files = Some s.files; failed = s.failed } };

    fn fetch(&mut self, alloc: Global, name: &str, most: usize) -> Result<Vec<u8>, ShelfError>
        ensures fetched { IfOk result (λ bytes. IsFetched (Some self.old.files) name.now most bytes.items) }
        ensures bound { IfOk result (λ bytes. length bytes.items ≤ most + 1) }
        ensures failed { self.new.failed ≡ failed_after self.old.failed name.now result }
        ensures files { Some self.new.files ≡ Some self.old.files }
        // It fails where the call is chosen or the name is lacking, and nowhere else.
        ensures chosen { Contains self.old.fails self.old.calls → IsErr result }
        ensures lacking { contents_of self.old.files name.now ≡ None → IsErr result }
        ensures only { IsErrOf result ShelfError.Failed → Contains self.old.fails self.old.calls ⊎ (contents_of self.old.files name.now ≡ None) }
    {
        let call = self.calls;
        self.calls = call.saturating_add(1);
        if self.fails.contains(&call) {
            return Err(add_failed(alloc, &mut self.failed, name));
        }
        let Some(contents) = find(&self.files, name) else {
            return Err(add_failed(alloc, &mut self.failed, name));
        };
        let count = contents.len().min(most.saturating_add(1));
        match Vec::from_slice(alloc, &contents[..count]) {
            Ok(bytes) => Ok(bytes),
            Err(_) => Err(ShelfError::Memory),
        }
    }
}
