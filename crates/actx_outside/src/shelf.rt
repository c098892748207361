//! Files by name.

ghost use Rattle.std.specs.Prelude.{◌≡◌, ◌+◌, ◌≤◌, length, IfOk};

use std::alloc::Global;

/// Why a file wasn't fetched.
#[derive(Clone, Copy, Debug, PartialEq, Eq)]
pub enum ShelfError {
    /// The shelf has no such file or couldn't read it. Its name is now among the failed ones.
    Failed,
    /// Memory ran out.
    Memory,
}

/// Files by name. A shelf keeps the list of the names that failed, which only grows: so a failure of
/// one name excuses nothing about another.
pub trait Shelf {
    ghost use Rattle.actx_outside.specs.Files.{ShelfState, IsFetched, failed_after};

    /// The files that it tells, if it tells them, and the names that failed.
    ghost state: { Self → ShelfState };

    /// The contents of a file, or their first `most + 1` bytes where there are more, so that a caller
    /// who wants at most `most` sees that there are more.
    fn fetch(&mut self, alloc: Global, name: &str, most: usize) -> Result<Vec<u8>, ShelfError>
        ensures fetched { IfOk result (λ bytes. IsFetched (state self.old).files name.now most bytes.items) }
        ensures bound { IfOk result (λ bytes. length bytes.items ≤ most + 1) }
        // `Failed` appends the name that was asked; no other answer changes the list.
        ensures failed { (state self.new).failed ≡ failed_after (state self.old).failed name.now result }
        ensures files { (state self.new).files ≡ (state self.old).files };
}
