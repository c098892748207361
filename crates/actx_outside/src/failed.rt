//! The list of the names that failed.

ghost use Rattle.std.specs.Prelude.{◌≡◌, map, string_bytes};
ghost use Rattle.actx_outside.specs.Files.{failed_with};

use crate::shelf::ShelfError;
use std::alloc::Global;

/// Puts a name at the end of the list, and gives the answer for it: `Failed`, or `Memory` where the
/// name finds no room and the list stays as it was.
pub fn add_failed(alloc: Global, failed: &mut Vec<String>, name: &str) -> ShelfError
    ensures { map string_bytes failed.new.items ≡ failed_with (map string_bytes failed.old.items) name.now result }
{
    let Ok(name) = String::from_str(alloc, name) else {
        return ShelfError::Memory;
    };
    match failed.push(name) {
        Ok(()) => ShelfError::Failed,
        Err(_) => ShelfError::Memory,
    }
}
