//! Why a store takes no more.

ghost use Rattle.std.specs.Prelude.{◌≡◌};
ghost use Rattle.actx_value.specs.declared.store_error.StoreError.TheVariants.{Memory};

use std::alloc::{AllocError, AllocFailed};

/// Why a store of the run takes no more.
#[derive(Clone, Copy, Debug, PartialEq, Eq)]
pub enum StoreError {
    /// A count would go above its limit.
    Full,
    /// There is no memory.
    Memory,
}

impl From<AllocError> for StoreError {
    ghost from_gives = { λ _ e. e ≡ Memory };

    fn from(_refused: AllocError) -> StoreError {
        StoreError::Memory
    }
}

impl<T: Drop> From<AllocFailed<T>> for StoreError {
    ghost from_gives = { λ _ e. e ≡ Memory };

    fn from(_refused: AllocFailed<T>) -> StoreError {
        StoreError::Memory
    }
}
