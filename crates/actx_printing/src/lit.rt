//! Literals, and why a file isn't one of printing statements.

ghost use Rattle.std.specs.Prelude.{◌≡◌};
ghost use Rattle.actx_printing.specs.declared.lit.FirstError.TheVariants.{Memory};

use actx_text::Units;
use std::alloc::{AllocError, AllocFailed};

/// A literal of a printing statement.
#[derive(Debug, Drop)]
pub enum Lit {
    /// A number from 0 to 2^53 - 1.
    Num(i64),
    /// A text.
    Text(Units),
    /// `true` or `false`.
    Bool(bool),
    /// `null`.
    Null,
}

/// Why no literals were found.
#[derive(Clone, Copy, Debug, PartialEq, Eq)]
pub enum FirstError {
    /// Not every statement is a printing statement.
    NotBuilt,
    /// Memory ran out.
    Memory,
}

impl From<AllocError> for FirstError {
    ghost from_gives = { λ _ e. e ≡ Memory };

    fn from(_e: AllocError) -> FirstError {
        FirstError::Memory
    }
}

impl<T: Drop> From<AllocFailed<T>> for FirstError {
    ghost from_gives = { λ _ e. e ≡ Memory };

    fn from(_e: AllocFailed<T>) -> FirstError {
        FirstError::Memory
    }
}
