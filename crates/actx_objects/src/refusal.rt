//! Why an object takes no write, and why it keeps a property.

ghost use Rattle.std.specs.Prelude.{◌≡◌};
ghost use Rattle.actx_objects.specs.declared.refusal.SetError.TheVariants.{Memory};

use std::alloc::AllocError;

/// Why an object takes no write. Where several hold, the first in this order is given.
#[derive(Clone, Copy, Debug, PartialEq, Eq)]
pub enum SetError {
    /// The object is frozen, or isn't there.
    Frozen,
    /// The index or the length is past an array's length.
    Gap,
    /// An array has no property at another key than an index and `length`.
    ArrayProperty,
    /// The properties and entries would be more than their limit.
    Full,
    /// There is no memory.
    Memory,
}

/// Why an object keeps a property. Where both hold, the first is given.
#[derive(Clone, Copy, Debug, PartialEq, Eq)]
pub enum DeleteError {
    /// The object is frozen and has the property.
    Frozen,
    /// The property is an element or the `length` of an array.
    Sparse,
}

impl From<AllocError> for SetError {
    ghost from_gives = { λ _ e. e ≡ Memory };

    fn from(_refused: AllocError) -> SetError {
        SetError::Memory
    }
}
