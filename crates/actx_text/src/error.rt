//! Why bytes give no text.

ghost use Rattle.std.specs.Prelude.{◌≡◌};
ghost use Rattle.actx_text.specs.declared.error.TextError.TheVariants.{Memory};

use std::alloc::AllocError;

/// Why `from_utf8` gives no text.
#[derive(Clone, Copy, PartialEq, Eq, Debug)]
pub enum TextError {
    /// The bytes are not UTF-8.
    BadUtf8 {
        /// The place of the first byte of the first ill-formed sequence, from 0.
        at: usize,
    },
    /// There is no memory for the text.
    Memory,
}

impl From<AllocError> for TextError {
    ghost from_gives = { λ _ e. e ≡ Memory };

    fn from(_refused: AllocError) -> TextError {
        TextError::Memory
    }
}
