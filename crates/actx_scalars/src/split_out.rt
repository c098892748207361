//! What `split` gives.

ghost use Rattle.std.specs.Prelude.{◌≡◌};

use actx_text::Units;
use actx_value::{ErrorKind, Reason, Value};
use std::marker::Model;

/// The pieces of a text. Contracts see the list of the pieces, first to last.
#[derive(Debug, Drop)]
pub struct Pieces {
    items: Vec<Units>,
}

impl Model for Pieces {
    ghost use Rattle.std.specs.Prelude.{List, ℕ};

    ghost Value = { List (List ℕ) };

    ghost view = { λ pieces. pieces.items.items };
}

impl Pieces {
    /// These pieces.
    pub(crate) fn from_vec(items: Vec<Units>) -> Pieces
        ensures { result ≡ items.items }
    {
        Pieces { items }
    }

    /// The pieces, first to last.
    pub fn as_slice(&self) -> &[Units]
        ensures { result.now ≡ self.now }
    {
        self.items.as_slice()
    }

    /// The pieces as a Vec.
    pub fn into_vec(self) -> Vec<Units>
        ensures { result.items ≡ self }
    {
        self.items
    }
}

/// What `split` gives: the elements of the array that the caller makes, or why there is none.
#[derive(Debug, Drop)]
pub enum SplitOut {
    /// One element, which is the receiver as it is: there was no separator.
    Whole(Value),
    /// These new texts.
    Pieces(Pieces),
    /// A throw of this error.
    Throw(ErrorKind),
    /// No answer in the profile, for this reason.
    OutOfProfile(Reason),
}
