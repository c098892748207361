//! Values as events show them.

ghost use Rattle.std.specs.Prelude.{◌≡◌, ◌↔◌, IfOk, IsTrue};

use actx_text::{Units, as_units, from_units};
use std::alloc::{AllocError, Global};

/// A value of the program as an event shows it: a primitive whole, an object by its number.
#[derive(Debug, Drop)]
pub enum Shown {
    /// The value `undefined` (ECMA-262 §6.1.1).
    Undefined,
    /// The value `null` (ECMA-262 §6.1.2).
    Null,
    /// A Boolean (ECMA-262 §6.1.3).
    Bool(bool),
    /// An integer Number (ECMA-262 §6.1.6.1), from −9007199254740991 to 9007199254740991.
    Num(i64),
    /// A String by its UTF-16 units (ECMA-262 §6.1.4).
    Text(Units),
    /// The k-th object that the run made, counted from 1.
    Made(u64),
    /// The k-th built-in object, counted from 1.
    Native(u64),
}

impl Shown {
    /// Whether two shown values are the same: the same kind and the same contents.
    pub fn is_same(&self, other: &Shown) -> bool
        ensures { IsTrue result ↔ (self.now ≡ other.now) }
    {
        match (self, other) {
            (Shown::Undefined, Shown::Undefined) => true,
            (Shown::Null, Shown::Null) => true,
            (Shown::Bool(a), Shown::Bool(b)) => *a == *b,
            (Shown::Num(a), Shown::Num(b)) => *a == *b,
            (Shown::Text(a), Shown::Text(b)) => as_units(a) == as_units(b),
            (Shown::Made(a), Shown::Made(b)) => *a == *b,
            (Shown::Native(a), Shown::Native(b)) => *a == *b,
            _ => false,
        }
    }

    /// A copy of this value. It fails only where memory is refused.
    pub fn copy(&self, alloc: Global) -> Result<Shown, AllocError>
        ensures { IfOk result (λ shown. shown ≡ self.now) }
    {
        match self {
            Shown::Undefined => Ok(Shown::Undefined),
            Shown::Null => Ok(Shown::Null),
            Shown::Bool(a) => Ok(Shown::Bool(*a)),
            Shown::Num(a) => Ok(Shown::Num(*a)),
            Shown::Text(a) => {
                let units = Vec::from_slice(alloc, as_units(a))?;
                Ok(Shown::Text(from_units(units)))
            }
            Shown::Made(a) => Ok(Shown::Made(*a)),
            Shown::Native(a) => Ok(Shown::Native(*a)),
        }
    }
}
