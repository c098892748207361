//! A text and its units.

ghost use Rattle.std.specs.Prelude.{◌≡◌};

use std::marker::Model;

/// A text: a list of UTF-16 units, each from 0 to 0xFFFF, a lone surrogate among them
/// (the String type of ECMA-262 §6.1.4). Contracts see it as the list of its units.
#[derive(Debug, Drop)]
pub struct Units {
    items: Vec<u16>,
}

impl Model for Units {
    ghost use Rattle.std.specs.Prelude.{List, ℕ};

    ghost Value = { List ℕ };

    ghost view = { λ text. text.items.items };
}

/// The text of these units.
pub fn from_units(v: Vec<u16>) -> Units
    ensures { result ≡ v.items }
{
    Units { items: v }
}

/// The units of a text, first to last.
pub fn as_units(t: &Units) -> &[u16]
    ensures { result.now ≡ t.now }
{
    t.items.as_slice()
}
