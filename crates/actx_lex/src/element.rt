//! What the readers of one thing answer.

ghost use Rattle.std.specs.Prelude.{◌≡◌, ◌≤◌, ◌++◌, OnOk};
ghost use Rattle.actx_lex.specs.Readers as readers;

use std::alloc::AllocError;

/// Which tokens a text may begin with, by its first unit.
#[derive(Clone, Copy)]
pub enum Class {
    Word,
    Number,
    Text,
    FirstPiece,
    LaterPiece,
    Sign,
}

/// The units that a part of a text or template stands for.
#[derive(Clone, Copy)]
pub enum Element {
    Empty,
    One(u16),
    Two(u16, u16),
}

/// Adds the units that the element stands for.
pub fn add(units: &mut Vec<u16>, element: Element) -> Result<(), AllocError>
    ensures { OnOk result (units.new.items ≡ units.old.items ++ readers.units_of element) }
{
    match element {
        Element::Empty => {}
        Element::One(unit) => units.push(unit)?,
        Element::Two(high, low) => {
            units.push(high)?;
            units.push(low)?;
        }
    }
    Ok(())
}

/// A character as units.
pub fn encoded(value: u32) -> Element
    requires { value ≤ 0x10FFFF }
    ensures { result ≡ readers.encoded value }
{
    if value < 0x10000 {
        Element::One(value as u16)
    } else {
        let above = value - 0x10000;
        Element::Two(
            0xD800 + (above / 0x400) as u16,
            0xDC00 + (above % 0x400) as u16,
        )
    }
}
