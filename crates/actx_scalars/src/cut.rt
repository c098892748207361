//! A text cut into pieces.

ghost use Rattle.std.specs.Prelude.{◌≡◌, take, IfOk};
ghost use Rattle.actx_scalars.specs.Splits.{pieces_of, pieces_from, units_apart};

use crate::search::first_place;
use crate::split_out::Pieces;
use actx_text::{Units, from_units};
use std::alloc::{AllocError, Global};

/// The units as a text.
fn piece(alloc: Global, units: &[u16]) -> Result<Units, AllocError>
    ensures { IfOk result (λ text. text ≡ units.now) }
{
    Ok(from_units(Vec::from_slice(alloc, units)?))
}

/// Each unit as a piece of its own, at most so many.
fn units_apart(alloc: Global, most: usize, text: &[u16]) -> Result<Pieces, AllocError>
    ensures { IfOk result (λ pieces. pieces ≡ take most (units_apart text.now)) }
{
    let mut pieces = Vec::new(alloc);
    for i in 0..most.min(text.len()) {
        pieces.push(piece(alloc, &text[i..i + 1])?)?;
    }
    Ok(Pieces::from_vec(pieces))
}

/// The pieces between separators, at most so many.
fn pieces_between(
    alloc: Global,
    most: usize,
    text: &[u16],
    separator: &[u16],
) -> Result<Pieces, AllocError>
    ensures { IfOk result (λ pieces. pieces ≡ pieces_from most text.now separator.now 0) }
{
    let mut pieces = Vec::new(alloc);
    let mut from = 0;
    for _count in 0..most {
        match first_place(text, separator, from) {
            Some(to) => {
                pieces.push(piece(alloc, &text[from..to])?)?;
                from = to + separator.len();
            }
            None => {
                pieces.push(piece(alloc, &text[from..])?)?;
                return Ok(Pieces::from_vec(pieces));
            }
        }
    }
    Ok(Pieces::from_vec(pieces))
}

/// At most so many pieces of the text; the empty separator stands between any two units.
pub(crate) fn pieces_of(
    alloc: Global,
    most: usize,
    text: &[u16],
    separator: &[u16],
) -> Result<Pieces, AllocError>
    ensures { IfOk result (λ pieces. pieces ≡ pieces_of most text.now separator.now) }
{
    if separator.is_empty() {
        units_apart(alloc, most, text)
    } else {
        pieces_between(alloc, most, text, separator)
    }
}
