//! Texts made of texts, and their units one by one.

ghost use Rattle.std.specs.Prelude.{◌≡◌, ◌≤◌, ◌++◌, length, IfOk, slice_get, slice_range};

use crate::units::{Units, as_units, from_units};
use std::alloc::{AllocError, Global};

/// How many units the text has (the length of a String, ECMA-262 §6.1.4).
pub fn len(t: &Units) -> usize
    ensures { result ≡ length t.now }
{
    as_units(t).len()
}

/// The unit at a place, from 0, and `None` exactly where the text has no such place.
pub fn at(t: &Units, i: usize) -> Option<u16>
    ensures { result ≡ slice_get t.now i }
{
    as_units(t).get(i).copied()
}

/// The units of `a` and then those of `b` (the string-concatenation of ECMA-262 §6.1.4).
///
/// # Errors
/// Only want of memory.
pub fn concat(alloc: Global, a: &Units, b: &Units) -> Result<Units, AllocError>
    ensures { IfOk result (λ text. text ≡ a.now ++ b.now) }
{
    let mut units = Vec::with_capacity(alloc, len(a).saturating_add(len(b)))?;
    units.extend_from_slice(as_units(a))?;
    units.extend_from_slice(as_units(b))?;
    Ok(from_units(units))
}

/// The units from the place `from` up to the place `to`, without that at `to`
/// (the substring of ECMA-262 §6.1.4).
///
/// # Errors
/// Only want of memory.
pub fn slice(alloc: Global, t: &Units, from: usize, to: usize) -> Result<Units, AllocError>
    requires ordered { from ≤ to }
    requires within { to ≤ length t.now }
    ensures { IfOk result (λ text. text ≡ slice_range t.now from to) }
{
    let units = Vec::from_slice(alloc, &as_units(t)[from..to])?;
    Ok(from_units(units))
}

/// The same text once more.
///
/// # Errors
/// Only want of memory.
pub fn copy(alloc: Global, t: &Units) -> Result<Units, AllocError>
    ensures { IfOk result (λ text. text ≡ t.now) }
{
    let units = Vec::from_slice(alloc, as_units(t))?;
    Ok(from_units(units))
}
