//! Texts compared.

ghost use Rattle.std.specs.Prelude.{◌≡◌, ◌↔◌, IsTrue};
ghost use Rattle.std.specs.Ordering.{nat_cmp};
ghost use Rattle.std.specs.Cmp.Lexicographic.{slice_cmp};

use crate::units::{Units, as_units};
use std::cmp::Ordering;

/// The order of two texts by their units: the first pair of units that differ decides, and else the
/// shorter text comes first (IsLessThan on Strings, ECMA-262 §7.2.13).
pub fn compare(a: &Units, b: &Units) -> Ordering
    ensures { result ≡ slice_cmp nat_cmp a.now b.now }
{
    as_units(a).cmp(&as_units(b))
}

/// Whether two texts have the same units (SameValueNonNumber on Strings, ECMA-262 §7.2.12).
pub fn same(a: &Units, b: &Units) -> bool
    ensures { IsTrue result ↔ (a.now ≡ b.now) }
{
    as_units(a) == as_units(b)
}
