//! Places in a text.

ghost use Rattle.std.specs.Prelude.{◌≡◌, ◌≤◌};
ghost use Rattle.actx_scalars.specs.Places.{clamped, relative};

/// A position as a place between 0 and the length (as in ECMA-262 §22.1.3.9).
pub(crate) fn clamped(len: usize, position: i64) -> usize
    ensures value { result ≡ clamped len position }
    ensures within { result ≤ len }
{
    if position < 0 {
        0
    } else if position as u64 > len as u64 {
        len
    } else {
        position as usize
    }
}

/// The same, where a position below 0 counts from the end (as in ECMA-262 §22.1.3.22).
pub(crate) fn relative(len: usize, position: i64) -> usize
    ensures value { result ≡ relative len position }
    ensures within { result ≤ len }
{
    if position < 0 {
        len.saturating_sub(position.unsigned_abs() as usize)
    } else if position as u64 > len as u64 {
        len
    } else {
        position as usize
    }
}
