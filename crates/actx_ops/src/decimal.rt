//! Numbers that texts spell in decimal.

ghost use Rattle.std.specs.Prelude.{◌≡◌, [], ◌∷◌};
ghost use Rattle.actx_ops.specs.Texts.{natural_in, number_in, index_in, index_of};

use crate::arithmetic::GREATEST_SAFE;

/// The greatest array index (ECMA-262 §6.1.7).
const GREATEST_INDEX: u64 = 4294967294;

const MINUS: u16 = 45;

const ZERO: u16 = 48;

const NINE: u16 = 57;

/// The number whose digits these are, where it is safe.
pub(crate) fn natural_in(digits: &[u16]) -> Option<u64>
    ensures { result ≡ natural_in digits.now }
{
    if digits.is_empty() {
        return None;
    }
    if digits[0] == ZERO && 1 < digits.len() {
        return None;
    }
    let mut n: u64 = 0;
    for digit in digits {
        if *digit < ZERO || NINE < *digit {
            return None;
        }
        n = n * 10 + u64::from(*digit - ZERO);
        if n > GREATEST_SAFE as u64 {
            return None;
        }
    }
    Some(n)
}

/// The safe integer that a text spells.
pub(crate) fn number_in(text: &[u16]) -> Option<i64>
    ensures { result ≡ number_in text.now }
{
    match text {
        [] => None,
        [first, rest @ ..] => {
            if *first == MINUS {
                let n = natural_in(rest)?;
                if n == 0 { None } else { Some(-(n as i64)) }
            } else {
                let n = natural_in(text)?;
                Some(n as i64)
            }
        }
    }
}

/// The array index that a text spells.
pub(crate) fn index_in(text: &[u16]) -> Option<u32>
    ensures { result ≡ index_in text.now }
{
    let n = natural_in(text)?;
    if n <= GREATEST_INDEX {
        Some(n as u32)
    } else {
        None
    }
}

/// The array index that a number is.
pub(crate) fn index_of(n: i64) -> Option<u32>
    ensures { result ≡ index_of n }
{
    if 0 <= n && n <= GREATEST_INDEX as i64 {
        Some(n as u32)
    } else {
        None
    }
}
