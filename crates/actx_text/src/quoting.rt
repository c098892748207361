//! Texts in quotes.

ghost use Rattle.std.specs.Prelude.{◌≡◌, ◌++◌, ◌<◌, ℕ, IfOk, OnOk};
ghost use Rattle.std.specs.Char.{digit_char};
ghost use Rattle.actx_text.specs.Quoted.{quoted_unit, quoted_text, unit_escape};

use crate::units::{Units, as_units};
use std::alloc::{AllocError, Global};

/// A text in quotes, in ASCII and on one line: `"`, then each unit from U+0020 to U+007E as itself
/// but `\"` and `\\`, each other as `\u` and four lower-case hexadecimal digits, then `"`.
///
/// # Errors
/// Only want of memory.
pub fn quoted(alloc: Global, t: &Units) -> Result<Vec<u8>, AllocError>
    ensures { IfOk result (λ bytes. bytes.items ≡ quoted_text t.now) }
{
    let mut bytes = Vec::with_capacity(alloc, as_units(t).len().saturating_add(2))?;
    bytes.push(b'"')?;
    for unit in as_units(t) {
        push_quoted(&mut bytes, *unit)?;
    }
    bytes.push(b'"')?;
    Ok(bytes)
}

/// Puts the quoted form of one unit at the end.
#[tactic(auto, unfolding(crate::specs::Quoted::quoted_unit))]
fn push_quoted(bytes: &mut Vec<u8>, unit: u16) -> Result<(), AllocError>
    ensures { OnOk result (bytes.new.items ≡ bytes.old.items ++ quoted_unit unit) }
{
    if unit == u16::from(b'"') || unit == u16::from(b'\\') {
        return bytes.extend_from_slice(&[b'\\', unit as u8]);
    }
    if u16::from(b' ') <= unit && unit <= u16::from(b'~') {
        return Ok(bytes.push(unit as u8)?);
    }
    bytes.extend_from_slice(&escape(unit))
}

/// A unit by its number: `\u` and four hexadecimal digits.
fn escape(unit: u16) -> [u8; 6]
    ensures { result ≡ unit_escape unit }
{
    [
        b'\\',
        b'u',
        hex_digit(unit / 0x1000),
        hex_digit(unit / 0x100 % 0x10),
        hex_digit(unit / 0x10 % 0x10),
        hex_digit(unit % 0x10),
    ]
}

/// The lower-case hexadecimal digit of a value below 16.
fn hex_digit(value: u16) -> u8
    requires { value < 16 }
    ensures { result ≡ digit_char value }
{
    if value < 10 {
        b'0' + value as u8
    } else {
        b'a' + (value - 10) as u8
    }
}
