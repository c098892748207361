//! Numbers as texts.

ghost use Rattle.std.specs.Prelude.{◌≡◌, IfOk};
ghost use Rattle.std.specs.Fmt.{signed_decimal};

use crate::units::{Units, from_units};
use itoa::Buffer;
use std::alloc::{AllocError, Global};

/// A number in decimal: no leading zero, and a `-` before a negative one
/// (Number::toString of ECMA-262 §6.1.6.1.20 at radix 10, for integers).
pub fn number_text(alloc: Global, n: i64) -> Result<Units, AllocError>
    ensures { IfOk result (λ text. text ≡ signed_decimal n) }
{
    let mut buffer = Buffer::new();
    let digits = buffer.format(n).as_bytes();
    let mut items = Vec::new(alloc);
    for b in digits {
        items.push(u16::from(*b))?;
    }
    Ok(from_units(items))
}
