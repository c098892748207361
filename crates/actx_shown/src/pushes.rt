//! Units at the end of a list.

ghost use Rattle.std.specs.Prelude.{◌≡◌, ◌++◌, OnOk};
ghost use Rattle.std.specs.Fmt.{decimal};

use itoa::Buffer;
use std::alloc::AllocError;

/// Puts the letters of ASCII text at the end.
pub(crate) fn push_ascii(out: &mut Vec<u16>, text: &[u8]) -> Result<(), AllocError>
    ensures { OnOk result (out.new.items ≡ out.old.items ++ text.now) }
{
    for letter in text {
        out.push(u16::from(*letter))?;
    }
    Ok(())
}

/// Puts a number in decimal at the end.
pub(crate) fn push_decimal(out: &mut Vec<u16>, n: usize) -> Result<(), AllocError>
    ensures { OnOk result (out.new.items ≡ out.old.items ++ decimal n) }
{
    let mut buffer = Buffer::new();
    push_ascii(out, buffer.format(n).as_bytes())
}
