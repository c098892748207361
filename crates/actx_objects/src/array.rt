//! What arrays refuse.

ghost use Rattle.std.specs.Prelude.{◌≡◌};
ghost use Rattle.actx_objects.specs.Writes.{length_in, array_refusal};

use crate::normal::is_length;
use crate::refusal::SetError;
use actx_value::{Key, Texts, Value};

/// The length that a value stands for: a number from 0.
pub(crate) fn length_in(v: Value) -> Option<u64>
    ensures { result ≡ length_in v }
{
    match v {
        Value::Num(n) if n >= 0 => Some(n as u64),
        _ => None,
    }
}

/// What an array of `n` elements refuses.
pub(crate) fn array_refusal(n: u32, k: Key, v: Value, texts: &Texts) -> Option<SetError>
    ensures { result ≡ array_refusal texts.now.texts n k v }
{
    match k {
        Key::Index(i) => { if n < i { Some(SetError::Gap) } else { None } }
        Key::Name(_) => {
            if is_length(k, texts) {
                match length_in(v) {
                    Some(m) if m <= u64::from(n) => None,
                    _ => Some(SetError::Gap),
                }
            } else {
                Some(SetError::ArrayProperty)
            }
        }
    }
}
