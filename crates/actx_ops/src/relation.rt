//! The order of values.

ghost use Rattle.std.specs.Prelude.{◌≡◌};
ghost use Rattle.actx_ops.specs.Operators.{less_than, numbers_of};

use crate::convert::{number_of_value, units_of};
use actx_value::{Texts, Value};
use std::cmp::Ordering;

/// Both values as numbers (ECMA-262 §7.1.4), where they are safe integers.
pub(crate) fn numbers_of(a: Value, b: Value, texts: &Texts) -> Option<(i64, i64)>
    ensures { result ≡ numbers_of texts.now.texts a b }
{
    let m = number_of_value(a, texts)?;
    let n = number_of_value(b, texts)?;
    Some((m, n))
}

/// Whether a is less than b (IsLessThan, ECMA-262 §7.2.13), where both are texts or numbers.
pub(crate) fn less_than(a: Value, b: Value, texts: &Texts) -> Option<bool>
    ensures { result ≡ less_than texts.now.texts a b }
{
    match (a, b) {
        (Value::Text(s), Value::Text(t)) => {
            let order = units_of(texts, s).cmp(&units_of(texts, t));
            Some(order == Ordering::Less)
        }
        _ => {
            let (m, n) = numbers_of(a, b, texts)?;
            Some(m < n)
        }
    }
}
