//! Answers of natives.

ghost use Rattle.std.specs.Prelude.{◌≡◌};
ghost use Rattle.actx_ops.specs.Numbers.{safe};
ghost use Rattle.actx_ops.specs.Operators.{number_out};

use actx_ops::OpOut;
use actx_value::{Reason, Value};

/// The greatest safe integer (ECMA-262 §21.1.2.6).
const GREATEST_SAFE: i64 = 9007199254740991;

/// The number where it is safe.
pub(crate) fn safe(n: i64) -> Option<i64>
    ensures { result ≡ safe n }
{
    if -GREATEST_SAFE <= n && n <= GREATEST_SAFE {
        Some(n)
    } else {
        None
    }
}

/// A number, or that none is in the profile.
pub(crate) fn number_out(n: Option<i64>) -> OpOut
    ensures { result ≡ number_out n }
{
    match n {
        Some(n) => OpOut::Value(Value::Num(n)),
        None => OpOut::OutOfProfile(Reason::Number),
    }
}
