//! Answers of operators.

ghost use Rattle.std.specs.Prelude.{◌≡◌, not};
ghost use Rattle.std.specs.Option.{option_map};
ghost use Rattle.actx_ops.specs.Operators.{number_out, truth_out};

use crate::out::OpOut;
use actx_value::{Reason, Value};

/// A number, or that none is in the profile.
pub(crate) fn number_out(n: Option<i64>) -> OpOut
    ensures { result ≡ number_out n }
{
    match n {
        Some(n) => OpOut::Value(Value::Num(n)),
        None => OpOut::OutOfProfile(Reason::Number),
    }
}

/// A truth value, or that a conversion is missing.
pub(crate) fn truth_out(b: Option<bool>) -> OpOut
    ensures { result ≡ truth_out b }
{
    match b {
        Some(b) => OpOut::Value(Value::Bool(b)),
        None => OpOut::OutOfProfile(Reason::Conversion),
    }
}

/// The other truth value.
pub(crate) fn negated(b: Option<bool>) -> Option<bool>
    ensures { result ≡ option_map not b }
{
    match b {
        Some(b) => Some(!b),
        None => None,
    }
}
