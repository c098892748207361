//! Whether a value counts as true.

ghost use Rattle.std.specs.Prelude.{◌≡◌};
ghost use Rattle.actx_value.specs.Truth.{truth_of};

use crate::value::Value;

/// Whether a value counts as true (ToBoolean, ECMA-262 §7.1.2). `undefined`, `null`, `false`, 0 and
/// the empty text don't. It needs no texts, since number 0 alone is the empty text.
pub fn is_true(v: Value) -> bool
    ensures { result ≡ truth_of v }
{
    match v {
        Value::Undefined | Value::Null => false,
        Value::Bool(b) => b,
        Value::Num(n) => n != 0,
        Value::Text(t) => t.0 != 0,
        Value::Object(_) | Value::Scope(_) | Value::Mark => true,
    }
}
