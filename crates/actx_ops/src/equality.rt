//! Equality of values.

ghost use Rattle.std.specs.Prelude.{◌≡◌};
ghost use Rattle.actx_ops.specs.Operators.{strictly_equal, loosely_equal, is_nullish, is_same_type};

use crate::convert::units_of;
use crate::relation::numbers_of;
use actx_value::{Texts, Value};

/// IsStrictlyEqual (ECMA-262 §7.2.16): the same type and the same value.
pub(crate) fn strictly_equal(a: Value, b: Value, texts: &Texts) -> bool
    ensures { result ≡ strictly_equal texts.now.texts a b }
{
    match (a, b) {
        (Value::Undefined, Value::Undefined)
        | (Value::Null, Value::Null)
        | (Value::Mark, Value::Mark) => true,
        (Value::Bool(p), Value::Bool(q)) => p == q,
        (Value::Num(m), Value::Num(n)) => m == n,
        (Value::Text(s), Value::Text(t)) => units_of(texts, s) == units_of(texts, t),
        (Value::Object(o), Value::Object(p)) => o.0 == p.0,
        (Value::Scope(s), Value::Scope(t)) => s.0 == t.0,
        _ => false,
    }
}

fn is_nullish(v: Value) -> bool
    ensures { result ≡ is_nullish v }
{
    matches!(v, Value::Undefined | Value::Null)
}

fn is_same_type(a: Value, b: Value) -> bool
    ensures { result ≡ is_same_type a b }
{
    match a {
        Value::Undefined => matches!(b, Value::Undefined),
        Value::Null => matches!(b, Value::Null),
        Value::Bool(_) => matches!(b, Value::Bool(_)),
        Value::Num(_) => matches!(b, Value::Num(_)),
        Value::Text(_) => matches!(b, Value::Text(_)),
        Value::Object(_) => matches!(b, Value::Object(_)),
        Value::Scope(_) => matches!(b, Value::Scope(_)),
        Value::Mark => matches!(b, Value::Mark),
    }
}

/// IsLooselyEqual (ECMA-262 §7.2.15), and `None` where a conversion to a number is needed and isn't
/// there.
pub(crate) fn loosely_equal(a: Value, b: Value, texts: &Texts) -> Option<bool>
    ensures { result ≡ loosely_equal texts.now.texts a b }
{
    if is_nullish(a) || is_nullish(b) {
        return Some(is_nullish(a) && is_nullish(b));
    }
    if is_same_type(a, b) {
        return Some(strictly_equal(a, b, texts));
    }
    let (m, n) = numbers_of(a, b, texts)?;
    Some(m == n)
}
