//! The constructors of primitives, called as functions, and the tests on numbers.

ghost use Rattle.std.specs.Prelude.{◌≡◌, IfOk, Bool};
ghost use Rattle.actx_scalars.specs.Conversions.{string_value, number_value, truth_value, is_integer, is_safe_integer};

use crate::answer::{number_out, safe};
use crate::arguments::{argument, number};
use actx_ops::{OpOut, to_text};
use actx_value::{Reason, TextId, Texts, Value, is_true};
use std::alloc::{AllocError, Global};

/// `String(value)` (ECMA-262 §22.1.1.1).
pub(crate) fn string_value(
    alloc: Global,
    args: &[Value],
    texts: &Texts,
) -> Result<OpOut, AllocError>
    ensures { IfOk result (λ out. out ≡ string_value texts.now.texts args.now) }
{
    match args {
        [] => Ok(OpOut::Value(Value::Text(TextId(0)))),
        [v, ..] => to_text(alloc, *v, texts),
    }
}

/// `Number(value)` (ECMA-262 §21.1.1.1).
pub(crate) fn number_value(
    alloc: Global,
    args: &[Value],
    texts: &Texts,
) -> Result<OpOut, AllocError>
    ensures { IfOk result (λ out. out ≡ number_value texts.now.texts args.now) }
{
    match args {
        [] => Ok(OpOut::Value(Value::Num(0))),
        [v, ..] => match number(alloc, *v, texts)? {
            Some(n) => Ok(number_out(safe(n))),
            None => Ok(OpOut::OutOfProfile(Reason::Conversion)),
        },
    }
}

/// `Boolean(value)` (ECMA-262 §20.3.1.1).
pub(crate) fn truth_value(args: &[Value]) -> OpOut
    ensures { result ≡ truth_value args.now }
{
    OpOut::Value(Value::Bool(is_true(argument(args, 0))))
}

/// `Number.isInteger(number)` (ECMA-262 §21.1.2.3).
pub(crate) fn is_integer(v: Value) -> bool
    ensures { result ≡ is_integer v }
{
    matches!(v, Value::Num(_))
}

/// `Number.isSafeInteger(number)` (ECMA-262 §21.1.2.5).
pub(crate) fn is_safe_integer(v: Value) -> bool
    ensures { result ≡ is_safe_integer v }
{
    match v {
        Value::Num(n) => safe(n).is_some(),
        _ => false,
    }
}
