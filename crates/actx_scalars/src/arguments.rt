//! How natives read their receiver and their arguments.

ghost use Rattle.std.specs.Prelude.{◌≡◌, IfOk};
ghost use Rattle.std.specs.Option.{option_copied};
ghost use Rattle.actx_value.specs.Texts.{text_at};
ghost use Rattle.actx_ops.specs.Conversions.{number_of_value, text_of_value};
ghost use Rattle.actx_scalars.specs.Arguments.{argument, integer_or, receiver_text, kept};

use actx_ops::{Op, OpOut, apply, texts_of_numbers_are_read, to_text};
use actx_text::{Units, as_units, from_units};
use actx_value::{TextId, Texts, Value};
use std::alloc::{AllocError, Global};

/// The units of a text by its number, and none for a number that isn't there.
fn units_of(texts: &Texts, t: TextId) -> &[u16]
    ensures { result.now ≡ text_at texts.now.texts t.0 }
{
    match texts.get(t) {
        Some(text) => as_units(text),
        None => &[],
    }
}

/// The argument at a place, from 0, and `undefined` where there is none.
pub(crate) fn argument(args: &[Value], i: usize) -> Value
    ensures { result ≡ argument args.now i }
{
    args.get(i).copied().unwrap_or(Value::Undefined)
}

/// A value as a number (ToNumber, ECMA-262 §7.1.4), where it is a safe integer.
pub(crate) fn number(alloc: Global, v: Value, texts: &Texts) -> Result<Option<i64>, AllocError>
    ensures { IfOk result (λ n. n ≡ number_of_value texts.now.texts v) }
{
    if let Value::Num(n) = v {
        return Ok(Some(n));
    }
    texts_of_numbers_are_read();
    match apply(alloc, Op::ToNumber, v, Value::Undefined, texts)? {
        OpOut::Value(Value::Num(n)) => Ok(Some(n)),
        _ => Ok(None),
    }
}

/// A value as an integer (ToIntegerOrInfinity, ECMA-262 §7.1.5), and `missing` for `undefined`.
pub(crate) fn integer_or(
    alloc: Global,
    missing: i64,
    v: Value,
    texts: &Texts,
) -> Result<Option<i64>, AllocError>
    ensures { IfOk result (λ n. n ≡ integer_or texts.now.texts missing v) }
{
    match v {
        Value::Undefined => Ok(Some(missing)),
        other => number(alloc, other, texts),
    }
}

/// A value's text (ToString, ECMA-262 §7.1.17), where it is no object.
pub(crate) fn text(alloc: Global, v: Value, texts: &Texts) -> Result<Option<Units>, AllocError>
    ensures { IfOk result (λ text. text ≡ text_of_value texts.now.texts v) }
{
    if let Value::Text(t) = v {
        let units = Vec::from_slice(alloc, units_of(texts, t))?;
        return Ok(Some(from_units(units)));
    }
    match to_text(alloc, v, texts)? {
        OpOut::NewText(text) => Ok(Some(text)),
        _ => Ok(None),
    }
}

/// The units of a receiver that is a text.
pub(crate) fn receiver(this: Value, texts: &Texts) -> Option<&[u16]>
    ensures { option_copied result ≡ receiver_text texts.now.texts this }
{
    match this {
        Value::Text(t) => Some(units_of(texts, t)),
        _ => None,
    }
}

/// A text as it is; the number of one that isn't there counts as that of the empty text.
pub(crate) fn kept(this: Value, texts: &Texts) -> Value
    ensures { result ≡ kept texts.now.texts this }
{
    match this {
        Value::Text(t) => match texts.get(t) {
            Some(_) => this,
            None => Value::Text(TextId(0)),
        },
        other => other,
    }
}
