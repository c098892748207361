//! Conversions to numbers, texts and property keys.

ghost use Rattle.std.specs.Prelude.{◌≡◌, ◌++◌, IfOk, OnOk};
ghost use Rattle.actx_value.specs.Texts.{text_at};
ghost use Rattle.actx_ops.specs.Conversions.{known, number_of_value, text_of_value, new_text, as_text, as_key, key_of_value, IsPushed};

use crate::decimal::{index_in, index_of, number_in};
use crate::out::OpOut;
use actx_text::{Units, as_units, from_units, number_text};
use actx_value::{Key, Reason, TextId, Texts, Value};
use std::alloc::{AllocError, Global};

/// The units of a text by its number, and none for a number that isn't there.
pub(crate) fn units_of(texts: &Texts, t: TextId) -> &[u16]
    ensures { result.now ≡ text_at texts.now.texts t.0 }
{
    match texts.get(t) {
        Some(text) => as_units(text),
        None => &[],
    }
}

/// The number of a text that is there; any other number counts as that of the empty text.
fn known(texts: &Texts, t: TextId) -> TextId
    ensures { result ≡ known texts.now.texts t }
{
    match texts.get(t) {
        Some(_) => t,
        None => TextId(0),
    }
}

/// A value as a number (ToNumber, ECMA-262 §7.1.4), where it is a safe integer.
pub(crate) fn number_of_value(v: Value, texts: &Texts) -> Option<i64>
    ensures { result ≡ number_of_value texts.now.texts v }
{
    match v {
        Value::Null | Value::Bool(false) => Some(0),
        Value::Bool(true) => Some(1),
        Value::Num(n) => Some(n),
        Value::Text(t) => number_in(units_of(texts, t)),
        Value::Undefined | Value::Object(_) | Value::Scope(_) | Value::Mark => None,
    }
}

/// Puts a value's text at the end (ToString, ECMA-262 §7.1.17). False says that the value has none,
/// and leaves the units as they were.
pub(crate) fn push_text(
    alloc: Global,
    units: &mut Vec<u16>,
    v: Value,
    texts: &Texts,
) -> Result<bool, AllocError>
    ensures { IfOk result (λ found. IsPushed units.old.items (text_of_value texts.now.texts v) found units.new.items) }
{
    match v {
        Value::Undefined => push_word(units, b"undefined")?,
        Value::Null => push_word(units, b"null")?,
        Value::Bool(true) => push_word(units, b"true")?,
        Value::Bool(false) => push_word(units, b"false")?,
        Value::Num(n) => units.extend_from_slice(as_units(&number_text(alloc, n)?))?,
        Value::Text(t) => units.extend_from_slice(units_of(texts, t))?,
        Value::Object(_) | Value::Scope(_) | Value::Mark => return Ok(false),
    }
    Ok(true)
}

/// Puts the letters of an ASCII word at the end.
fn push_word(units: &mut Vec<u16>, word: &[u8]) -> Result<(), AllocError>
    ensures { OnOk result (units.new.items ≡ units.old.items ++ word.now) }
{
    for letter in word {
        units.push(u16::from(*letter))?;
    }
    Ok(())
}

/// A value's text as a new one.
fn new_text(alloc: Global, v: Value, texts: &Texts) -> Result<OpOut, AllocError>
    ensures { IfOk result (λ out. out ≡ new_text (text_of_value texts.now.texts v)) }
{
    let mut units = Vec::new(alloc);
    if push_text(alloc, &mut units, v, texts)? {
        Ok(OpOut::NewText(from_units(units)))
    } else {
        Ok(OpOut::OutOfProfile(Reason::Conversion))
    }
}

/// A value as a text (ToString, ECMA-262 §7.1.17). A text is handed on as it is; numbers, truth
/// values, `undefined` and `null` give a new text; an object is `OutOfProfile`. A text number that
/// isn't there counts as that of the empty text.
///
/// # Errors
/// Only want of memory.
pub fn to_text(alloc: Global, v: Value, texts: &Texts) -> Result<OpOut, AllocError>
    ensures { IfOk result (λ out. out ≡ as_text texts.now.texts v) }
{
    match v {
        Value::Text(t) => Ok(OpOut::Value(Value::Text(known(texts, t)))),
        other => new_text(alloc, other, texts),
    }
}

/// A value as a property key (ToPropertyKey, ECMA-262 §7.1.19): a number for an array index, from 0 to
/// 4294967294, and a text for any other key; an object is `OutOfProfile`.
///
/// # Errors
/// Only want of memory.
pub fn to_key(alloc: Global, v: Value, texts: &Texts) -> Result<OpOut, AllocError>
    ensures { IfOk result (λ out. out ≡ as_key texts.now.texts v) }
{
    match v {
        Value::Num(n) => match index_of(n) {
            Some(index) => Ok(OpOut::Value(Value::Num(i64::from(index)))),
            None => new_text(alloc, v, texts),
        },
        Value::Text(t) => match index_in(units_of(texts, t)) {
            Some(index) => Ok(OpOut::Value(Value::Num(i64::from(index)))),
            None => Ok(OpOut::Value(Value::Text(known(texts, t)))),
        },
        other => new_text(alloc, other, texts),
    }
}

/// The property key that a value stands for (ECMA-262 §6.1.7): the index of a number from 0 to
/// 4294967294 and of a text that spells one, the name of any other text, and the empty name for every
/// other value. It takes no memory.
pub fn key_of(v: Value, texts: &Texts) -> Key
    ensures { result ≡ key_of_value texts.now.texts v }
{
    match v {
        Value::Num(n) => match index_of(n) {
            Some(index) => Key::Index(index),
            None => Key::Name(TextId(0)),
        },
        Value::Text(t) => match index_in(units_of(texts, t)) {
            Some(index) => Key::Index(index),
            None => Key::Name(known(texts, t)),
        },
        _ => Key::Name(TextId(0)),
    }
}
