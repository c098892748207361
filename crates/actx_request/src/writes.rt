//! Requests that write a property or end one.

ghost use Rattle.std.specs.Prelude.{◌≡◌, IfOk, OnOk, OnErr, IsTrue};
ghost use Rattle.actx_ops.specs.Numbers.{is_below_zero};
ghost use Rattle.actx_objects.specs.Objects.{is_array_length, is_frozen};
ghost use Rattle.actx_objects.specs.Writes.{refusal_of, IsRefusedBy, written};
ghost use Rattle.actx_request.specs.Limits.{MeetsAlone, MeetsObjects};
ghost use Rattle.actx_request.specs.Writes.{write_to, as_number, length_written, put_on, takes_none, put_of, has_of_text, delete_on, delete_of};

use crate::given::{Given, go};
use crate::home::Home;
use crate::keys::{is_length, same_key, unit_at};
use actx_objects::{DeleteError, Kind, Objects, SetError};
use actx_ops::{OpOut, apply, key_of};
use actx_value::{ErrorKind, Key, ObjId, Op, Reason, TextId, Texts, Value, Which};
use std::alloc::{AllocError, Global};

/// Writes a value to a property; `hidden` marks a new one.
fn set(
    hidden: bool,
    o: ObjId,
    k: Key,
    v: Value,
    objects: &mut Objects,
    texts: &Texts,
) -> Result<(), SetError>
    ensures ok { OnOk result (objects.new ≡ written texts.now.texts objects.old o k v hidden) }
    ensures refused { IsRefusedBy (refusal_of texts.now.texts objects.old o k v) result }
    ensures err { OnErr result (objects.new ≡ objects.old) }
{
    if hidden {
        objects.set_hidden(o, k, v, texts)
    } else {
        objects.set(o, k, v, texts)
    }
}

/// A write to an object (OrdinarySet, ECMA-262 §10.1.9.1).
fn write(
    hidden: bool,
    o: ObjId,
    k: Key,
    v: Value,
    objects: &mut Objects,
    texts: &Texts,
) -> Result<Given, AllocError>
    ensures { IfOk result (λ g. MeetsObjects (write_to hidden o k v) objects.old texts.now g objects.new texts.now) }
{
    match set(hidden, o, k, v, objects, texts) {
        Ok(()) => Ok(go(Value::Undefined)),
        Err(SetError::Frozen) => Ok(Given::Throw(ErrorKind::FROZEN)),
        Err(SetError::Gap) => Ok(Given::OutOfProfile(Reason::Sparse)),
        Err(SetError::ArrayProperty) => Ok(Given::OutOfProfile(Reason::ArrayProperty)),
        Err(SetError::Full) => Ok(Given::Limit(Which::Properties)),
        Err(SetError::Memory) => Err(AllocError),
    }
}

/// Whether a key is the `length` of an array.
fn is_array_length(objects: &Objects, o: ObjId, k: Key, texts: &Texts) -> bool
    ensures { result ≡ is_array_length texts.now.texts objects.now o k }
{
    match objects.kind(o) {
        Kind::Array => is_length(k, texts),
        _ => false,
    }
}

/// Whether an array is frozen. A write of `undefined` to its `length` is refused whatever it is, and its refusal tells.
fn is_frozen(o: ObjId, k: Key, objects: &mut Objects, texts: &Texts) -> bool
    requires { IsTrue (is_array_length texts.now.texts objects.old o k) }
    ensures frozen { result ≡ is_frozen objects.old o }
    ensures same { objects.new ≡ objects.old }
{
    match objects.set(o, k, Value::Undefined, texts) {
        Err(SetError::Frozen) => true,
        _ => false,
    }
}

/// A conversion to a number, or why there is none.
fn as_number(out: OpOut) -> Result<i64, Reason>
    ensures { result ≡ as_number out }
{
    match out {
        OpOut::Value(Value::Num(n)) => Ok(n),
        OpOut::OutOfProfile(r) => Err(r),
        _ => Err(Reason::Conversion),
    }
}

/// Whether a number is below 0.
fn is_below_zero(n: i64) -> bool
    ensures { result ≡ is_below_zero n }
{
    n < 0
}

/// A write to the `length` of an array that isn't frozen (ArraySetLength, ECMA-262 §10.4.2.4), by what the value is as a
/// number.
fn write_length(
    hidden: bool,
    o: ObjId,
    k: Key,
    number: Result<i64, Reason>,
    objects: &mut Objects,
    texts: &Texts,
) -> Result<Given, AllocError>
    ensures { IfOk result (λ g. MeetsObjects (length_written hidden o k number) objects.old texts.now g objects.new texts.now) }
{
    let n = match number {
        Ok(n) => n,
        Err(r) => return Ok(Given::OutOfProfile(r)),
    };
    if is_below_zero(n) {
        return Ok(Given::Throw(ErrorKind::OUT_OF_RANGE));
    }
    Ok(write(hidden, o, k, Value::Num(n), objects, texts)?)
}

/// A write to an object, where a value for the `length` of an array goes to a number first.
fn put_on(
    alloc: Global,
    hidden: bool,
    o: ObjId,
    k: Key,
    v: Value,
    objects: &mut Objects,
    texts: &Texts,
) -> Result<Given, AllocError>
    ensures { IfOk result (λ g. MeetsObjects (put_on hidden o k v) objects.old texts.now g objects.new texts.now) }
{
    if is_array_length(objects, o, k, texts) && !is_frozen(o, k, objects, texts) {
        let number = as_number(apply(alloc, Op::ToNumber, v, v, texts)?);
        return Ok(write_length(hidden, o, k, number, objects, texts)?);
    }
    Ok(write(hidden, o, k, v, objects, texts)?)
}

/// The throw of a write to what isn't an object.
pub(crate) fn takes_none(v: Value) -> Given
    ensures { MeetsAlone (takes_none v) result }
{
    match v {
        Value::Bool(_) | Value::Num(_) | Value::Text(_) => Given::Throw(ErrorKind::NOT_AN_OBJECT),
        _ => Given::Throw(ErrorKind::NO_PROPERTY),
    }
}

/// A write to a property of a value (PutValue, ECMA-262 §6.2.5.6; CreateDataPropertyOrThrow, §7.3.7); `hidden` marks a
/// new one (DefineMethodProperty, §10.2.8).
pub(crate) fn put(
    alloc: Global,
    hidden: bool,
    target: Value,
    key: Value,
    v: Value,
    objects: &mut Objects,
    texts: &Texts,
) -> Result<Given, AllocError>
    ensures { IfOk result (λ g. MeetsObjects (put_of hidden target key v) objects.old texts.now g objects.new texts.now) }
{
    match target {
        Value::Object(o) => Ok(put_on(alloc, hidden, o, key_of(key, texts), v, objects, texts)?),
        _ => Ok(takes_none(target)),
    }
}

/// Whether a text has the property of its own (StringGetOwnProperty, ECMA-262 §10.4.3.5).
fn has_of_text(home: &Home, t: TextId, k: Key, texts: &Texts) -> bool
    ensures { result ≡ has_of_text home.now texts.now.texts t.0 k }
{
    same_key(k, Key::Name(home.length), texts) || unit_at(t, k, texts).is_some()
}

/// The end of a property of an object (OrdinaryDelete, ECMA-262 §10.1.10.1).
fn delete_on(o: ObjId, k: Key, objects: &mut Objects, texts: &Texts) -> Given
    ensures { MeetsObjects (delete_on o k) objects.old texts.now result objects.new texts.now }
{
    match objects.delete(o, k, texts) {
        Ok(_) => go(Value::Bool(true)),
        Err(DeleteError::Frozen) => Given::Throw(ErrorKind::FROZEN),
        Err(DeleteError::Sparse) => Given::OutOfProfile(Reason::Sparse),
    }
}

/// The end of a property of a value (ECMA-262 §13.5.1.2).
pub(crate) fn delete(
    target: Value,
    key: Value,
    home: &Home,
    objects: &mut Objects,
    texts: &Texts,
) -> Given
    ensures { MeetsObjects (delete_of home.now target key) objects.old texts.now result objects.new texts.now }
{
    let k = key_of(key, texts);
    match target {
        Value::Object(o) => delete_on(o, k, objects, texts),
        Value::Text(t) => {
            if has_of_text(home, t, k, texts) {
                Given::Throw(ErrorKind::NOT_AN_OBJECT)
            } else {
                go(Value::Bool(true))
            }
        }
        Value::Num(_) | Value::Bool(_) => go(Value::Bool(true)),
        Value::Undefined | Value::Null | Value::Scope(_) | Value::Mark => {
            Given::Throw(ErrorKind::NO_PROPERTY)
        }
    }
}
