//! Requests that read a property.

ghost use Rattle.std.specs.Prelude.{◌≡◌, ◌∷◌, [], pos, IfOk};
ghost use Rattle.actx_request.specs.Limits.{MeetsObjects};
ghost use Rattle.actx_request.specs.Members.{inherited, is_size, member_of, member_of_text, get_of, prototype_of, super_get};

use crate::given::{Given, go};
use crate::home::Home;
use crate::keys::{same_key, unit_at, units_of};
use crate::operators::new_text;
use actx_objects::{Kind, Objects};
use actx_ops::key_of;
use actx_text::{Units, from_units};
use actx_value::{ErrorKind, Key, ObjId, TextId, Texts, Value};
use std::alloc::{AllocError, Global};

/// The value along the prototypes, `undefined` where there is none (OrdinaryGet, ECMA-262 §10.1.8.1).
fn inherited(objects: &Objects, o: ObjId, k: Key, texts: &Texts) -> Value
    ensures { result ≡ inherited texts.now.texts objects.now o k }
{
    match objects.get(o, k, texts) {
        Some(v) => v,
        None => Value::Undefined,
    }
}

/// Whether a key is the `size` of a Map or a Set (ECMA-262 §24.1.3.10, §24.2.4.14).
fn is_size(home: &Home, objects: &Objects, o: ObjId, k: Key, texts: &Texts) -> bool
    ensures { result ≡ is_size home.now texts.now.texts objects.now o k }
{
    match objects.kind(o) {
        Kind::Map | Kind::Set => same_key(k, Key::Name(home.size), texts),
        _ => false,
    }
}

/// A count as a number. One that is no number counts as want of memory.
fn number(n: usize) -> Result<Value, AllocError>
    ensures { IfOk result (λ v. v ≡ Value.Num (pos n)) }
{
    match i64::try_from(n) {
        Ok(n) => Ok(Value::Num(n)),
        Err(_) => Err(AllocError),
    }
}

/// A property of an object.
fn member_of(
    home: &Home,
    objects: &Objects,
    o: ObjId,
    k: Key,
    texts: &Texts,
) -> Result<Value, AllocError>
    ensures { IfOk result (λ v. v ≡ member_of home.now texts.now.texts objects.now o k) }
{
    if let Some(v) = objects.get(o, k, texts) {
        return Ok(v);
    }
    if is_size(home, objects, o, k, texts) {
        return Ok(number(objects.len(o))?);
    }
    Ok(Value::Undefined)
}

/// A unit as a text.
pub(crate) fn unit_text(alloc: Global, unit: u16) -> Result<Units, AllocError>
    ensures { IfOk result (λ text. text ≡ unit ∷ []) }
{
    let mut units = Vec::new(alloc);
    units.push(unit)?;
    Ok(from_units(units))
}

/// A property of a text: its length, its units, and what texts inherit.
fn member_of_text(
    alloc: Global,
    home: &Home,
    t: TextId,
    k: Key,
    objects: &Objects,
    texts: &mut Texts,
) -> Result<Given, AllocError>
    ensures { IfOk result (λ g. MeetsObjects (member_of_text home.now t k) objects.now texts.old g objects.now texts.new) }
{
    if same_key(k, Key::Name(home.length), texts) {
        return Ok(go(number(units_of(texts, t).len())?));
    }
    match unit_at(t, k, texts) {
        Some(unit) => {
            let text = unit_text(alloc, unit)?;
            Ok(new_text(text, texts)?)
        }
        None => Ok(go(inherited(objects, home.text, k, texts))),
    }
}

/// A property of a value (GetValue, ECMA-262 §6.2.5.5).
pub(crate) fn get(
    alloc: Global,
    v: Value,
    key: Value,
    home: &Home,
    objects: &Objects,
    texts: &mut Texts,
) -> Result<Given, AllocError>
    ensures { IfOk result (λ g. MeetsObjects (get_of home.now v key) objects.now texts.old g objects.now texts.new) }
{
    let k = key_of(key, texts);
    match v {
        Value::Object(o) => Ok(go(member_of(home, objects, o, k, texts)?)),
        Value::Text(t) => Ok(member_of_text(alloc, home, t, k, objects, texts)?),
        Value::Num(_) => Ok(go(inherited(objects, home.number, k, texts))),
        Value::Bool(_) => Ok(go(inherited(objects, home.truth, k, texts))),
        Value::Undefined | Value::Null | Value::Scope(_) | Value::Mark => {
            Ok(Given::Throw(ErrorKind::NO_PROPERTY))
        }
    }
}

/// The prototype of a home object.
fn prototype_of(objects: &Objects, v: Value) -> Option<ObjId>
    ensures { result ≡ prototype_of objects.now v }
{
    match v {
        Value::Object(o) => objects.proto(o),
        _ => None,
    }
}

/// A property of the prototype of a home object (MakeSuperPropertyReference, ECMA-262 §13.3.7.3).
pub(crate) fn super_get(v: Value, key: Value, objects: &Objects, texts: &Texts) -> Given
    ensures { MeetsObjects (super_get v key) objects.now texts.now result objects.now texts.now }
{
    let k = key_of(key, texts);
    match prototype_of(objects, v) {
        Some(p) => go(inherited(objects, p, k, texts)),
        None => Given::Throw(ErrorKind::NO_PROPERTY),
    }
}
