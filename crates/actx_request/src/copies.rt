//! Requests that copy the visible properties of a value.

ghost use Rattle.std.specs.Prelude.{◌≡◌, [], IfOk};
ghost use Rattle.actx_request.specs.Limits.{MeetsObjects};
ghost use Rattle.actx_request.specs.Copies.{source_of, copy_pairs, copy_units, copy_to, copy_of, rest_pairs, rest_units, rest_of};

use crate::given::{Given, go};
use crate::home::Home;
use crate::pairs::{first_index, first_key, open, put_pairs, put_units};
use crate::sources::{pairs_of, units_of_text};
use crate::writes::takes_none;
use actx_objects::{Kind, Objects};
use actx_value::{ErrorKind, Key, ObjId, StoreError, Texts, Value, Which};
use std::alloc::{AllocError, Global};

/// Copies pairs to an object that is being written down.
fn copy_pairs(
    o: ObjId,
    pairs: &[(Key, Value)],
    objects: &mut Objects,
    texts: &Texts,
) -> Result<Given, AllocError>
    ensures { IfOk result (λ g. MeetsObjects (copy_pairs o pairs.now) objects.old texts.now g objects.new texts.now) }
{
    let Some(k) = first_key(pairs) else {
        return Ok(go(Value::Undefined));
    };
    if let Some(refused) = open(o, k, objects, texts)? {
        return Ok(refused);
    }
    if put_pairs(o, pairs, objects, texts)? {
        Ok(go(Value::Undefined))
    } else {
        Ok(Given::Limit(Which::Properties))
    }
}

/// Copies units of a text to an object that is being written down.
fn copy_units(
    alloc: Global,
    o: ObjId,
    units: &[(u32, u16)],
    objects: &mut Objects,
    texts: &mut Texts,
) -> Result<Given, AllocError>
    ensures { IfOk result (λ g. MeetsObjects (copy_units o units.now) objects.old texts.old g objects.new texts.new) }
{
    let Some(k) = first_index(units) else {
        return Ok(go(Value::Undefined));
    };
    if let Some(refused) = open(o, k, objects, texts)? {
        return Ok(refused);
    }
    match put_units(alloc, o, units, objects, texts)? {
        None => Ok(go(Value::Undefined)),
        Some(which) => Ok(Given::Limit(which)),
    }
}

/// Copies the visible properties of a value to an object that is being written down.
fn copy_to(
    alloc: Global,
    o: ObjId,
    from: Value,
    objects: &mut Objects,
    texts: &mut Texts,
) -> Result<Given, AllocError>
    ensures { IfOk result (λ g. MeetsObjects (λ s. copy_to o (source_of [] from s) s) objects.old texts.old g objects.new texts.new) }
{
    match from {
        Value::Object(p) => {
            let pairs = pairs_of(alloc, p, &[], objects, texts)?;
            Ok(copy_pairs(o, pairs.as_slice(), objects, texts)?)
        }
        Value::Text(t) => {
            let units = units_of_text(alloc, t, &[], texts)?;
            Ok(copy_units(alloc, o, units.as_slice(), objects, texts)?)
        }
        _ => Ok(go(Value::Undefined)),
    }
}

/// The visible properties of `from` into an object that is being written down (ECMA-262 §13.2.5.5).
pub(crate) fn copy(
    alloc: Global,
    target: Value,
    from: Value,
    objects: &mut Objects,
    texts: &mut Texts,
) -> Result<Given, AllocError>
    ensures { IfOk result (λ g. MeetsObjects (copy_of target from) objects.old texts.old g objects.new texts.new) }
{
    match target {
        Value::Object(o) => Ok(copy_to(alloc, o, from, objects, texts)?),
        _ => Ok(takes_none(target)),
    }
}

/// A new object with these pairs.
fn rest_pairs(
    home: &Home,
    pairs: &[(Key, Value)],
    objects: &mut Objects,
    texts: &Texts,
) -> Result<Given, AllocError>
    ensures { IfOk result (λ g. MeetsObjects (rest_pairs home.now pairs.now) objects.old texts.now g objects.new texts.now) }
{
    match objects.make(Kind::Plain, Some(home.object)) {
        Ok(o) => {
            if put_pairs(o, pairs, objects, texts)? {
                Ok(go(Value::Object(o)))
            } else {
                Ok(Given::Limit(Which::Properties))
            }
        }
        Err(StoreError::Full) => Ok(Given::Limit(Which::Objects)),
        Err(StoreError::Memory) => Err(AllocError),
    }
}

/// A new object with these units.
fn rest_units(
    alloc: Global,
    home: &Home,
    units: &[(u32, u16)],
    objects: &mut Objects,
    texts: &mut Texts,
) -> Result<Given, AllocError>
    ensures { IfOk result (λ g. MeetsObjects (rest_units home.now units.now) objects.old texts.old g objects.new texts.new) }
{
    match objects.make(Kind::Plain, Some(home.object)) {
        Ok(o) => match put_units(alloc, o, units, objects, texts)? {
            None => Ok(go(Value::Object(o))),
            Some(which) => Ok(Given::Limit(which)),
        },
        Err(StoreError::Full) => Ok(Given::Limit(Which::Objects)),
        Err(StoreError::Memory) => Err(AllocError),
    }
}

/// A new object of the visible properties of `from` but those whose keys the list holds (RestBindingInitialization,
/// ECMA-262 §14.3.3.2).
pub(crate) fn rest(
    alloc: Global,
    home: &Home,
    from: Value,
    list: &[Value],
    objects: &mut Objects,
    texts: &mut Texts,
) -> Result<Given, AllocError>
    ensures { IfOk result (λ g. MeetsObjects (rest_of home.now from list.now) objects.old texts.old g objects.new texts.new) }
{
    match from {
        Value::Object(p) => {
            let pairs = pairs_of(alloc, p, list, objects, texts)?;
            Ok(rest_pairs(home, pairs.as_slice(), objects, texts)?)
        }
        Value::Text(t) => {
            let units = units_of_text(alloc, t, list, texts)?;
            Ok(rest_units(alloc, home, units.as_slice(), objects, texts)?)
        }
        Value::Num(_) | Value::Bool(_) => Ok(rest_pairs(home, &[], objects, texts)?),
        Value::Undefined | Value::Null | Value::Scope(_) | Value::Mark => {
            Ok(Given::Throw(ErrorKind::NO_PROPERTY))
        }
    }
}
