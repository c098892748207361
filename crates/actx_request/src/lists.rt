//! Requests that make an object or an array.

ghost use Rattle.std.specs.Prelude.{◌≡◌, false, not, IfOk};
ghost use Rattle.std.specs.Bool.{OnTrue};
ghost use Rattle.actx_objects.specs.declared.kind.Kind.TheVariants.{Array};
ghost use Rattle.actx_objects.specs.Objects.{kind_of, is_frozen, width_of};
ghost use Rattle.actx_request.specs.Limits.{MeetsObjectsAlone, properties_above};
ghost use Rattle.actx_request.specs.Lists.{object_new, filled, array_of};

use crate::given::{Given, go};
use crate::home::Home;
use actx_objects::{Kind, Objects, SetError};
use actx_value::{ObjId, StoreError, Value, Which};
use std::alloc::AllocError;

/// A new plain object (ECMA-262 §13.2.5.4).
pub(crate) fn object(home: &Home, objects: &mut Objects) -> Result<Given, AllocError>
    ensures { IfOk result (λ g. MeetsObjectsAlone (object_new home.now) objects.old g objects.new) }
{
    match objects.make(Kind::Plain, Some(home.object)) {
        Ok(o) => Ok(go(Value::Object(o))),
        Err(StoreError::Full) => Ok(Given::Limit(Which::Objects)),
        Err(StoreError::Memory) => Err(AllocError),
    }
}

/// A write that is refused stops a list of writes, and want of memory ends it.
pub(crate) fn stopped(e: SetError) -> Result<bool, AllocError>
    ensures stops { IfOk result (λ b. b ≡ false) }
    ensures memory { IfOk result (λ _. e ≡ SetError.Memory → ⊥) }
{
    match e {
        SetError::Memory => Err(AllocError),
        SetError::Frozen | SetError::Gap | SetError::ArrayProperty | SetError::Full => Ok(false),
    }
}

/// Puts values into an array that has none. False says that the properties would go above their limit.
fn fill(o: ObjId, list: &[Value], objects: &mut Objects) -> Result<bool, AllocError>
    requires array { kind_of objects.old o ≡ Array }
    requires thawed { is_frozen objects.old o ≡ false }
    requires empty { width_of objects.old o ≡ 0 }
    ensures fits { IfOk result (λ b. b ≡ not (properties_above objects.old (filled list.now o objects.old))) }
    ensures filled { IfOk result (λ b. OnTrue b (objects.new ≡ filled list.now o objects.old)) }
{
    for v in list {
        if let Err(e) = objects.push(o, *v) {
            return Ok(stopped(e)?);
        }
    }
    Ok(true)
}

/// A new array of these values (CreateArrayFromList, ECMA-262 §7.3.18).
pub(crate) fn array(home: &Home, list: &[Value], objects: &mut Objects) -> Result<Given, AllocError>
    ensures { IfOk result (λ g. MeetsObjectsAlone (array_of home.now list.now) objects.old g objects.new) }
{
    match objects.make(Kind::Array, Some(home.array)) {
        Ok(o) => {
            if fill(o, list, objects)? {
                Ok(go(Value::Object(o)))
            } else {
                Ok(Given::Limit(Which::Properties))
            }
        }
        Err(StoreError::Full) => Ok(Given::Limit(Which::Objects)),
        Err(StoreError::Memory) => Err(AllocError),
    }
}
