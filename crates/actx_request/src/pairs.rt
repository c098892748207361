//! Writes of what is copied.

ghost use Rattle.std.specs.Prelude.{◌≡◌, false, not, IfOk, IfNone, IfSome};
ghost use Rattle.std.specs.Bool.{OnTrue};
ghost use Rattle.actx_objects.specs.Kinds.{is_array};
ghost use Rattle.actx_objects.specs.Objects.{kind_of, is_frozen};
ghost use Rattle.actx_request.specs.Limits.{properties_above};
ghost use Rattle.actx_request.specs.Copies.{with_pairs_at, with_units};
ghost use Rattle.actx_request.specs.Puts.{first_key, first_index, with_units_at, units_above, IsOpened, IsShut};

use crate::given::Given;
use crate::lists::stopped;
use crate::units::{add_units, blank_pairs};
use actx_objects::{Kind, Objects, SetError};
use actx_value::{ErrorKind, Key, ObjId, Reason, Texts, Value, Which};
use std::alloc::{AllocError, Global};

/// Writes visible values to keys of an object that is neither an array nor frozen. False says that the properties would go
/// above their limit.
pub(crate) fn put_pairs(
    o: ObjId,
    pairs: &[(Key, Value)],
    objects: &mut Objects,
    texts: &Texts,
) -> Result<bool, AllocError>
    requires plain { is_array (kind_of objects.old o) ≡ false }
    requires thawed { is_frozen objects.old o ≡ false }
    ensures fits { IfOk result (λ b. b ≡ not (properties_above objects.old (with_pairs_at texts.now.texts pairs.now o objects.old))) }
    ensures written { IfOk result (λ b. OnTrue b (objects.new ≡ with_pairs_at texts.now.texts pairs.now o objects.old)) }
{
    for (k, v) in pairs {
        if let Err(e) = objects.set(o, *k, *v, texts) {
            return Ok(stopped(e)?);
        }
    }
    Ok(true)
}

/// Writes units as texts of their own to their indices. Gives the first count that would go above its limit, and `None`
/// where all is written.
pub(crate) fn put_units(
    alloc: Global,
    o: ObjId,
    units: &[(u32, u16)],
    objects: &mut Objects,
    texts: &mut Texts,
) -> Result<Option<Which>, AllocError>
    requires plain { is_array (kind_of objects.old o) ≡ false }
    requires thawed { is_frozen objects.old o ≡ false }
    ensures above { IfOk result (λ w. w ≡ units_above units.now o objects.old texts.old) }
    ensures objects { IfOk result (λ w. IfNone w (objects.new ≡ with_units_at units.now o objects.old texts.old)) }
    ensures texts { IfOk result (λ w. IfNone w (texts.new ≡ with_units units.now texts.old)) }
{
    match add_units(alloc, units, texts)? {
        Some(pairs) => {
            if put_pairs(o, pairs.as_slice(), objects, texts)? {
                Ok(None)
            } else {
                Ok(Some(Which::Properties))
            }
        }
        None => {
            let pairs = blank_pairs(alloc, units)?;
            if put_pairs(o, pairs.as_slice(), objects, texts)? {
                Ok(Some(Which::Text))
            } else {
                Ok(Some(Which::Properties))
            }
        }
    }
}

/// Whether an object is an array.
fn is_array(objects: &Objects, o: ObjId) -> bool
    ensures { result ≡ is_array (kind_of objects.now o) }
{
    matches!(objects.kind(o), Kind::Array)
}

/// Writes `undefined` to the first key of what is copied, which tells whether the object takes any. Gives what the request
/// gives where it doesn't.
pub(crate) fn open(
    o: ObjId,
    k: Key,
    objects: &mut Objects,
    texts: &Texts,
) -> Result<Option<Given>, AllocError>
    ensures opened { IfOk result (λ r. IfNone r (IsOpened texts.now.texts o k objects.old objects.new)) }
    ensures shut { IfOk result (λ r. IfSome r (λ g. IsShut o k objects.old texts.now g objects.new)) }
{
    if is_array(objects, o) {
        return Ok(Some(Given::OutOfProfile(Reason::ArrayProperty)));
    }
    match objects.set(o, k, Value::Undefined, texts) {
        Ok(()) => Ok(None),
        Err(SetError::Frozen) => Ok(Some(Given::Throw(ErrorKind::FROZEN))),
        Err(SetError::Gap) => Ok(Some(Given::OutOfProfile(Reason::Sparse))),
        Err(SetError::ArrayProperty) => Ok(Some(Given::OutOfProfile(Reason::ArrayProperty))),
        Err(SetError::Full) => Ok(Some(Given::Limit(Which::Properties))),
        Err(SetError::Memory) => Err(AllocError),
    }
}

/// The first key of what is copied.
pub(crate) fn first_key(pairs: &[(Key, Value)]) -> Option<Key>
    ensures { result ≡ first_key pairs.now }
{
    match pairs.first() {
        Some((k, _)) => Some(*k),
        None => None,
    }
}

/// The first key of units that are copied.
pub(crate) fn first_index(units: &[(u32, u16)]) -> Option<Key>
    ensures { result ≡ first_index units.now }
{
    match units.first() {
        Some((index, _)) => Some(Key::Index(*index)),
        None => None,
    }
}
