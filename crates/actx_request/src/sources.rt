//! What is copied from a value (CopyDataProperties, ECMA-262 §7.3.25).

ghost use Rattle.std.specs.Prelude.{◌≡◌, ◌++◌, ◌∷◌, [], if◌then◌else◌, IfOk, OnOk};
ghost use Rattle.actx_value.specs.Texts.{text_at};
ghost use Rattle.actx_request.specs.Copies.{is_kept, pair_at, pairs_of, units_of};

use crate::keys::{same_key, units_of};
use actx_objects::Objects;
use actx_ops::key_of;
use actx_value::{Key, ObjId, TextId, Texts, Value};
use std::alloc::{AllocError, Global};

/// Whether a key is none of the excluded ones.
fn is_kept(excluded: &[Value], k: Key, texts: &Texts) -> bool
    ensures { result ≡ is_kept texts.now.texts excluded.now k }
{
    for v in excluded {
        if same_key(key_of(*v, texts), k, texts) {
            return false;
        }
    }
    true
}

/// A key with the value of an object's own property.
fn pair_at(objects: &Objects, o: ObjId, k: Key, texts: &Texts) -> (Key, Value)
    ensures { result ≡ pair_at texts.now.texts objects.now o k }
{
    match objects.own(o, k, texts) {
        Some(v) => (k, v),
        None => (k, Value::Undefined),
    }
}

/// The visible properties of an object, in the order of its keys.
pub(crate) fn pairs_of(
    alloc: Global,
    o: ObjId,
    excluded: &[Value],
    objects: &Objects,
    texts: &Texts,
) -> Result<Vec<(Key, Value)>, AllocError>
    ensures { IfOk result (λ pairs. pairs.items ≡ pairs_of texts.now.texts objects.now excluded.now o) }
{
    let keys = objects.keys(o, texts)?;
    let mut pairs = Vec::new(alloc);
    for k in keys.as_slice() {
        if is_kept(excluded, *k, texts) {
            pairs.push(pair_at(objects, o, *k, texts))?;
        }
    }
    Ok(pairs)
}

/// The units of a text with their indices. No text has so many that an index isn't in 32 bits: it would count as want of
/// memory.
pub(crate) fn units_of_text(
    alloc: Global,
    t: TextId,
    excluded: &[Value],
    texts: &Texts,
) -> Result<Vec<(u32, u16)>, AllocError>
    ensures { IfOk result (λ units. units.items ≡ units_of texts.now.texts excluded.now (text_at texts.now.texts t.0)) }
{
    let text = units_of(texts, t);
    let mut units = Vec::new(alloc);
    for place in 0..text.len() {
        if place > u32::MAX as usize {
            return Err(AllocError);
        }
        let index = place as u32;
        let kept = is_kept(excluded, Key::Index(index), texts);
        push_kept(&mut units, index, text[place], kept)?;
    }
    Ok(units)
}

/// Puts a unit with its index at the end where it is kept.
fn push_kept(
    units: &mut Vec<(u32, u16)>,
    index: u32,
    unit: u16,
    kept: bool,
) -> Result<(), AllocError>
    ensures { OnOk result (units.new.items ≡ units.old.items ++ (if kept then (index, unit) ∷ [] else [])) }
{
    if kept {
        units.push((index, unit))?;
    }
    Ok(())
}
