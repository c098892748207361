//! What stands in a container, in order.

ghost use Rattle.std.specs.Prelude.{◌≡◌, ◌∷◌, [], ◌++◌, true, unwrap_or, IfOk, OnOk};
ghost use Rattle.actx_value.specs.declared.value.Value.TheVariants.{Undefined};
ghost use Rattle.actx_shown.specs.Items.{alone, property, elements, properties, entry_item, entries, items_of};
ghost use Rattle.actx_objects.specs.Kinds.{is_collection};
ghost use Rattle.actx_objects.specs.Objects.{kind_of, own_of};

use crate::pushes::push_ascii;
use crate::quotes::push_key;
use actx_objects::{Kind, Objects};
use actx_text::{Units, from_units};
use actx_value::{Key, ObjId, Texts, Value};
use std::alloc::{AllocError, Global};

/// One item of a container: a value with what stands before it, and the value under it in a Map.
#[derive(Drop)]
pub struct Item {
    /// What stands before the value: the key of a property and a colon, or nothing.
    pub label: Units,
    /// The element, the value of a property, or the key of an entry.
    pub value: Value,
    /// The value of an entry of a Map.
    pub under: Option<Value>,
}

/// Puts a value without a label at the end.
fn push_alone(
    alloc: Global,
    items: &mut Vec<Item>,
    value: Value,
    under: Option<Value>,
) -> Result<(), AllocError>
    ensures { OnOk result (items.new.items ≡ items.old.items ++ record { label = []; value = value; under = under } ∷ []) }
{
    let label = from_units(Vec::new(alloc));
    items.push(Item {
        label,
        value,
        under,
    })?;
    Ok(())
}

/// Puts a property at the end.
fn push_property(
    alloc: Global,
    items: &mut Vec<Item>,
    texts: &Texts,
    objects: &Objects,
    o: ObjId,
    k: Key,
) -> Result<(), AllocError>
    ensures { OnOk result (items.new.items ≡ items.old.items ++ property texts.now.texts objects.now o k ∷ []) }
{
    let mut label = Vec::new(alloc);
    push_key(alloc, &mut label, k, texts)?;
    push_ascii(&mut label, b": ")?;
    let value = objects.own(o, k, texts).unwrap_or(Value::Undefined);
    let label = from_units(label);
    items.push(Item {
        label,
        value,
        under: None,
    })?;
    Ok(())
}

/// Puts the value at a key at the end, without a label.
fn push_element(
    alloc: Global,
    items: &mut Vec<Item>,
    texts: &Texts,
    objects: &Objects,
    o: ObjId,
    k: Key,
) -> Result<(), AllocError>
    ensures { OnOk result (items.new.items ≡ items.old.items ++ alone (unwrap_or (own_of texts.now.texts objects.now o k) Undefined) ∷ []) }
{
    let value = objects.own(o, k, texts);
    push_alone(alloc, items, value.unwrap_or(Value::Undefined), None)
}

/// The elements of an array.
fn elements(
    alloc: Global,
    texts: &Texts,
    objects: &Objects,
    o: ObjId,
) -> Result<Vec<Item>, AllocError>
    ensures { IfOk result (λ items. items.items ≡ elements texts.now.texts objects.now o) }
{
    let mut items = Vec::new(alloc);
    let keys = objects.keys(o, texts)?;
    for k in &keys {
        push_element(alloc, &mut items, texts, objects, o, *k)?;
    }
    Ok(items)
}

/// The properties of an object that are listed.
fn properties(
    alloc: Global,
    texts: &Texts,
    objects: &Objects,
    o: ObjId,
) -> Result<Vec<Item>, AllocError>
    ensures { IfOk result (λ items. items.items ≡ properties texts.now.texts objects.now o) }
{
    let mut items = Vec::new(alloc);
    let keys = objects.keys(o, texts)?;
    for k in &keys {
        push_property(alloc, &mut items, texts, objects, o, *k)?;
    }
    Ok(items)
}

/// Puts an entry at the end: its key, with its value under it in a Map.
fn push_entry(
    alloc: Global,
    items: &mut Vec<Item>,
    has_values: bool,
    key: Value,
    value: Value,
) -> Result<(), AllocError>
    ensures { OnOk result (items.new.items ≡ items.old.items ++ entry_item has_values key value ∷ []) }
{
    if has_values {
        push_alone(alloc, items, key, Some(value))
    } else {
        push_alone(alloc, items, key, None)
    }
}

/// The entries of a Map, with their values, or of a Set, without.
fn entries(
    alloc: Global,
    objects: &Objects,
    o: ObjId,
    has_values: bool,
) -> Result<Vec<Item>, AllocError>
    requires { is_collection (kind_of objects.now o) ≡ true }
    ensures { IfOk result (λ items. items.items ≡ entries has_values objects.now o) }
{
    let mut items = Vec::new(alloc);
    objects.entries_stand_in_order(o);
    let mut place = 0u64;
    for _ in 0..objects.len(o) {
        match objects.entry_at(o, place) {
            Some((at, key, value)) => {
                push_entry(alloc, &mut items, has_values, key, value)?;
                place = at + 1;
            }
            None => return Ok(items),
        }
    }
    Ok(items)
}

/// What stands in a container, in order.
pub(crate) fn items_of(
    alloc: Global,
    texts: &Texts,
    objects: &Objects,
    o: ObjId,
) -> Result<Vec<Item>, AllocError>
    ensures { IfOk result (λ items. items.items ≡ items_of texts.now.texts objects.now o) }
{
    match objects.kind(o) {
        Kind::Array => elements(alloc, texts, objects, o),
        Kind::Map => entries(alloc, objects, o, true),
        Kind::Set => entries(alloc, objects, o, false),
        _ => properties(alloc, texts, objects, o),
    }
}
