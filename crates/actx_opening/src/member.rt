//! The properties of the built-in objects.

ghost use Rattle.std.specs.Prelude.{◌≡◌, ◌+◌, true, IfOk, OnOk};
ghost use Rattle.std.specs.List.{fold};
ghost use Rattle.actx_objects.specs.Writes.{written};
ghost use Rattle.actx_opening.specs.Members.{value_from, with_member};

use actx_objects::Objects;
use actx_value::{Key, ObjId, TextId, Texts, Value};
use std::alloc::AllocError;

/// The value of a property of a built-in object.
#[derive(Clone, Copy, Debug)]
pub enum Given {
    /// A built-in object.
    Object(ObjId),
    /// A word, by its place among those of the opening store, from 0.
    Text(u32),
    /// The empty text.
    Empty,
    /// A number.
    Number(i64),
}

/// A property of a built-in object: its holder, the place of its name among the words of the opening store, from 0, and
/// its value.
#[derive(Clone, Copy, Debug)]
pub struct Member(pub ObjId, pub u32, pub Given);

/// The number of the word at a place, where `first` is the number of the first word.
fn word_number(first: u32, place: u32) -> Result<TextId, AllocError>
    ensures { IfOk result (λ t. t ≡ record { 0 = first + place }) }
{
    match first.checked_add(place) {
        Some(n) => Ok(TextId(n)),
        None => Err(AllocError),
    }
}

/// The value of a property.
fn value_from(first: u32, given: Given) -> Result<Value, AllocError>
    ensures { IfOk result (λ v. v ≡ value_from first given) }
{
    match given {
        Given::Object(o) => Ok(Value::Object(o)),
        Given::Text(place) => Ok(Value::Text(word_number(first, place)?)),
        Given::Empty => Ok(Value::Text(TextId(0))),
        Given::Number(n) => Ok(Value::Num(n)),
    }
}

/// Puts a hidden property.
fn put(objects: &mut Objects, texts: &Texts, o: ObjId, k: Key, v: Value) -> Result<(), AllocError>
    ensures { OnOk result (objects.new ≡ written texts.now.texts objects.old o k v true) }
{
    match objects.set_hidden(o, k, v, texts) {
        Ok(()) => Ok(()),
        Err(_) => Err(AllocError),
    }
}

/// Puts one property, where `first` is the number of the first word.
fn put_member(
    objects: &mut Objects,
    texts: &Texts,
    first: u32,
    member: Member,
) -> Result<(), AllocError>
    ensures { OnOk result (objects.new ≡ with_member texts.now.texts first objects.old member) }
{
    let name = word_number(first, member.1)?;
    let value = value_from(first, member.2)?;
    put(objects, texts, member.0, Key::Name(name), value)
}

/// Puts the properties of a table, in order.
pub(crate) fn put_all(
    objects: &mut Objects,
    texts: &Texts,
    first: u32,
    table: &[Member],
) -> Result<(), AllocError>
    ensures { OnOk result (objects.new ≡ fold (with_member texts.now.texts first) objects.old table.now) }
{
    for member in table {
        put_member(objects, texts, first, *member)?;
    }
    Ok(())
}
