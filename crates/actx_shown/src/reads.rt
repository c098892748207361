//! What a printed form reads of an object.

ghost use Rattle.std.specs.Prelude.{◌≡◌};
ghost use Rattle.actx_value.specs.Texts.{text_at};
ghost use Rattle.actx_shown.specs.Reads.{read, text_read};

use actx_objects::Objects;
use actx_text::as_units;
use actx_value::{Key, ObjId, TextId, Texts, Value};

/// The units of a text by its number, and none for a number that isn't there.
pub(crate) fn units_of(texts: &Texts, t: TextId) -> &[u16]
    ensures { result.now ≡ text_at texts.now.texts t.0 }
{
    match texts.get(t) {
        Some(text) => as_units(text),
        None => &[],
    }
}

/// The value that a property's name reads along the prototypes (Get, ECMA-262 §7.3.2).
pub(crate) fn read(texts: &Texts, objects: &Objects, o: ObjId, name: &[u16]) -> Option<Value>
    ensures { result ≡ read texts.now.texts objects.now o name.now }
{
    match texts.number(name) {
        Some(t) => objects.get(o, Key::Name(t), texts),
        None => None,
    }
}

/// The text that a property is, where there is one, and else the empty one.
pub(crate) fn text_read<'a>(
    texts: &'a Texts,
    objects: &Objects,
    o: ObjId,
    name: &[u16],
) -> &'a [u16]
    ensures { result.now ≡ text_read texts.now.texts objects.now o name.now }
{
    match read(texts, objects, o, name) {
        Some(Value::Text(t)) => units_of(texts, t),
        _ => &[],
    }
}
