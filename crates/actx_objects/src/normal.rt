//! Keys and values that stand for each text by its least number.

ghost use Rattle.std.specs.Prelude.{◌≡◌};
ghost use Rattle.actx_objects.specs.Keys.{normal_key, normal_value, is_length};

use actx_text::as_units;
use actx_value::{Key, Texts, Value};

/// The units of `length`.
const LENGTH: [u16; 6] = [108, 101, 110, 103, 116, 104];

/// The key by which a property stands.
pub(crate) fn normal_key(k: Key, texts: &Texts) -> Key
    ensures { result ≡ normal_key texts.now.texts k }
{
    match k {
        Key::Index(i) => Key::Index(i),
        Key::Name(t) => Key::Name(texts.least(t)),
    }
}

/// The value by which an entry stands.
pub(crate) fn normal_value(v: Value, texts: &Texts) -> Value
    ensures { result ≡ normal_value texts.now.texts v }
{
    match v {
        Value::Text(t) => Value::Text(texts.least(t)),
        Value::Undefined
        | Value::Null
        | Value::Bool(_)
        | Value::Num(_)
        | Value::Object(_)
        | Value::Scope(_)
        | Value::Mark => v,
    }
}

/// Whether a key is the name `length`.
pub(crate) fn is_length(k: Key, texts: &Texts) -> bool
    ensures { result ≡ is_length texts.now.texts k }
{
    match k {
        Key::Index(_) => false,
        Key::Name(t) => match texts.get(t) {
            Some(text) => as_units(text) == LENGTH.as_slice(),
            None => false,
        },
    }
}
