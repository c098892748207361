//! Keys, and what texts have under them.

ghost use Rattle.std.specs.Prelude.{◌≡◌};
ghost use Rattle.actx_value.specs.Texts.{text_at};
ghost use Rattle.actx_objects.specs.Keys.{is_length};
ghost use Rattle.actx_request.specs.Members.{same_key, unit_at};

use actx_text::as_units;
use actx_value::{Key, TextId, Texts};

/// The units of `length`.
const LENGTH: [u16; 6] = [108, 101, 110, 103, 116, 104];

/// The units of a text by its number, and none for a number that isn't there.
pub(crate) fn units_of(texts: &Texts, t: TextId) -> &[u16]
    ensures { result.now ≡ text_at texts.now.texts t.0 }
{
    match texts.get(t) {
        Some(text) => as_units(text),
        None => &[],
    }
}

/// Whether two keys are one. Names are equal where their texts are.
pub(crate) fn same_key(a: Key, b: Key, texts: &Texts) -> bool
    ensures { result ≡ same_key texts.now.texts a b }
{
    match (a, b) {
        (Key::Index(i), Key::Index(j)) => i == j,
        (Key::Name(s), Key::Name(t)) => texts.least(s).0 == texts.least(t).0,
        _ => false,
    }
}

/// Whether a key is the name `length`.
pub(crate) fn is_length(k: Key, texts: &Texts) -> bool
    ensures { result ≡ is_length texts.now.texts k }
{
    match k {
        Key::Index(_) => false,
        Key::Name(t) => units_of(texts, t) == LENGTH.as_slice(),
    }
}

/// The unit of a text at an index (StringGetOwnProperty, ECMA-262 §10.4.3.5).
pub(crate) fn unit_at(t: TextId, k: Key, texts: &Texts) -> Option<u16>
    ensures { result ≡ unit_at (text_at texts.now.texts t.0) k }
{
    match k {
        Key::Index(i) => units_of(texts, t).get(i as usize).copied(),
        Key::Name(_) => None,
    }
}
