//! Texts and keys inside of containers.

ghost use Rattle.std.specs.Prelude.{◌≡◌, ◌++◌, flat_map, OnOk};
ghost use Rattle.std.specs.List.{list_all};
ghost use Rattle.actx_shown.specs.Quotes.{unit_form, text_form, begins_word, goes_on_word, is_word, name_form, key_form};

use crate::reads::units_of;
use actx_text::{as_units, number_text};
use actx_value::{Key, Texts};
use std::alloc::{AllocError, Global};

const QUOTE: u16 = 0x27;

const BACKSLASH: u16 = 0x5C;

const LINE_FEED: u16 = 0x0A;

/// Puts one unit of a text in quotes at the end.
#[tactic(auto, unfolding(crate::specs::Quotes::unit_form))]
fn push_unit(out: &mut Vec<u16>, unit: u16) -> Result<(), AllocError>
    ensures { OnOk result (out.new.items ≡ out.old.items ++ unit_form unit) }
{
    if unit == LINE_FEED {
        return out.extend_from_slice(&[BACKSLASH, 0x6E]);
    }
    if unit == QUOTE || unit == BACKSLASH {
        return out.extend_from_slice(&[BACKSLASH, unit]);
    }
    Ok(out.push(unit)?)
}

/// Puts a text in quotes at the end: `'`, a line feed as `\n`, a backslash before `'` and before a
/// backslash, each other unit as itself, and `'`.
pub(crate) fn push_text(out: &mut Vec<u16>, text: &[u16]) -> Result<(), AllocError>
    ensures { OnOk result (out.new.items ≡ out.old.items ++ text_form text.now) }
{
    out.push(QUOTE)?;
    for unit in text {
        push_unit(out, *unit)?;
    }
    out.push(QUOTE)?;
    Ok(())
}

/// Whether a unit is an ASCII letter, `_` or `$`.
fn begins_word(unit: u16) -> bool
    ensures { result ≡ begins_word unit }
{
    matches!(unit, 0x41..=0x5A | 0x61..=0x7A | 0x5F | 0x24)
}

/// Whether a unit is one of these, or an ASCII digit.
fn goes_on_word(unit: u16) -> bool
    ensures { result ≡ goes_on_word unit }
{
    begins_word(unit) || matches!(unit, 0x30..=0x39)
}

/// Whether each unit goes on a word.
fn all_go_on(units: &[u16]) -> bool
    ensures { result ≡ list_all goes_on_word units.now }
{
    units.iter().all(|unit| goes_on_word(*unit))
}

/// Whether a text is an ASCII word: a letter, `_` or `$`, and then these and digits.
fn is_word(text: &[u16]) -> bool
    ensures { result ≡ is_word text.now }
{
    match text.split_first() {
        Some((first, rest)) => begins_word(*first) && all_go_on(rest),
        None => false,
    }
}

/// Puts a name at the end: an ASCII word as it is, and any other text in quotes.
fn push_name(out: &mut Vec<u16>, text: &[u16]) -> Result<(), AllocError>
    ensures { OnOk result (out.new.items ≡ out.old.items ++ name_form text.now) }
{
    if is_word(text) {
        out.extend_from_slice(text)
    } else {
        push_text(out, text)
    }
}

/// Puts a key at the end: an index in quotes, too.
pub(crate) fn push_key(
    alloc: Global,
    out: &mut Vec<u16>,
    k: Key,
    texts: &Texts,
) -> Result<(), AllocError>
    ensures { OnOk result (out.new.items ≡ out.old.items ++ key_form texts.now.texts k) }
{
    match k {
        Key::Index(i) => push_text(out, as_units(&number_text(alloc, i64::from(i))?)),
        Key::Name(t) => push_name(out, units_of(texts, t)),
    }
}
