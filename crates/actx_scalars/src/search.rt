//! Where one text stands in another.

ghost use Rattle.std.specs.Prelude.{◌≡◌, ◌≤◌, ◌+◌, length, IfSome};
ghost use Rattle.actx_scalars.specs.Searches.{first_place, index_number, is_included, starts_there, ends_there};

use crate::places::clamped;

/// The first place from `from` on at which a text stands (StringIndexOf, ECMA-262 §6.1.4.1).
pub(crate) fn first_place(text: &[u16], search: &[u16], from: usize) -> Option<usize>
    ensures value { result ≡ first_place text.now search.now from }
    ensures after { IfSome result (λ i. from ≤ i) }
    ensures within { IfSome result (λ i. i + length search.now ≤ length text.now) }
{
    let past = (text.len() + 1).saturating_sub(search.len());
    for i in from..past {
        if text[i..].starts_with(search) {
            return Some(i);
        }
    }
    None
}

/// The place as a number, and −1 where there is none.
pub(crate) fn index_number(text: &[u16], search: &[u16], position: i64) -> i64
    ensures { result ≡ index_number text.now search.now position }
{
    match first_place(text, search, clamped(text.len(), position)) {
        Some(i) => i as i64,
        None => -1,
    }
}

/// Whether the text stands at or after the position.
pub(crate) fn is_included(text: &[u16], search: &[u16], position: i64) -> bool
    ensures { result ≡ is_included text.now search.now position }
{
    first_place(text, search, clamped(text.len(), position)).is_some()
}

/// Whether the text stands at the position.
pub(crate) fn starts_there(text: &[u16], search: &[u16], position: i64) -> bool
    ensures { result ≡ starts_there text.now search.now position }
{
    text[clamped(text.len(), position)..].starts_with(search)
}

/// Whether the text stands right before the position.
pub(crate) fn ends_there(text: &[u16], search: &[u16], end: i64) -> bool
    ensures { result ≡ ends_there text.now search.now end }
{
    text[..clamped(text.len(), end)].ends_with(search)
}
