//! Units of a text as texts of their own.

ghost use Rattle.std.specs.Prelude.{◌≡◌, true, false, length, IfOk, IfNone, IfSome, OnSome};
ghost use Rattle.actx_request.specs.Limits.{text_above};
ghost use Rattle.actx_request.specs.Copies.{numbered, with_units, blank_pairs};

use crate::members::unit_text;
use actx_value::{Key, StoreError, Texts, Value};
use std::alloc::{AllocError, Global};

/// Adds each unit as a text, and gives these texts with the indices of the units; `None` where the texts would go above
/// their limit.
pub(crate) fn add_units(
    alloc: Global,
    units: &[(u32, u16)],
    texts: &mut Texts,
) -> Result<Option<Vec<(Key, Value)>>, AllocError>
    ensures above { IfOk result (λ pairs. IfNone pairs (text_above texts.old (with_units units.now texts.old) ≡ true)) }
    ensures fits { IfOk result (λ pairs. OnSome pairs (text_above texts.old (with_units units.now texts.old) ≡ false)) }
    ensures values { IfOk result (λ pairs. IfSome pairs (λ es. es.items ≡ numbered (length texts.old.texts) units.now)) }
    ensures added { IfOk result (λ pairs. OnSome pairs (texts.new ≡ with_units units.now texts.old)) }
{
    let mut pairs = Vec::new(alloc);
    for (index, unit) in units {
        match texts.add(unit_text(alloc, *unit)?) {
            Ok(id) => pairs.push((Key::Index(*index), Value::Text(id)))?,
            Err(StoreError::Full) => return Ok(None),
            Err(StoreError::Memory) => return Err(AllocError),
        }
    }
    Ok(Some(pairs))
}

/// The indices of units as keys, without values.
pub(crate) fn blank_pairs(
    alloc: Global,
    units: &[(u32, u16)],
) -> Result<Vec<(Key, Value)>, AllocError>
    ensures { IfOk result (λ pairs. pairs.items ≡ blank_pairs units.now) }
{
    let mut pairs = Vec::new(alloc);
    for (index, _) in units {
        pairs.push((Key::Index(*index), Value::Undefined))?;
    }
    Ok(pairs)
}
