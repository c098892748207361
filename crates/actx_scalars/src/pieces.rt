//! The methods of texts that give a part of the text, a unit of it, or copies of it.

ghost use Rattle.std.specs.Prelude.{◌≡◌, ◌++◌, ◌≤◌, IfOk, OnOk, length, slice_range};
ghost use Rattle.std.specs.List.{repeat};
ghost use Rattle.actx_ops.specs.declared.out.OpOut.TheVariants.{NewText};
ghost use Rattle.actx_scalars.specs.Bounds.{within};
ghost use Rattle.actx_scalars.specs.Pieces.{sliced, unit_value, unit_number, repeated, repeat_value};

use crate::answer::number_out;
use crate::arguments::{argument, integer_or, receiver};
use crate::bounded::Bounded;
use crate::places::relative;
use actx_ops::OpOut;
use actx_text::from_units;
use actx_value::{ErrorKind, Reason, Texts, Value};
use std::alloc::{AllocError, Global};

/// The units from one place up to another as a new text.
fn part(
    alloc: Global,
    text: &[u16],
    from: usize,
    to: usize,
    most: usize,
) -> Result<Bounded, AllocError>
    requires { to ≤ length text.now }
    ensures { IfOk result (λ out. out ≡ within most (NewText (slice_range text.now from to))) }
{
    let units = if from < to { &text[from..to] } else { &[] };
    if units.len() > most {
        return Ok(Bounded::TooLong);
    }
    let units = Vec::from_slice(alloc, units)?;
    Ok(Bounded::Out(OpOut::NewText(from_units(units))))
}

/// `slice(start, end)` (ECMA-262 §22.1.3.22).
pub(crate) fn sliced(
    alloc: Global,
    this: Value,
    args: &[Value],
    texts: &Texts,
    most: usize,
) -> Result<Bounded, AllocError>
    ensures { IfOk result (λ out. out ≡ within most (sliced texts.now.texts this args.now)) }
{
    let Some(text) = receiver(this, texts) else {
        return Ok(Bounded::Out(OpOut::Throw(ErrorKind::WRONG_RECEIVER)));
    };
    let Some(start) = integer_or(alloc, 0, argument(args, 0), texts)? else {
        return Ok(Bounded::Out(OpOut::OutOfProfile(Reason::Conversion)));
    };
    let Some(end) = integer_or(alloc, text.len() as i64, argument(args, 1), texts)? else {
        return Ok(Bounded::Out(OpOut::OutOfProfile(Reason::Conversion)));
    };
    let from = relative(text.len(), start);
    let to = relative(text.len(), end);
    part(alloc, text, from, to, most)
}

/// The unit at a place as a number.
fn unit_number(text: &[u16], i: i64) -> Option<i64>
    ensures { result ≡ unit_number text.now i }
{
    if i < 0 {
        return None;
    }
    let unit = text.get(i as usize)?;
    Some(i64::from(*unit))
}

/// `charCodeAt(pos)` (ECMA-262 §22.1.3.3).
pub(crate) fn unit_value(
    alloc: Global,
    this: Value,
    args: &[Value],
    texts: &Texts,
) -> Result<OpOut, AllocError>
    ensures { IfOk result (λ out. out ≡ unit_value texts.now.texts this args.now) }
{
    let Some(text) = receiver(this, texts) else {
        return Ok(OpOut::Throw(ErrorKind::WRONG_RECEIVER));
    };
    match integer_or(alloc, 0, argument(args, 0), texts)? {
        Some(i) => Ok(number_out(unit_number(text, i))),
        None => Ok(OpOut::OutOfProfile(Reason::Conversion)),
    }
}

/// Puts n copies of a text at the end.
pub(crate) fn push_copies(units: &mut Vec<u16>, text: &[u16], n: usize) -> Result<(), AllocError>
    ensures { OnOk result (units.new.items ≡ units.old.items ++ repeat n text.now) }
{
    for _copy in 0..n {
        units.extend_from_slice(text)?;
    }
    Ok(())
}

/// n copies of a text as a new text.
fn copies(alloc: Global, text: &[u16], n: usize, most: usize) -> Result<Bounded, AllocError>
    ensures { IfOk result (λ out. out ≡ within most (NewText (repeat n text.now))) }
{
    if text.is_empty() {
        return Ok(Bounded::Out(OpOut::NewText(from_units(Vec::new(alloc)))));
    }
    match n.checked_mul(text.len()) {
        Some(len) if len <= most => {
            let mut units = Vec::with_capacity(alloc, len)?;
            push_copies(&mut units, text, n)?;
            Ok(Bounded::Out(OpOut::NewText(from_units(units))))
        }
        _ => Ok(Bounded::TooLong),
    }
}

/// n copies of a text, or that the count is below 0.
fn repeated(alloc: Global, text: &[u16], n: i64, most: usize) -> Result<Bounded, AllocError>
    ensures { IfOk result (λ out. out ≡ within most (repeated text.now n)) }
{
    if n < 0 {
        return Ok(Bounded::Out(OpOut::Throw(ErrorKind::OUT_OF_RANGE)));
    }
    copies(alloc, text, n as usize, most)
}

/// `repeat(count)` (ECMA-262 §22.1.3.18).
pub(crate) fn repeat_value(
    alloc: Global,
    this: Value,
    args: &[Value],
    texts: &Texts,
    most: usize,
) -> Result<Bounded, AllocError>
    ensures { IfOk result (λ out. out ≡ within most (repeat_value texts.now.texts this args.now)) }
{
    let Some(text) = receiver(this, texts) else {
        return Ok(Bounded::Out(OpOut::Throw(ErrorKind::WRONG_RECEIVER)));
    };
    match integer_or(alloc, 0, argument(args, 0), texts)? {
        Some(n) => repeated(alloc, text, n, most),
        None => Ok(Bounded::Out(OpOut::OutOfProfile(Reason::Conversion))),
    }
}
