//! The methods of texts that fill a text up to a length.

ghost use Rattle.std.specs.Prelude.{◌≡◌, ◌++◌, ◌≤◌, ◌<◌, IfOk, OnOk, length};
ghost use Rattle.actx_ops.specs.declared.out.OpOut.TheVariants.{NewText};
ghost use Rattle.actx_scalars.specs.Bounds.{within};
ghost use Rattle.actx_scalars.specs.Padding.{filler, padded, as_length, fill_text, needed_fill, pad_arguments, pad_value};

use crate::arguments::{argument, integer_or, kept, receiver, text};
use crate::bounded::Bounded;
use crate::pieces::push_copies;
use actx_ops::OpOut;
use actx_text::{Units, as_units, from_units};
use actx_value::{ErrorKind, Reason, Texts, Value};
use std::alloc::{AllocError, Global};

/// The side on which a text is filled up.
#[derive(Clone, Copy, Debug)]
pub(crate) enum Side {
    Start,
    End,
}

const SPACE: u16 = 32;

/// An integer as a length (ToLength, ECMA-262 §7.1.20).
fn as_length(n: i64) -> usize
    ensures { result ≡ as_length n }
{
    if n < 0 { 0 } else { n as usize }
}

/// The text that fills; a space where it is `undefined`.
fn fill_text(alloc: Global, v: Value, texts: &Texts) -> Result<Option<Units>, AllocError>
    ensures { IfOk result (λ fill. fill ≡ fill_text texts.now.texts v) }
{
    match v {
        Value::Undefined => Ok(Some(from_units(Vec::from_slice(alloc, &[SPACE])?))),
        other => text(alloc, other, texts),
    }
}

/// The length to fill up to, and with what; nothing where the text is as long already.
fn needed_fill(
    alloc: Global,
    len: usize,
    v: Value,
    n: usize,
    texts: &Texts,
) -> Result<Option<(usize, Units)>, AllocError>
    ensures { IfOk result (λ need. need ≡ needed_fill texts.now.texts len v n) }
{
    if n <= len {
        return Ok(Some((n, from_units(Vec::new(alloc)))));
    }
    match fill_text(alloc, v, texts)? {
        Some(fill) => Ok(Some((n, fill))),
        None => Ok(None),
    }
}

/// The arguments of both methods, for a text of this length.
fn pad_arguments(
    alloc: Global,
    len: usize,
    args: &[Value],
    texts: &Texts,
) -> Result<Option<(usize, Units)>, AllocError>
    ensures { IfOk result (λ need. need ≡ pad_arguments texts.now.texts len args.now) }
{
    match integer_or(alloc, 0, argument(args, 0), texts)? {
        Some(n) => needed_fill(alloc, len, argument(args, 1), as_length(n), texts),
        None => Ok(None),
    }
}

/// Puts the first n units of copies of a text at the end.
fn push_filler(units: &mut Vec<u16>, fill: &[u16], n: usize) -> Result<(), AllocError>
    requires { 0 < length fill.now }
    ensures { OnOk result (units.new.items ≡ units.old.items ++ filler n fill.now) }
{
    push_copies(units, fill, n / fill.len())?;
    units.extend_from_slice(&fill[..n % fill.len()])?;
    Ok(())
}

/// The text filled up to n units on one side.
fn filled(
    alloc: Global,
    side: Side,
    n: usize,
    fill: &[u16],
    text: &[u16],
) -> Result<Vec<u16>, AllocError>
    requires { 0 < length fill.now }
    ensures { IfOk result (λ units. units.items ≡ padded side n fill.now text.now) }
{
    let missing = n.saturating_sub(text.len());
    let mut units = Vec::new(alloc);
    match side {
        Side::Start => {
            push_filler(&mut units, fill, missing)?;
            units.extend_from_slice(text)?;
        }
        Side::End => {
            units.extend_from_slice(text)?;
            push_filler(&mut units, fill, missing)?;
        }
    }
    Ok(units)
}

/// The same as a new text. It isn't built where it would be too long.
fn fill_up(
    alloc: Global,
    side: Side,
    n: usize,
    fill: &[u16],
    text: &[u16],
    most: usize,
) -> Result<Bounded, AllocError>
    requires { 0 < length fill.now }
    ensures { IfOk result (λ out. out ≡ within most (NewText (padded side n fill.now text.now))) }
{
    if n.max(text.len()) > most {
        return Ok(Bounded::TooLong);
    }
    let units = filled(alloc, side, n, fill, text)?;
    Ok(Bounded::Out(OpOut::NewText(from_units(units))))
}

/// `padStart(maxLength, fillString)` (ECMA-262 §22.1.3.17) and `padEnd` (§22.1.3.16).
pub(crate) fn pad_value(
    alloc: Global,
    side: Side,
    this: Value,
    args: &[Value],
    texts: &Texts,
    most: usize,
) -> Result<Bounded, AllocError>
    ensures { IfOk result (λ out. out ≡ within most (pad_value side texts.now.texts this args.now)) }
{
    let Some(text) = receiver(this, texts) else {
        return Ok(Bounded::Out(OpOut::Throw(ErrorKind::WRONG_RECEIVER)));
    };
    match pad_arguments(alloc, text.len(), args, texts)? {
        None => Ok(Bounded::Out(OpOut::OutOfProfile(Reason::Conversion))),
        Some((_, fill)) if as_units(&fill).is_empty() => {
            Ok(Bounded::Out(OpOut::Value(kept(this, texts))))
        }
        Some((n, fill)) => fill_up(alloc, side, n, as_units(&fill), text, most),
    }
}
