//! `split`.

ghost use Rattle.std.specs.Prelude.{◌≡◌, IfOk};
ghost use Rattle.actx_scalars.specs.Splits.{as_uint32, limit_of, separator_of, split_arguments, split_with, split_value};

use crate::arguments::{argument, kept, number, receiver, text};
use crate::cut::pieces_of;
use crate::split_out::{Pieces, SplitOut};
use actx_text::{Units, as_units};
use actx_value::{ErrorKind, Reason, Texts, Value};
use std::alloc::{AllocError, Global};

/// 2^32.
const MODULUS: u64 = 4294967296;

/// An integer modulo 2^32 (ToUint32, ECMA-262 §7.1.7).
fn as_uint32(n: i64) -> u32
    ensures { result ≡ as_uint32 n }
{
    if n < 0 {
        let below = (-1 - n) as u64;
        (MODULUS - 1 - below % MODULUS) as u32
    } else {
        (n as u64 % MODULUS) as u32
    }
}

/// The most pieces; 2^32 − 1 where that is `undefined`.
fn limit_of(alloc: Global, v: Value, texts: &Texts) -> Result<Option<u32>, AllocError>
    ensures { IfOk result (λ limit. limit ≡ limit_of texts.now.texts v) }
{
    match v {
        Value::Undefined => Ok(Some(u32::MAX)),
        other => match number(alloc, other, texts)? {
            Some(n) => Ok(Some(as_uint32(n))),
            None => Ok(None),
        },
    }
}

/// The separator as a text; there is none where it is `undefined`.
fn separator_of(alloc: Global, v: Value, texts: &Texts) -> Result<Option<Option<Units>>, AllocError>
    ensures { IfOk result (λ separator. separator ≡ separator_of texts.now.texts v) }
{
    match v {
        Value::Undefined => Ok(Some(None)),
        other => match text(alloc, other, texts)? {
            Some(separator) => Ok(Some(Some(separator))),
            None => Ok(None),
        },
    }
}

/// Both arguments. The limit is converted before the separator.
fn split_arguments(
    alloc: Global,
    args: &[Value],
    texts: &Texts,
) -> Result<Option<(u32, Option<Units>)>, AllocError>
    ensures { IfOk result (λ found. found ≡ split_arguments texts.now.texts args.now) }
{
    let Some(limit) = limit_of(alloc, argument(args, 1), texts)? else {
        return Ok(None);
    };
    match separator_of(alloc, argument(args, 0), texts)? {
        Some(separator) => Ok(Some((limit, separator))),
        None => Ok(None),
    }
}

/// The answer for a limit and a separator.
fn split_with(
    alloc: Global,
    same: Value,
    text: &[u16],
    limit: u32,
    separator: Option<Units>,
) -> Result<SplitOut, AllocError>
    ensures { IfOk result (λ out. out ≡ split_with same text.now limit separator) }
{
    if limit == 0 {
        return Ok(SplitOut::Pieces(Pieces::from_vec(Vec::new(alloc))));
    }
    match separator {
        None => Ok(SplitOut::Whole(same)),
        Some(separator) => {
            let pieces = pieces_of(alloc, limit as usize, text, as_units(&separator))?;
            Ok(SplitOut::Pieces(pieces))
        }
    }
}

/// The elements that `split(separator, limit)` gives (ECMA-262 §22.1.3.23), in the array that the
/// caller makes of them. Without a separator the receiver is handed on as it is; all other pieces are
/// new texts, and together they have no more units than the receiver. A text number that isn't in
/// `texts` counts as that of the empty text.
///
/// `Throw` comes exactly where the receiver is no text, and `OutOfProfile(Conversion)` exactly where it
/// is one, and the limit has no number or the separator no text.
///
/// # Errors
/// Only want of memory.
pub fn split(
    alloc: Global,
    this: Value,
    args: &[Value],
    texts: &Texts,
) -> Result<SplitOut, AllocError>
    ensures { IfOk result (λ out. out ≡ split_value texts.now.texts this args.now) }
{
    let Some(text) = receiver(this, texts) else {
        return Ok(SplitOut::Throw(ErrorKind::WRONG_RECEIVER));
    };
    match split_arguments(alloc, args, texts)? {
        Some((limit, separator)) => split_with(alloc, kept(this, texts), text, limit, separator),
        None => Ok(SplitOut::OutOfProfile(Reason::Conversion)),
    }
}
