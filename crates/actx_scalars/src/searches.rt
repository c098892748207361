//! The methods of texts that look for a text.

ghost use Rattle.std.specs.Prelude.{◌≡◌, IfOk};
ghost use Rattle.actx_scalars.specs.Searches.{search_arguments, index_value, includes_value, starts_value, ends_value};

use crate::arguments::{argument, integer_or, receiver, text};
use crate::search::{ends_there, index_number, is_included, starts_there};
use actx_ops::OpOut;
use actx_text::{Units, as_units};
use actx_value::{ErrorKind, Reason, Texts, Value};
use std::alloc::{AllocError, Global};

/// The text that is looked for, and the position, which is `missing` where it is `undefined`.
fn search_arguments(
    alloc: Global,
    missing: i64,
    args: &[Value],
    texts: &Texts,
) -> Result<Option<(Units, i64)>, AllocError>
    ensures { IfOk result (λ found. found ≡ search_arguments texts.now.texts missing args.now) }
{
    let Some(search) = text(alloc, argument(args, 0), texts)? else {
        return Ok(None);
    };
    match integer_or(alloc, missing, argument(args, 1), texts)? {
        Some(position) => Ok(Some((search, position))),
        None => Ok(None),
    }
}

/// `indexOf(searchString, position)` (ECMA-262 §22.1.3.9).
pub(crate) fn index_value(
    alloc: Global,
    this: Value,
    args: &[Value],
    texts: &Texts,
) -> Result<OpOut, AllocError>
    ensures { IfOk result (λ out. out ≡ index_value texts.now.texts this args.now) }
{
    let Some(text) = receiver(this, texts) else {
        return Ok(OpOut::Throw(ErrorKind::WRONG_RECEIVER));
    };
    match search_arguments(alloc, 0, args, texts)? {
        Some((search, position)) => {
            let index = index_number(text, as_units(&search), position);
            Ok(OpOut::Value(Value::Num(index)))
        }
        None => Ok(OpOut::OutOfProfile(Reason::Conversion)),
    }
}

/// `includes(searchString, position)` (ECMA-262 §22.1.3.8).
pub(crate) fn includes_value(
    alloc: Global,
    this: Value,
    args: &[Value],
    texts: &Texts,
) -> Result<OpOut, AllocError>
    ensures { IfOk result (λ out. out ≡ includes_value texts.now.texts this args.now) }
{
    let Some(text) = receiver(this, texts) else {
        return Ok(OpOut::Throw(ErrorKind::WRONG_RECEIVER));
    };
    match search_arguments(alloc, 0, args, texts)? {
        Some((search, position)) => {
            let found = is_included(text, as_units(&search), position);
            Ok(OpOut::Value(Value::Bool(found)))
        }
        None => Ok(OpOut::OutOfProfile(Reason::Conversion)),
    }
}

/// `startsWith(searchString, position)` (ECMA-262 §22.1.3.24).
pub(crate) fn starts_value(
    alloc: Global,
    this: Value,
    args: &[Value],
    texts: &Texts,
) -> Result<OpOut, AllocError>
    ensures { IfOk result (λ out. out ≡ starts_value texts.now.texts this args.now) }
{
    let Some(text) = receiver(this, texts) else {
        return Ok(OpOut::Throw(ErrorKind::WRONG_RECEIVER));
    };
    match search_arguments(alloc, 0, args, texts)? {
        Some((search, position)) => {
            let found = starts_there(text, as_units(&search), position);
            Ok(OpOut::Value(Value::Bool(found)))
        }
        None => Ok(OpOut::OutOfProfile(Reason::Conversion)),
    }
}

/// `endsWith(searchString, endPosition)` (ECMA-262 §22.1.3.7).
pub(crate) fn ends_value(
    alloc: Global,
    this: Value,
    args: &[Value],
    texts: &Texts,
) -> Result<OpOut, AllocError>
    ensures { IfOk result (λ out. out ≡ ends_value texts.now.texts this args.now) }
{
    let Some(text) = receiver(this, texts) else {
        return Ok(OpOut::Throw(ErrorKind::WRONG_RECEIVER));
    };
    match search_arguments(alloc, text.len() as i64, args, texts)? {
        Some((search, end)) => {
            let found = ends_there(text, as_units(&search), end);
            Ok(OpOut::Value(Value::Bool(found)))
        }
        None => Ok(OpOut::OutOfProfile(Reason::Conversion)),
    }
}
