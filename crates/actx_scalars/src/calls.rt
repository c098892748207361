//! Calls of natives.

ghost use Rattle.std.specs.Prelude.{◌≡◌, IfOk};
ghost use Rattle.actx_scalars.specs.Bounds.{within};
ghost use Rattle.actx_scalars.specs.Natives.{text_method, native_value};

use crate::bounded::{Bounded, within};
use crate::functions::{math_function, value_function};
use crate::natives::{Scalar, TextMethod};
use crate::padding::{Side, pad_value};
use crate::pieces::{repeat_value, sliced, unit_value};
use crate::searches::{ends_value, includes_value, index_value, starts_value};
use actx_value::{Texts, Value};
use std::alloc::{AllocError, Global};

/// What a native gives for this receiver and these arguments, where a new text may have at most `most`
/// units. A text number that isn't in `texts` counts as that of the empty text.
///
/// `TooLong` comes exactly where the answer would be a new text with more units, which isn't built.
/// `Throw` comes exactly where a method of texts has a receiver that is no text (TypeError 8), and where
/// `repeat` has a count below 0 (RangeError 0). `OutOfProfile(Conversion)` comes exactly where an
/// argument that the native converts has no such conversion here, and `OutOfProfile(Number)` exactly
/// where ECMA-262 gives a number that is no safe integer: `max` and `min` of nothing, and `charCodeAt`
/// past either end. The receiver comes first, and then the arguments in the order of ECMA-262.
///
/// # Errors
/// Only want of memory.
pub fn scalar(
    alloc: Global,
    n: Scalar,
    this: Value,
    args: &[Value],
    texts: &Texts,
    most: usize,
) -> Result<Bounded, AllocError>
    ensures { IfOk result (λ out. out ≡ within most (native_value texts.now.texts n this args.now)) }
{
    match n {
        Scalar::OfValue(f) => Ok(within(most, value_function(alloc, f, args, texts)?)),
        Scalar::OfText(f) => text_method(alloc, f, this, args, texts, most),
        Scalar::OfNumbers(f) => Ok(within(most, math_function(alloc, f, args, texts)?)),
    }
}

/// What a method of texts gives.
fn text_method(
    alloc: Global,
    f: TextMethod,
    this: Value,
    args: &[Value],
    texts: &Texts,
    most: usize,
) -> Result<Bounded, AllocError>
    ensures { IfOk result (λ out. out ≡ within most (text_method texts.now.texts f this args.now)) }
{
    match f {
        TextMethod::Slice => sliced(alloc, this, args, texts, most),
        TextMethod::IndexOf => Ok(within(most, index_value(alloc, this, args, texts)?)),
        TextMethod::Includes => Ok(within(most, includes_value(alloc, this, args, texts)?)),
        TextMethod::StartsWith => Ok(within(most, starts_value(alloc, this, args, texts)?)),
        TextMethod::EndsWith => Ok(within(most, ends_value(alloc, this, args, texts)?)),
        TextMethod::Repeat => repeat_value(alloc, this, args, texts, most),
        TextMethod::PadStart => pad_value(alloc, Side::Start, this, args, texts, most),
        TextMethod::PadEnd => pad_value(alloc, Side::End, this, args, texts, most),
        TextMethod::CharCodeAt => Ok(within(most, unit_value(alloc, this, args, texts)?)),
    }
}
