//! The functions of one value, and those of `Math`.

ghost use Rattle.std.specs.Prelude.{◌≡◌, IfOk};
ghost use Rattle.actx_ops.specs.Conversions.{number_of_value};
ghost use Rattle.actx_ops.specs.Operators.{with_number};
ghost use Rattle.actx_scalars.specs.Arguments.{argument};
ghost use Rattle.actx_scalars.specs.Natives.{value_function, math_function};
ghost use Rattle.actx_scalars.specs.Numbers.{absolute_of, whole_of, sign_of};

use crate::answer::{number_out, safe};
use crate::arguments::{argument, number};
use crate::conversions::{is_integer, is_safe_integer, number_value, string_value, truth_value};
use crate::math::{Extreme, absolute, extreme_number, sign};
use crate::natives::{MathFunction, ValueFunction};
use actx_ops::OpOut;
use actx_value::{Reason, Texts, Value};
use std::alloc::{AllocError, Global};

/// What a function of one value gives.
pub(crate) fn value_function(
    alloc: Global,
    f: ValueFunction,
    args: &[Value],
    texts: &Texts,
) -> Result<OpOut, AllocError>
    ensures { IfOk result (λ out. out ≡ value_function texts.now.texts f args.now) }
{
    match f {
        ValueFunction::String => string_value(alloc, args, texts),
        ValueFunction::Number => number_value(alloc, args, texts),
        ValueFunction::Boolean => Ok(truth_value(args)),
        ValueFunction::IsInteger => Ok(truth(is_integer(argument(args, 0)))),
        ValueFunction::IsSafeInteger => Ok(truth(is_safe_integer(argument(args, 0)))),
    }
}

fn truth(b: bool) -> OpOut
    ensures { result ≡ OpOut.Value (Value.Bool b) }
{
    OpOut::Value(Value::Bool(b))
}

/// What a function of `Math` gives.
pub(crate) fn math_function(
    alloc: Global,
    f: MathFunction,
    args: &[Value],
    texts: &Texts,
) -> Result<OpOut, AllocError>
    ensures { IfOk result (λ out. out ≡ math_function texts.now.texts f args.now) }
{
    match f {
        MathFunction::Abs => absolute_out(alloc, argument(args, 0), texts),
        MathFunction::Max => extreme_number(alloc, Extreme::Greatest, args, texts),
        MathFunction::Min => extreme_number(alloc, Extreme::Least, args, texts),
        MathFunction::Floor | MathFunction::Trunc => whole_out(alloc, argument(args, 0), texts),
        MathFunction::Sign => sign_out(alloc, argument(args, 0), texts),
    }
}

/// `Math.abs` of a value.
fn absolute_out(alloc: Global, v: Value, texts: &Texts) -> Result<OpOut, AllocError>
    ensures { IfOk result (λ out. out ≡ with_number absolute_of (number_of_value texts.now.texts v)) }
{
    match number(alloc, v, texts)? {
        Some(n) => Ok(number_out(absolute(n))),
        None => Ok(OpOut::OutOfProfile(Reason::Conversion)),
    }
}

/// `Math.floor` or `Math.trunc` of a value.
fn whole_out(alloc: Global, v: Value, texts: &Texts) -> Result<OpOut, AllocError>
    ensures { IfOk result (λ out. out ≡ with_number whole_of (number_of_value texts.now.texts v)) }
{
    match number(alloc, v, texts)? {
        Some(n) => Ok(number_out(safe(n))),
        None => Ok(OpOut::OutOfProfile(Reason::Conversion)),
    }
}

/// `Math.sign` of a value.
fn sign_out(alloc: Global, v: Value, texts: &Texts) -> Result<OpOut, AllocError>
    ensures { IfOk result (λ out. out ≡ with_number sign_of (number_of_value texts.now.texts v)) }
{
    match number(alloc, v, texts)? {
        Some(n) => Ok(number_out(sign(n))),
        None => Ok(OpOut::OutOfProfile(Reason::Conversion)),
    }
}
