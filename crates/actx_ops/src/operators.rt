//! The operators on values.

ghost use Rattle.std.specs.Prelude.{◌≡◌, IfOk};
ghost use Rattle.actx_ops.specs.Numbers.{safe, difference_of, product_of, quotient_of, remainder_of, negation_of};
ghost use Rattle.actx_ops.specs.Conversions.{number_of_value};
ghost use Rattle.actx_ops.specs.Operators.{applied, with_number, with_numbers, numbers_of};

use crate::answer::{negated, number_out, truth_out};
use crate::arithmetic::{difference, negation, product, quotient, remainder, safe};
use crate::convert::number_of_value;
use crate::equality::{loosely_equal, strictly_equal};
use crate::out::OpOut;
use crate::plus::add;
use crate::relation::{less_than, numbers_of};
use actx_value::{Op, Reason, Texts, Value};
use std::alloc::{AllocError, Global};

/// What an operator gives for these values (ECMA-262 §13.15.4, §13.5.4, §13.5.5, §13.10, §13.11). A
/// unary operator doesn't look at `b`. A text number that isn't in `texts` counts as that of the empty
/// text.
///
/// `OutOfProfile(Number)` comes exactly where ECMA-262 gives a number that is no safe integer or is
/// −0, and `OutOfProfile(Conversion)` exactly where a value has no conversion here. No operator of
/// these throws.
///
/// # Errors
/// Only want of memory, and only for the text that `+` makes.
pub fn apply(alloc: Global, op: Op, a: Value, b: Value, texts: &Texts) -> Result<OpOut, AllocError>
    ensures { IfOk result (λ out. out ≡ applied texts.now.texts op a b) }
{
    Ok(match op {
        Op::Negate => negate(a, texts),
        Op::ToNumber => to_number(a, texts),
        Op::Add => add(alloc, a, b, texts)?,
        Op::Subtract => subtract(a, b, texts),
        Op::Multiply => multiply(a, b, texts),
        Op::Divide => divide(a, b, texts),
        Op::Remainder => take_remainder(a, b, texts),
        Op::Less => truth_out(less_than(a, b, texts)),
        Op::Greater => truth_out(less_than(b, a, texts)),
        Op::LessOrEqual => truth_out(negated(less_than(b, a, texts))),
        Op::GreaterOrEqual => truth_out(negated(less_than(a, b, texts))),
        Op::Equal => truth_out(loosely_equal(a, b, texts)),
        Op::NotEqual => truth_out(negated(loosely_equal(a, b, texts))),
        Op::StrictlyEqual => truth_out(Some(strictly_equal(a, b, texts))),
        Op::StrictlyNotEqual => truth_out(Some(!strictly_equal(a, b, texts))),
    })
}

/// Unary `-` (ECMA-262 §13.5.5).
fn negate(v: Value, texts: &Texts) -> OpOut
    ensures { result ≡ with_number negation_of (number_of_value texts.now.texts v) }
{
    match number_of_value(v, texts) {
        Some(n) => number_out(negation(n)),
        None => OpOut::OutOfProfile(Reason::Conversion),
    }
}

/// Unary `+` (ECMA-262 §13.5.4).
fn to_number(v: Value, texts: &Texts) -> OpOut
    ensures { result ≡ with_number safe (number_of_value texts.now.texts v) }
{
    match number_of_value(v, texts) {
        Some(n) => number_out(safe(n)),
        None => OpOut::OutOfProfile(Reason::Conversion),
    }
}

/// `-` (ECMA-262 §13.15.3).
fn subtract(a: Value, b: Value, texts: &Texts) -> OpOut
    ensures { result ≡ with_numbers difference_of (numbers_of texts.now.texts a b) }
{
    match numbers_of(a, b, texts) {
        Some((m, n)) => number_out(difference(m, n)),
        None => OpOut::OutOfProfile(Reason::Conversion),
    }
}

/// `*` (ECMA-262 §13.15.3).
fn multiply(a: Value, b: Value, texts: &Texts) -> OpOut
    ensures { result ≡ with_numbers product_of (numbers_of texts.now.texts a b) }
{
    match numbers_of(a, b, texts) {
        Some((m, n)) => number_out(product(m, n)),
        None => OpOut::OutOfProfile(Reason::Conversion),
    }
}

/// `/` (ECMA-262 §13.15.3).
fn divide(a: Value, b: Value, texts: &Texts) -> OpOut
    ensures { result ≡ with_numbers quotient_of (numbers_of texts.now.texts a b) }
{
    match numbers_of(a, b, texts) {
        Some((m, n)) => number_out(quotient(m, n)),
        None => OpOut::OutOfProfile(Reason::Conversion),
    }
}

/// `%` (ECMA-262 §13.15.3).
fn take_remainder(a: Value, b: Value, texts: &Texts) -> OpOut
    ensures { result ≡ with_numbers remainder_of (numbers_of texts.now.texts a b) }
{
    match numbers_of(a, b, texts) {
        Some((m, n)) => number_out(remainder(m, n)),
        None => OpOut::OutOfProfile(Reason::Conversion),
    }
}
