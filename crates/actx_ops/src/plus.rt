//! The operator `+`.

ghost use Rattle.std.specs.Prelude.{◌≡◌, IfOk};
ghost use Rattle.actx_ops.specs.Operators.{added, is_text, joined, pair_of, with_numbers, numbers_of};
ghost use Rattle.actx_ops.specs.Conversions.{new_text, text_of_value};
ghost use Rattle.actx_ops.specs.Numbers.{sum_of};

use crate::answer::number_out;
use crate::arithmetic::sum;
use crate::convert::push_text;
use crate::out::OpOut;
use crate::relation::numbers_of;
use actx_text::from_units;
use actx_value::{Reason, Texts, Value};
use std::alloc::{AllocError, Global};

fn is_text(v: Value) -> bool
    ensures { result ≡ is_text v }
{
    matches!(v, Value::Text(_))
}

/// Both values as one text.
fn join(alloc: Global, a: Value, b: Value, texts: &Texts) -> Result<OpOut, AllocError>
    ensures { IfOk result (λ out. out ≡ new_text (joined (pair_of (text_of_value texts.now.texts a) (text_of_value texts.now.texts b)))) }
{
    let mut units = Vec::new(alloc);
    if push_text(alloc, &mut units, a, texts)? && push_text(alloc, &mut units, b, texts)? {
        Ok(OpOut::NewText(from_units(units)))
    } else {
        Ok(OpOut::OutOfProfile(Reason::Conversion))
    }
}

/// `+` (ECMA-262 §13.15.3): a text on either side joins both as texts, and else both are numbers.
pub(crate) fn add(alloc: Global, a: Value, b: Value, texts: &Texts) -> Result<OpOut, AllocError>
    ensures { IfOk result (λ out. out ≡ added texts.now.texts a b) }
{
    if is_text(a) || is_text(b) {
        return join(alloc, a, b, texts);
    }
    match numbers_of(a, b, texts) {
        Some((m, n)) => Ok(number_out(sum(m, n))),
        None => Ok(OpOut::OutOfProfile(Reason::Conversion)),
    }
}
