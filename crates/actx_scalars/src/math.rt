//! The functions of Math on safe integers.

ghost use Rattle.std.specs.Prelude.{◌≡◌, IfOk, option_and_then};
ghost use Rattle.actx_ops.specs.Numbers.{safe};
ghost use Rattle.actx_scalars.specs.Numbers.{absolute_of, sign_of, chosen, extreme_of};

use crate::answer::{number_out, safe};
use crate::arguments::number;
use actx_ops::OpOut;
use actx_value::{Reason, Texts, Value};
use std::alloc::{AllocError, Global};

/// Which of several numbers is looked for.
#[derive(Clone, Copy, Debug)]
pub(crate) enum Extreme {
    Greatest,
    Least,
}

/// |n| (`Math.abs`, ECMA-262 §21.3.2.1).
pub(crate) fn absolute(n: i64) -> Option<i64>
    ensures { result ≡ absolute_of n }
{
    safe(n.checked_abs()?)
}

/// −1, 0 or 1 (`Math.sign`, ECMA-262 §21.3.2.29).
pub(crate) fn sign(n: i64) -> Option<i64>
    ensures { result ≡ sign_of n }
{
    Some(n.signum())
}

/// The greater or the lesser of two numbers.
fn chosen(which: Extreme, a: i64, b: i64) -> i64
    ensures { result ≡ chosen which a b }
{
    match which {
        Extreme::Greatest => a.max(b),
        Extreme::Least => a.min(b),
    }
}

/// `Math.max` (ECMA-262 §21.3.2.24) and `Math.min` (§21.3.2.25) of all arguments.
pub(crate) fn extreme_number(
    alloc: Global,
    which: Extreme,
    args: &[Value],
    texts: &Texts,
) -> Result<OpOut, AllocError>
    ensures { IfOk result (λ out. out ≡ extreme_of which texts.now.texts args.now) }
{
    let mut best: Option<i64> = None;
    for v in args {
        match number(alloc, *v, texts)? {
            Some(n) => {
                best = Some(match best {
                    Some(other) => chosen(which, other, n),
                    None => n,
                });
            }
            None => return Ok(OpOut::OutOfProfile(Reason::Conversion)),
        }
    }
    Ok(number_out(safe_of(best)))
}

/// The number, where there is one and it is safe.
fn safe_of(n: Option<i64>) -> Option<i64>
    ensures { result ≡ option_and_then safe n }
{
    safe(n?)
}
