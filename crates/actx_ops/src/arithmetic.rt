//! Arithmetic on safe integers (ECMA-262 §6.1.6.1). `None` is each result that is no safe integer.

ghost use Rattle.std.specs.Prelude.{◌≡◌};
ghost use Rattle.actx_ops.specs.Numbers.{safe, sum_of, difference_of, product_of, quotient_of, remainder_of, negation_of};

/// The greatest safe integer (ECMA-262 §21.1.2.6).
pub(crate) const GREATEST_SAFE: i64 = 9007199254740991;

/// The number where it is safe.
pub(crate) fn safe(n: i64) -> Option<i64>
    ensures { result ≡ safe n }
{
    if -GREATEST_SAFE <= n && n <= GREATEST_SAFE {
        Some(n)
    } else {
        None
    }
}

/// a + b (§6.1.6.1.7).
pub(crate) fn sum(a: i64, b: i64) -> Option<i64>
    ensures { result ≡ sum_of a b }
{
    safe(a.checked_add(b)?)
}

/// a − b (§6.1.6.1.8).
pub(crate) fn difference(a: i64, b: i64) -> Option<i64>
    ensures { result ≡ difference_of a b }
{
    safe(a.checked_sub(b)?)
}

/// a · b (§6.1.6.1.4). 0 times a negative number is −0.
pub(crate) fn product(a: i64, b: i64) -> Option<i64>
    ensures { result ≡ product_of a b }
{
    let product = a.checked_mul(b)?;
    if product == 0 && (a < 0 || b < 0) {
        return None;
    }
    safe(product)
}

/// a / b (§6.1.6.1.5), where it is whole. 0 by a negative number is −0.
pub(crate) fn quotient(a: i64, b: i64) -> Option<i64>
    ensures { result ≡ quotient_of a b }
{
    let rest = a.checked_rem(b)?;
    if rest != 0 || (a == 0 && b < 0) {
        return None;
    }
    safe(a.checked_div(b)?)
}

/// a % b (§6.1.6.1.6), with the sign of a. A negative number without remainder leaves −0.
pub(crate) fn remainder(a: i64, b: i64) -> Option<i64>
    ensures { result ≡ remainder_of a b }
{
    let rest = a.checked_rem(b)?;
    if rest == 0 && a < 0 {
        return None;
    }
    safe(rest)
}

/// −a (§6.1.6.1.1). Of 0 it is −0.
pub(crate) fn negation(a: i64) -> Option<i64>
    ensures { result ≡ negation_of a }
{
    if a == 0 {
        return None;
    }
    safe(a.checked_neg()?)
}
