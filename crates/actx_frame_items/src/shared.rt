//! Parts that are still due, and values.

ghost use Rattle.std.specs.Prelude.{◌≡◌, IfOk};
ghost use Rattle.actx_want.specs.Run.{is_mark as is_mark_of, is_undefined as is_undefined_of, is_nullish as is_nullish_of, within};

use actx_value::{ScopeId, Value};
use std::alloc::AllocError;
use std::rc::Rc;

/// The same part, with one more owner.
pub fn share<T: Drop>(part: &Rc<T>) -> Result<Rc<T>, AllocError>
    ensures { IfOk result (λ copy. copy.value ≡ part.now.value) }
{
    part.clone()
}

/// The scope that a request gave; the present one where it gave none.
pub fn inside(p: ScopeId, v: Value) -> ScopeId
    ensures { result ≡ within p v }
{
    match v {
        Value::Scope(scope) => scope,
        _ => p,
    }
}

/// Whether a walk has ended.
pub fn is_mark(v: Value) -> bool
    ensures { result ≡ is_mark_of v }
{
    matches!(v, Value::Mark)
}

pub fn is_undefined(v: Value) -> bool
    ensures { result ≡ is_undefined_of v }
{
    matches!(v, Value::Undefined)
}

/// `undefined` or `null`.
pub fn is_nullish(v: Value) -> bool
    ensures { result ≡ is_nullish_of v }
{
    matches!(v, Value::Undefined | Value::Null)
}
