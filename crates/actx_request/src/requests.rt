//! Which requests are plain.

ghost use Rattle.std.specs.Prelude.{◌≡◌};
ghost use Rattle.actx_request.specs.Plain.{is_plain};

use actx_value::Request;

/// Whether a request needs neither a call nor the inner part of an object: Tick, Scope, Fork, Init, Load, Store, ToText,
/// ToKey, Object, Array, Get, Set, Delete, Define, DefineMethod, Copy, Rest, SuperGet, Arg, ArgsFrom, and Unary and Binary
/// with an operator other than `typeof`, `in` and `instanceof`. It takes no memory.
pub fn plain(r: &Request) -> bool
    ensures { result ≡ is_plain r.now }
{
    match r {
        Request::Unary { op, .. } => op.op().is_some(),
        Request::Binary { op, .. } => op.op().is_some(),
        Request::Function { .. }
        | Request::Method { .. }
        | Request::Class { .. }
        | Request::Call { .. }
        | Request::New { .. }
        | Request::SuperCall { .. }
        | Request::Open { .. }
        | Request::Next { .. }
        | Request::Close { .. }
        | Request::Begin
        | Request::Yield { .. }
        | Request::Await { .. } => false,
        _ => true,
    }
}
