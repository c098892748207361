//! How a form ends.

use actx_value::Value;

/// How a form ends (the Completion Records of ECMA-262 §6.2.4).
#[derive(Clone, Copy, Debug, PartialEq, Eq)]
pub enum Completion {
    /// With this value.
    Normal(Value),
    /// By a `break` that leaves so many loops before the one that it ends.
    Break(u32),
    /// By a `continue` that leaves so many loops before the one that it goes on with.
    Continue(u32),
    /// By `return`, with this value.
    Return(Value),
    /// By this value, which was thrown.
    Throw(Value),
}
