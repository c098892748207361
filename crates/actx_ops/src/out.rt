//! What an operator or a conversion gives.

use actx_text::Units;
use actx_value::{ErrorKind, Reason, Value};

/// What an operator or a conversion gives.
#[derive(Debug, Drop)]
pub enum OpOut {
    /// This value.
    Value(Value),
    /// This text, which has no number yet.
    NewText(Units),
    /// A throw of this error.
    Throw(ErrorKind),
    /// No answer in the profile, for this reason.
    OutOfProfile(Reason),
}
