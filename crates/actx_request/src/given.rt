//! What a request gives.

ghost use Rattle.std.specs.Prelude.{◌≡◌};

use actx_value::{Answer, ErrorKind, Reason, Value, Which};

/// What a request gives.
#[derive(Clone, Copy, Debug, PartialEq, Eq)]
pub enum Given {
    /// The body goes on with this answer.
    Answer(Answer),
    /// The request throws this error.
    Throw(ErrorKind),
    /// The request has no answer in the profile, for this reason.
    OutOfProfile(Reason),
    /// The request has an answer, but this count would go above its limit.
    Limit(Which),
}

/// The body goes on with this value.
pub(crate) fn go(v: Value) -> Given
    ensures { result ≡ Given.Answer (Answer.Go v) }
{
    Given::Answer(Answer::Go(v))
}
