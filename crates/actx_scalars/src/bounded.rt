//! Answers in which no text is longer than some length.

ghost use Rattle.std.specs.Prelude.{◌≡◌};
ghost use Rattle.actx_scalars.specs.Bounds.{within};

use actx_ops::OpOut;
use actx_text::len;

/// What a native gives where no text may be longer than some length.
#[derive(Debug, Drop)]
pub enum Bounded {
    /// This answer.
    Out(OpOut),
    /// The answer would be a new text that is longer. It wasn't built.
    TooLong,
}

/// The answer, unless it is a new text with more than `most` units.
pub(crate) fn within(most: usize, out: OpOut) -> Bounded
    ensures { result ≡ within most out }
{
    match out {
        OpOut::NewText(text) => {
            if len(&text) <= most {
                Bounded::Out(OpOut::NewText(text))
            } else {
                Bounded::TooLong
            }
        }
        other => Bounded::Out(other),
    }
}
