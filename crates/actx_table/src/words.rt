//! Texts that the runtime itself looks for.

ghost use Rattle.std.specs.Prelude.{◌≡◌};
ghost use Rattle.std.specs.Option.{option_map};
ghost use Rattle.actx_value.specs.Texts.{number_of};

use actx_value::{TextId, Texts};

/// The least number of a text, and `None` exactly where no text is this one.
pub fn word(texts: &Texts, w: &[u16]) -> Option<TextId>
    ensures { option_map (λ id. id.0) result ≡ number_of texts.now.texts w.now }
{
    texts.number(w)
}
