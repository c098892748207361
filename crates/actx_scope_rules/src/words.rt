//! Words that early errors speak of.

ghost use Rattle.actx_scope_rules.specs.Words.{same_units, constructor_word, proto_word};
ghost use Rattle.std.specs.Prelude.{◌≡◌};

use actx_text::{Units, as_units};

/// The units of `constructor`.
const CONSTRUCTOR: [u16; 11] = [99, 111, 110, 115, 116, 114, 117, 99, 116, 111, 114];

/// The units of `__proto__`.
const PROTO: [u16; 9] = [95, 95, 112, 114, 111, 116, 111, 95, 95];

/// Whether two names are the same.
pub fn is_same(name: &Units, other: &Units) -> bool
    ensures { result ≡ same_units name.now other.now }
{
    as_units(name) == as_units(other)
}

/// Whether a word is `constructor`.
pub fn is_constructor(word: &Units) -> bool
    ensures { result ≡ same_units constructor_word word.now }
{
    CONSTRUCTOR.as_slice() == as_units(word)
}

/// Whether a word is `__proto__`.
pub fn is_proto(word: &Units) -> bool
    ensures { result ≡ same_units proto_word word.now }
{
    PROTO.as_slice() == as_units(word)
}
