//! The kinds of objects in printed forms.

ghost use Rattle.std.specs.Prelude.{◌≡◌};
ghost use Rattle.actx_shown.specs.Kinds.{kind_word, is_container, is_callable};

use actx_objects::Kind;

/// The word that a printed form has for a kind, in ASCII.
pub(crate) fn kind_word(kind: Kind) -> &'static [u8]
    ensures { result.now ≡ kind_word kind }
{
    match kind {
        Kind::Plain => b"Object",
        Kind::Array => b"Array",
        Kind::Function | Kind::Native => b"Function",
        Kind::Class => b"class",
        Kind::Error => b"Error",
        Kind::Map => b"Map",
        Kind::Set => b"Set",
        Kind::Promise => b"Promise",
        Kind::Generator => b"Generator",
        Kind::Timeout => b"Timeout",
        Kind::Immediate => b"Immediate",
        Kind::Variable => b"Variable",
        Kind::Snapshot => b"Snapshot",
        Kind::Storage => b"Storage",
        Kind::Resource => b"Resource",
        Kind::Hook => b"Hook",
        Kind::Iterator => b"Iterator",
    }
}

/// Whether a printed form shows what stands in objects of this kind.
pub(crate) fn is_container(kind: Kind) -> bool
    ensures { result ≡ is_container kind }
{
    matches!(kind, Kind::Plain | Kind::Array | Kind::Map | Kind::Set)
}

/// Whether objects of this kind are functions or classes.
pub(crate) fn is_callable(kind: Kind) -> bool
    ensures { result ≡ is_callable kind }
{
    matches!(kind, Kind::Function | Kind::Class | Kind::Native)
}
