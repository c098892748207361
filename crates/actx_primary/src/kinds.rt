//! What begins or ends a part of an expression, by the kind of its first token.

ghost use Rattle.actx_grammar.specs.Kinds as kinds;
ghost use Rattle.std.specs.Prelude.{◌≡◌};

use actx_grammar::{Kind, Word};
use actx_lex::Punct;

/// Whether the token is `:`.
pub fn is_colon(kind: Kind) -> bool
    ensures { result ≡ kinds.is_colon kind }
{
    matches!(kind, Kind::Sign(Punct::Colon))
}

/// Whether the token is `...`.
pub fn is_dots(kind: Kind) -> bool
    ensures { result ≡ kinds.is_dots kind }
{
    matches!(kind, Kind::Sign(Punct::Ellipsis))
}

/// Whether the token is `(`.
pub fn is_open_parenthesis(kind: Kind) -> bool
    ensures { result ≡ kinds.is_open_parenthesis kind }
{
    matches!(kind, Kind::Sign(Punct::OpenParenthesis))
}

/// Whether the token is `new`.
pub fn is_new_word(kind: Kind) -> bool
    ensures { result ≡ kinds.is_new_word kind }
{
    matches!(kind, Kind::Word(Word::New))
}

/// Whether the token begins a suffix (ECMA-262 §13.3).
pub fn begins_suffix(kind: Kind) -> bool
    ensures { result ≡ kinds.begins_suffix kind }
{
    matches!(
        kind,
        Kind::Sign(Punct::Dot | Punct::OptionalDot | Punct::OpenParenthesis | Punct::OpenBracket)
    )
}

/// Whether the token begins a member that `new` takes: `.name` or `[ .. ]`.
pub fn begins_member(kind: Kind) -> bool
    ensures { result ≡ kinds.begins_member kind }
{
    matches!(kind, Kind::Sign(Punct::Dot | Punct::OpenBracket))
}
