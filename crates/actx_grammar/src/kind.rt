//! What the grammar sees of a token.

use crate::word::Word;
use actx_lex::Punct;

/// What the grammar sees of a token.
#[derive(Clone, Copy, Debug, PartialEq, Eq)]
pub enum Kind {
    /// No token: the tokens end.
    End,
    /// A word that isn't reserved.
    Name,
    /// A number.
    Number,
    /// A text between quotes.
    Text,
    /// A piece of a template: whether the template begins with it, and whether it ends with it.
    Piece(bool, bool),
    /// A sign.
    Sign(Punct),
    /// A reserved word.
    Word(Word),
}
