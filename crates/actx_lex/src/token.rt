//! Tokens, and what the reading of tokens answers where there are none.

ghost use Rattle.std.specs.Prelude.{◌≡◌};

use actx_text::Units;
use std::alloc::AllocError;

/// A punctuator: one variant per sign (ECMA-262 §12.8).
#[derive(Clone, Copy, Debug, PartialEq, Eq)]
pub enum Punct {
    /// `{`
    OpenBrace,
    /// `}`
    CloseBrace,
    /// `(`
    OpenParenthesis,
    /// `)`
    CloseParenthesis,
    /// `[`
    OpenBracket,
    /// `]`
    CloseBracket,
    /// `.`
    Dot,
    /// `...`
    Ellipsis,
    /// `;`
    Semicolon,
    /// `,`
    Comma,
    /// `<`
    Less,
    /// `>`
    Greater,
    /// `<=`
    LessOrEqual,
    /// `>=`
    GreaterOrEqual,
    /// `==`
    Equal,
    /// `!=`
    NotEqual,
    /// `===`
    StrictEqual,
    /// `!==`
    StrictNotEqual,
    /// `+`
    Plus,
    /// `-`
    Minus,
    /// `*`
    Star,
    /// `/`, which always divides
    Slash,
    /// `%`
    Percent,
    /// `++`
    PlusPlus,
    /// `--`
    MinusMinus,
    /// `!`
    Not,
    /// `&&`
    And,
    /// `||`
    Or,
    /// `??`
    Coalesce,
    /// `?`
    Question,
    /// `?.`
    OptionalDot,
    /// `:`
    Colon,
    /// `=`
    Assign,
    /// `+=`
    PlusAssign,
    /// `-=`
    MinusAssign,
    /// `*=`
    StarAssign,
    /// `/=`
    SlashAssign,
    /// `%=`
    PercentAssign,
    /// `&&=`
    AndAssign,
    /// `||=`
    OrAssign,
    /// `??=`
    CoalesceAssign,
    /// `=>`
    Arrow,
}

/// What a token is.
#[derive(Debug, Drop)]
pub enum TokenKind {
    /// A word that isn't reserved, by its units (IdentifierName, ECMA-262 §12.7).
    Name(Units),
    /// One of the 48 reserved words, by its units (ECMA-262 §12.7.2).
    Reserved(Units),
    /// A number, from 0 to 9007199254740991 (ECMA-262 §12.9.3).
    Number(i64),
    /// A text between quotes, by the units that it stands for (ECMA-262 §12.9.4).
    Text(Units),
    /// A piece of a template, by the units that it stands for (ECMA-262 §12.9.6).
    Template {
        /// The units that the piece stands for.
        text: Units,
        /// Whether the template begins with this piece.
        opens: bool,
        /// Whether the template ends with this piece.
        closes: bool,
    },
    /// A sign.
    Punct(Punct),
}

/// A token and where it stands.
#[derive(Debug, Drop)]
pub struct Token {
    /// What it is.
    pub kind: TokenKind,
    /// How many units of the text stand before it.
    pub from: usize,
    /// How many units of the text stand before its end.
    pub to: usize,
    /// Whether it is the first on its line: no token before it, or a line end in the gap before it.
    pub first: bool,
}

/// Why there are no tokens.
#[derive(Clone, Copy, Debug, PartialEq, Eq)]
pub enum LexError {
    /// No token list spells the text.
    BadToken {
        /// The greatest number of units that gaps and tokens spell.
        at: usize,
    },
    /// Memory ran out.
    Memory,
}

impl From<AllocError> for LexError {
    ghost use Rattle.actx_lex.specs.declared.token.LexError.TheVariants.{Memory};

    ghost from_gives = { λ _ e. e ≡ Memory };

    fn from(_: AllocError) -> LexError {
        LexError::Memory
    }
}
