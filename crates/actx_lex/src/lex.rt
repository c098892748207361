//! The reading of tokens.

ghost use Rattle.std.specs.Prelude.{◌≡◌, ℕ, ◌≤◌, ◌++◌, ◌∷◌, [], List, Err, IfOk, OnOk, MatchResult, length, vec_len};
ghost use Rattle.actx_lex.specs.declared.token.Token.{Token};
ghost use Rattle.actx_lex.specs.TokenAt as at_front;
ghost use Rattle.actx_lex.specs.TokenAt.{TokenAt};
ghost use Rattle.actx_lex.specs.TokenLists.{SpellsTokens, Reaches, StandBetween};
ghost use Rattle.actx_lex.specs.Units as units;
ghost use Rattle.actx_lex.specs.Readers.{PieceToken};
ghost use Rattle.actx_lex.specs.Scans.{Scans};

use crate::braces::{follow, in_template};
use crate::cursor::Cursor;
use crate::element::Class;
use crate::reserved::is_reserved;
use crate::token::{LexError, Token, TokenKind};
use actx_text::{Units, as_units};
use std::alloc::{AllocError, Global};

/// What a word is.
fn word_kind(units: Units) -> TokenKind
    ensures { result ≡ at_front.word_kind units }
{
    if is_reserved(as_units(&units)) {
        TokenKind::Reserved(units)
    } else {
        TokenKind::Name(units)
    }
}

/// Reads the piece of a template whose backquote or brace comes next.
fn piece_token(
    alloc: Global,
    text: &mut Cursor<'_>,
    opens: bool,
) -> Result<Option<TokenKind>, AllocError>
    ensures { Scans (PieceToken opens) (units.rest text.old) result text.new }
{
    let mut after = text.rest();
    match after.piece(alloc)? {
        None => Ok(None),
        Some((units, closes)) => {
            *text = after;
            Ok(Some(TokenKind::Template {
                text: units,
                opens,
                closes,
            }))
        }
    }
}

/// Reads the longest token that stands here, where the innermost open brace is `${` or not.
fn token(
    alloc: Global,
    text: &mut Cursor<'_>,
    in_template: bool,
) -> Result<Option<TokenKind>, AllocError>
    ensures { Scans (TokenAt in_template) text.old result text.new }
{
    match text.class(in_template) {
        Class::Word => match text.word(alloc)? {
            None => Ok(None),
            Some(units) => Ok(Some(word_kind(units))),
        },
        Class::Number => match text.number() {
            None => Ok(None),
            Some(value) => Ok(Some(TokenKind::Number(value as i64))),
        },
        Class::Text => match text.quoted(alloc)? {
            None => Ok(None),
            Some(units) => Ok(Some(TokenKind::Text(units))),
        },
        Class::FirstPiece => piece_token(alloc, text, true),
        Class::LaterPiece => piece_token(alloc, text, false),
        Class::Sign => match text.sign(in_template) {
            None => Ok(None),
            Some(sign) => Ok(Some(TokenKind::Punct(sign))),
        },
    }
}

/// Adds a token.
fn add_token(found: &mut Vec<Token>, token: Token) -> Result<(), AllocError>
    ensures { OnOk result (found.new.items ≡ found.old.items ++ token ∷ []) }
{
    found.push(token)?;
    Ok(())
}

/// The tokens of a text, in order (ECMA-262 §12; `docs/LEXICAL.md`).
///
/// `BadToken` comes exactly where no token list spells the text. Its `at` is the greatest number of units that gaps and
/// tokens spell. `Memory` may come at any text.
pub fn tokens(alloc: Global, text: &Units) -> Result<Vec<Token>, LexError>
    // What is given spells the text.
    ensures spelled { IfOk result (λ found. SpellsTokens found.items text.now) }
    // What spells the text is given, unless memory ran out.
    ensures given { (ts : List Token) → SpellsTokens ts text.now
        → MatchResult result (λ found. found.items ≡ ts) (λ e. e ≡ LexError.Memory) }

    // Gaps and tokens reach the place of a `BadToken`, and none reach further.
    ensures reached { (at : ℕ) → result ≡ Err (LexError.BadToken at) → Reaches text.now at }
    ensures no_further { (at q : ℕ) → result ≡ Err (LexError.BadToken at) → Reaches text.now q → q ≤ at }

    // Each token has a unit, and they stand in order within the text, so there are no more of them than units.
    ensures in_order { IfOk result (λ found. StandBetween 0 (length text.now) found.items) }
    ensures few { IfOk result (λ found. vec_len found ≤ length text.now) }
{
    let units = as_units(text);
    let count = units.len();
    let mut left = Cursor::new(units).opened();
    let mut found = Vec::new(alloc);
    let mut braces = Vec::new(alloc);
    let mut first = true;
    loop {
        let line = left.gap();
        if left.len() == 0 {
            return Ok(found);
        }
        let from = count - left.len();
        match token(alloc, &mut left, in_template(&braces))? {
            None => return Err(LexError::BadToken { at: from }),
            Some(kind) => {
                follow(&mut braces, &kind)?;
                let to = count - left.len();
                let next = Token {
                    kind,
                    from,
                    to,
                    first: first | line,
                };
                add_token(&mut found, next)?;
                first = false;
            }
        }
    }
}
