//! What the grammar sees of a token.

ghost use Rattle.std.specs.Prelude.{◌≡◌};
ghost use Rattle.actx_grammar.specs.Kinds as kinds;
ghost use Rattle.actx_grammar.specs.Tokens as tokens;
ghost use Rattle.actx_grammar.specs.Words as grammar_words;
ghost use Rattle.actx_cursor.specs.WordLists as lists;

use actx_grammar::{Kind, Word};
use actx_lex::TokenKind;
use actx_text::as_units;

/// Whether the units are those of the word, which is ASCII.
#[tactic(auto, unfolding(actx_grammar::specs::Words::same_units))]
pub fn same_units(units: &[u16], word: &[u8]) -> bool
    ensures { result ≡ grammar_words.same_units units.now word.now }
{
    let mut left = units;
    let mut sought = word;
    loop {
        match left {
            [] => return sought.is_empty(),
            [unit, rest @ ..] => match sought {
                [] => return false,
                [byte, more @ ..] => {
                    if *unit != *byte as u16 {
                        return false;
                    }
                    left = rest;
                    sought = more;
                }
            },
        }
    }
}

/// The reserved word of these units (ECMA-262 §12.7.2).
#[tactic(auto, unfolding(actx_grammar::specs::Words::word_among, actx_grammar::specs::Words::word_of))]
pub fn word_of(units: &[u16]) -> Word
    ensures { result ≡ grammar_words.word_of units.now }
{
    if same_units(units, b"await") {
        Word::Await
    } else if same_units(units, b"break") {
        Word::Break
    } else if same_units(units, b"case") {
        Word::Case
    } else if same_units(units, b"catch") {
        Word::Catch
    } else if same_units(units, b"class") {
        Word::Class
    } else if same_units(units, b"const") {
        Word::Const
    } else if same_units(units, b"continue") {
        Word::Continue
    } else {
        from_default(units)
    }
}

/// The reserved word of these units among the words from `default` on.
#[tactic(auto, unfolding(actx_grammar::specs::Words::word_among))]
fn from_default(units: &[u16]) -> Word
    ensures { result ≡ grammar_words.word_among lists.words_from_default units.now }
{
    if same_units(units, b"default") {
        Word::Default
    } else if same_units(units, b"delete") {
        Word::Delete
    } else if same_units(units, b"do") {
        Word::Do
    } else if same_units(units, b"else") {
        Word::Else
    } else if same_units(units, b"extends") {
        Word::Extends
    } else if same_units(units, b"false") {
        Word::False
    } else if same_units(units, b"finally") {
        Word::Finally
    } else {
        from_for(units)
    }
}

/// The reserved word of these units among the words from `for` on.
#[tactic(auto, unfolding(actx_grammar::specs::Words::word_among))]
fn from_for(units: &[u16]) -> Word
    ensures { result ≡ grammar_words.word_among lists.words_from_for units.now }
{
    if same_units(units, b"for") {
        Word::For
    } else if same_units(units, b"function") {
        Word::Function
    } else if same_units(units, b"if") {
        Word::If
    } else if same_units(units, b"in") {
        Word::In
    } else if same_units(units, b"instanceof") {
        Word::Instanceof
    } else if same_units(units, b"let") {
        Word::Let
    } else if same_units(units, b"new") {
        Word::New
    } else {
        from_null(units)
    }
}

/// The reserved word of these units among the words from `null` on.
#[tactic(auto, unfolding(actx_grammar::specs::Words::word_among))]
fn from_null(units: &[u16]) -> Word
    ensures { result ≡ grammar_words.word_among lists.words_from_null units.now }
{
    if same_units(units, b"null") {
        Word::Null
    } else if same_units(units, b"return") {
        Word::Return
    } else if same_units(units, b"static") {
        Word::Static
    } else if same_units(units, b"super") {
        Word::Super
    } else if same_units(units, b"switch") {
        Word::Switch
    } else if same_units(units, b"this") {
        Word::This
    } else if same_units(units, b"throw") {
        Word::Throw
    } else {
        from_true(units)
    }
}

/// The reserved word of these units among the words from `true` on.
#[tactic(auto, unfolding(actx_grammar::specs::Words::word_among))]
fn from_true(units: &[u16]) -> Word
    ensures { result ≡ grammar_words.word_among lists.words_from_true units.now }
{
    if same_units(units, b"true") {
        Word::True
    } else if same_units(units, b"try") {
        Word::Try
    } else if same_units(units, b"typeof") {
        Word::Typeof
    } else if same_units(units, b"void") {
        Word::Void
    } else if same_units(units, b"while") {
        Word::While
    } else if same_units(units, b"yield") {
        Word::Yield
    } else {
        Word::Other
    }
}

/// What the grammar sees of a token of that kind.
pub fn kind_of(kind: &TokenKind) -> Kind
    ensures { result ≡ kinds.kind_of kind.now }
{
    match kind {
        TokenKind::Name(_) => Kind::Name,
        TokenKind::Reserved(units) => Kind::Word(word_of(as_units(units))),
        TokenKind::Number(_) => Kind::Number,
        TokenKind::Text(_) => Kind::Text,
        TokenKind::Template { opens, closes, .. } => Kind::Piece(*opens, *closes),
        TokenKind::Punct(sign) => Kind::Sign(*sign),
    }
}

/// Whether a token of that kind is the name `async` (ECMA-262 §15.8).
pub fn is_async_word(kind: &TokenKind) -> bool
    ensures { result ≡ tokens.is_async_word kind.now }
{
    match kind {
        TokenKind::Name(units) => same_units(as_units(units), b"async"),
        _ => false,
    }
}
