//! What begins or ends at a place.

ghost use Rattle.std.specs.Prelude.{◌≡◌, ◌&&◌};
ghost use Rattle.actx_grammar.specs.declared.kind.Kind.TheVariants as a_kind;
ghost use Rattle.actx_grammar.specs.declared.bracket.Bracket.TheVariants as a_bracket;
ghost use Rattle.actx_grammar.specs.Kinds as kinds;
ghost use Rattle.actx_grammar.specs.Tokens as tokens;

use crate::cursor::Cursor;
use crate::words::{is_async_word, kind_of};
use actx_grammar::{Bracket, Kind, Word};
use actx_lex::Punct;

/// Whether a token of that kind begins an Assign (ECMA-262 §13.15).
fn begins_assign(kind: Kind) -> bool
    ensures { result ≡ kinds.begins_assign kind }
{
    match kind {
        Kind::Name | Kind::Number | Kind::Text => true,
        Kind::Piece(opens, _) => opens,
        Kind::Sign(sign) => matches!(
            sign,
            Punct::OpenParenthesis
                | Punct::OpenBracket
                | Punct::OpenBrace
                | Punct::Not
                | Punct::Minus
                | Punct::Plus
                | Punct::PlusPlus
                | Punct::MinusMinus
        ),
        Kind::Word(word) => begins_by_word(word),
        Kind::End => false,
    }
}

/// Whether the reserved word begins an Assign.
fn begins_by_word(word: Word) -> bool
    ensures { result ≡ kinds.begins_assign (a_kind.Word word) }
{
    matches!(
        word,
        Word::Class
            | Word::False
            | Word::Function
            | Word::Null
            | Word::Super
            | Word::This
            | Word::True
            | Word::New
            | Word::Typeof
            | Word::Void
            | Word::Delete
            | Word::Await
            | Word::Yield
    )
}

/// Whether a token of that kind begins a Key (ECMA-262 §13.2.5, PropertyName).
fn begins_key(kind: Kind) -> bool
    ensures { result ≡ kinds.begins_key kind }
{
    matches!(
        kind,
        Kind::Name | Kind::Number | Kind::Text | Kind::Word(_) | Kind::Sign(Punct::OpenBracket)
    )
}

/// Whether a token of that kind ends each Expr, wherever it stands.
fn ends_always(kind: Kind) -> bool
    ensures { result ≡ kinds.ends_always kind }
{
    match kind {
        Kind::End => true,
        Kind::Piece(opens, _) => !opens,
        Kind::Sign(sign) => matches!(
            sign,
            Punct::CloseParenthesis
                | Punct::CloseBracket
                | Punct::CloseBrace
                | Punct::Colon
                | Punct::Semicolon
        ),
        _ => false,
    }
}

/// Whether a token of that kind goes on with what stands before it, also as the first on its line
/// (ECMA-262 §12.10, restricted).
pub fn goes_on_line(kind: Kind) -> bool
    ensures { result ≡ kinds.goes_on_line kind }
{
    match kind {
        Kind::Piece(_, _) => true,
        Kind::Word(word) => matches!(word, Word::In | Word::Instanceof),
        Kind::Sign(sign) => !matches!(
            sign,
            Punct::OpenBrace
                | Punct::CloseBrace
                | Punct::CloseParenthesis
                | Punct::CloseBracket
                | Punct::Ellipsis
                | Punct::PlusPlus
                | Punct::MinusMinus
                | Punct::Not
        ),
        _ => false,
    }
}

impl<'a> Cursor<'a> {
    /// Whether the next token begins an Assign, on the line (ECMA-262 §15.5, `yield`).
    #[tactic(auto, unfolding(actx_grammar::specs::Tokens::has_operand))]
    pub fn has_operand(&self) -> bool
        ensures { result ≡ tokens.has_operand self.now }
    {
        begins_assign(self.next()) && self.is_on_line()
    }

    /// Whether the name `async` comes next, and a token behind it on the line (ECMA-262 §15.8).
    #[tactic(auto, unfolding(actx_grammar::specs::Tokens::is_async))]
    pub fn is_async(&self) -> bool
        ensures { result ≡ tokens.is_async self.now }
    {
        match self.left {
            [] => false,
            [token, rest @ ..] => {
                is_async_word(&token.kind) && Cursor { left: rest }.is_on_line()
            }
        }
    }

    /// Whether `=>` comes next.
    fn is_arrow(&self) -> bool
        ensures { result ≡ kinds.is_arrow_sign (tokens.next self.now) }
    {
        matches!(self.next(), Kind::Sign(Punct::Arrow))
    }

    /// Whether `=>` follows the bracket that closes the one before the cursor.
    fn has_arrow_behind_brackets(&self) -> bool
        ensures { result ≡ tokens.is_before_arrow (tokens.after_brackets a_bracket.Round self.now 0) }
    {
        match self.after_brackets(Bracket::Round) {
            None => false,
            Some(after) => after.is_arrow(),
        }
    }

    /// Whether a name, or brackets, come next, with `=>` behind.
    #[tactic(auto, unfolding(actx_grammar::specs::Tokens::has_arrow))]
    fn has_arrow(&self) -> bool
        ensures { result ≡ tokens.has_arrow self.now }
    {
        match self.left {
            [] => false,
            [token, rest @ ..] => match kind_of(&token.kind) {
                Kind::Name => Cursor { left: rest }.is_arrow(),
                Kind::Sign(Punct::OpenParenthesis) => {
                    Cursor { left: rest }.has_arrow_behind_brackets()
                }
                _ => false,
            },
        }
    }

    /// Whether an arrow function begins here, and whether it is async (ECMA-262 §15.3, §15.9).
    #[tactic(auto, unfolding(actx_grammar::specs::Tokens::arrow_start))]
    pub fn arrow_start(&self) -> Option<bool>
        ensures { result ≡ tokens.arrow_start self.now }
    {
        if self.has_arrow() {
            Some(false)
        } else if self.is_async() && self.ahead().has_arrow() {
            Some(true)
        } else {
            None
        }
    }

    /// Whether `async` comes next, and `function` behind it on its line (ECMA-262 §15.8).
    #[tactic(auto, unfolding(actx_grammar::specs::Tokens::is_async_function))]
    pub fn is_async_function(&self) -> bool
        ensures { result ≡ tokens.is_async_function self.now }
    {
        self.is_async() && matches!(self.second(), Kind::Word(Word::Function))
    }

    /// Whether `async` comes next, and a key behind it on its line (ECMA-262 §15.8, AsyncMethod).
    pub(crate) fn is_async_method(&self) -> bool
        ensures { result ≡ (tokens.is_async self.now && kinds.begins_key (tokens.next (tokens.behind self.now))) }
    {
        self.is_async() && begins_key(self.second())
    }

    /// Whether `static` comes next, but not right before `(` (ECMA-262 §15.7, ClassElement).
    #[tactic(auto, unfolding(actx_grammar::specs::Tokens::is_static))]
    pub fn is_static(&self) -> bool
        ensures { result ≡ tokens.is_static self.now }
    {
        matches!(self.next(), Kind::Word(Word::Static))
            && !matches!(self.second(), Kind::Sign(Punct::OpenParenthesis))
    }

    /// Whether a name comes next, and `,` or `}` behind it (ECMA-262 §13.2.5, a shorthand).
    #[tactic(auto, unfolding(actx_grammar::specs::Tokens::is_shorthand))]
    pub fn is_shorthand(&self) -> bool
        ensures { result ≡ tokens.is_shorthand self.now }
    {
        matches!(self.next(), Kind::Name)
            && matches!(
                self.second(),
                Kind::Sign(Punct::Comma) | Kind::Sign(Punct::CloseBrace)
            )
    }

    /// Whether each Expr before this place ends here.
    #[tactic(auto, unfolding(actx_grammar::specs::Tokens::ends_expression))]
    pub fn ends_expression(&self) -> bool
        ensures { result ≡ tokens.ends_expression self.now }
    {
        ends_always(self.next()) || (!self.is_on_line() && !goes_on_line(self.next()))
    }

    /// Whether each Assign before this place ends here.
    #[tactic(auto, unfolding(actx_grammar::specs::Tokens::ends_assign))]
    pub fn ends_assign(&self) -> bool
        ensures { result ≡ tokens.ends_assign self.now }
    {
        matches!(self.next(), Kind::Sign(Punct::Comma)) || self.ends_expression()
    }

    /// Whether each Left before this place ends here: `{` comes next.
    #[tactic(auto, unfolding(actx_grammar::specs::Tokens::ends_left))]
    pub fn ends_left(&self) -> bool
        ensures { result ≡ tokens.ends_left self.now }
    {
        matches!(self.next(), Kind::Sign(Punct::OpenBrace))
    }
}
