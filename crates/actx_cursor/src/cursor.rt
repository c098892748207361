//! The cursor.

ghost use Rattle.std.specs.Prelude.{◌≡◌, ◌≤◌, length, drop};
ghost use Rattle.actx_grammar.specs.Reader as spec;
ghost use Rattle.actx_grammar.specs.Tokens as tokens;
ghost use Rattle.actx_grammar.specs.Kinds as kinds;

use crate::words::kind_of;
use actx_grammar::{Bracket, Kind};
use actx_lex::{Punct, Token};
use std::marker::Model;

/// A place in a list of tokens. Contracts see it as the list of tokens that are left there.
#[derive(Drop)]
pub struct Cursor<'a> {
    pub(crate) left: &'a [Token],
}

impl<'a> Model for Cursor<'a> {
    ghost use Rattle.std.specs.Prelude.{List};
    ghost use Rattle.actx_lex.specs.declared.token.Token.{Token};

    ghost Value = { List Token };

    ghost view = { λ c. c.left.now };
}

impl<'a> Cursor<'a> {
    /// The place with so many tokens before it.
    pub fn new(tokens: &'a [Token], from: usize) -> Cursor<'a>
        requires within { from ≤ length tokens.now }
        ensures { result ≡ drop from tokens.now }
    {
        Cursor {
            left: &tokens[from..],
        }
    }

    /// The tokens that are left.
    pub fn as_slice(&self) -> &'a [Token]
        ensures { result.now ≡ self.now }
    {
        self.left
    }

    /// How many tokens are left.
    #[tactic(auto, unfolding(actx_grammar::specs::Reader::count))]
    pub fn len(&self) -> usize
        ensures { result ≡ spec.count self.now }
    {
        self.left.len()
    }

    /// The kind of the next token, or `Kind::End`.
    #[tactic(auto, unfolding(actx_grammar::specs::Tokens::next))]
    pub fn next(&self) -> Kind
        ensures { result ≡ tokens.next self.now }
    {
        match self.left {
            [] => Kind::End,
            [token, ..] => kind_of(&token.kind),
        }
    }

    /// The place behind the next token, or the end.
    #[tactic(auto, unfolding(actx_grammar::specs::Tokens::behind))]
    pub(crate) fn ahead(&self) -> Cursor<'a>
        ensures { result ≡ tokens.behind self.now }
    {
        match self.left {
            [] => Cursor { left: self.left },
            [_, rest @ ..] => Cursor { left: rest },
        }
    }

    /// The kind of the token behind the next one, or `Kind::End`.
    pub fn second(&self) -> Kind
        ensures { result ≡ tokens.next (tokens.behind self.now) }
    {
        self.ahead().next()
    }

    /// Goes behind the next token, if there is one.
    pub fn skip(&mut self)
        ensures { self.new ≡ tokens.behind self.old }
    {
        self.left = self.ahead().left;
    }

    /// Whether there is a next token and it isn't the first on its line.
    #[tactic(auto, unfolding(actx_grammar::specs::Tokens::is_on_line))]
    pub fn is_on_line(&self) -> bool
        ensures { result ≡ tokens.is_on_line self.now }
    {
        match self.left {
            [] => false,
            [token, ..] => !token.first,
        }
    }

    /// Whether the closing bracket comes next.
    pub fn closes(&self, bracket: Bracket) -> bool
        ensures { result ≡ kinds.closes bracket (tokens.next self.now) }
    {
        let next = self.next();
        match bracket {
            Bracket::Round => matches!(next, Kind::Sign(Punct::CloseParenthesis)),
            Bracket::Square => matches!(next, Kind::Sign(Punct::CloseBracket)),
            Bracket::Curly => matches!(next, Kind::Sign(Punct::CloseBrace)),
        }
    }
}
