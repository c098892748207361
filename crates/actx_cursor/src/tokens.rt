//! Single tokens with what they hold.

ghost use Rattle.std.specs.Prelude.{◌≡◌};
ghost use Rattle.actx_grammar.specs.Reader as spec;
ghost use Rattle.actx_grammar.specs.Reads.{Reads};

use crate::cursor::Cursor;
use actx_grammar::{Bracket, Cause, Kind};
use actx_lex::{Token, TokenKind};
use actx_text::{Units, copy};
use actx_tree::Key;
use std::alloc::Global;

impl<'a> Cursor<'a> {
    /// A word that isn't reserved.
    ///
    /// # Errors
    /// `NoTree` where another token comes next; `Memory`.
    #[tactic(auto, unfolding(actx_grammar::specs::Reader::name))]
    pub fn name(&mut self, alloc: Global) -> Result<Units, Cause>
        ensures { Reads (spec.name self.old) result self.new }
    {
        match self.left {
            [
                Token {
                    kind: TokenKind::Name(units),
                    ..
                },
                rest @ ..,
            ] => {
                let units = copy(alloc, units)?;
                self.left = rest;
                Ok(units)
            }
            _ => Err(Cause::NoTree),
        }
    }

    /// A word, reserved or not (ECMA-262 §12.7, IdentifierName).
    ///
    /// # Errors
    /// `NoTree` where another token comes next; `Memory`.
    #[tactic(auto, unfolding(actx_grammar::specs::Reader::word))]
    pub fn word(&mut self, alloc: Global) -> Result<Units, Cause>
        ensures { Reads (spec.word self.old) result self.new }
    {
        match self.left {
            [
                Token {
                    kind: TokenKind::Name(units) | TokenKind::Reserved(units),
                    ..
                },
                rest @ ..,
            ] => {
                let units = copy(alloc, units)?;
                self.left = rest;
                Ok(units)
            }
            _ => Err(Cause::NoTree),
        }
    }

    /// A number.
    ///
    /// # Errors
    /// `NoTree` where another token comes next.
    #[tactic(auto, unfolding(actx_grammar::specs::Reader::number))]
    pub fn number(&mut self) -> Result<i64, Cause>
        ensures { Reads (spec.number self.old) result self.new }
    {
        match self.left {
            [
                Token {
                    kind: TokenKind::Number(number),
                    ..
                },
                rest @ ..,
            ] => {
                self.left = rest;
                Ok(*number)
            }
            _ => Err(Cause::NoTree),
        }
    }

    /// A text between quotes.
    ///
    /// # Errors
    /// `NoTree` where another token comes next; `Memory`.
    #[tactic(auto, unfolding(actx_grammar::specs::Reader::text))]
    pub fn text(&mut self, alloc: Global) -> Result<Units, Cause>
        ensures { Reads (spec.text self.old) result self.new }
    {
        match self.left {
            [
                Token {
                    kind: TokenKind::Text(units),
                    ..
                },
                rest @ ..,
            ] => {
                let units = copy(alloc, units)?;
                self.left = rest;
                Ok(units)
            }
            _ => Err(Cause::NoTree),
        }
    }

    /// A piece of a template, one that begins it or one that doesn't, and whether it ends it.
    ///
    /// # Errors
    /// `NoTree` where another token comes next; `Memory`.
    #[tactic(auto, unfolding(actx_grammar::specs::Reader::piece))]
    pub fn piece(&mut self, alloc: Global, begins: bool) -> Result<(Units, bool), Cause>
        ensures { Reads (spec.piece begins self.old) result self.new }
    {
        match self.left {
            [
                Token {
                    kind: TokenKind::Template {
                        text,
                        opens,
                        closes,
                    },
                    ..
                },
                rest @ ..,
            ] => {
                if *opens != begins {
                    return Err(Cause::NoTree);
                }
                let units = copy(alloc, text)?;
                self.left = rest;
                Ok((units, *closes))
            }
            _ => Err(Cause::NoTree),
        }
    }

    /// A word, a text or a number as a key (ECMA-262 §13.2.5, LiteralPropertyName).
    ///
    /// # Errors
    /// `NoTree` where another token comes next; `Memory`.
    #[tactic(auto, unfolding(actx_grammar::specs::Reader::literal))]
    pub fn literal(&mut self, alloc: Global) -> Result<Key, Cause>
        ensures { Reads (spec.literal self.old) result self.new }
    {
        let (token, rest) = match self.left {
            [] => return Err(Cause::NoTree),
            [token, rest @ ..] => (token, rest),
        };
        let key = match &token.kind {
            TokenKind::Name(units) | TokenKind::Reserved(units) => Key::Word(copy(alloc, units)?),
            TokenKind::Text(units) => Key::Text(copy(alloc, units)?),
            TokenKind::Number(number) => Key::Number(*number),
            _ => return Err(Cause::NoTree),
        };
        self.left = rest;
        Ok(key)
    }

    /// A name, if one comes next.
    ///
    /// # Errors
    /// `Memory`.
    #[tactic(auto, unfolding(actx_grammar::specs::Reader::optional_name, actx_grammar::specs::Reader::and_then))]
    pub fn optional_name(&mut self, alloc: Global) -> Result<Option<Units>, Cause>
        ensures { Reads (spec.optional_name self.old) result self.new }
    {
        match self.next() {
            Kind::Name => Ok(Some(self.name(alloc)?)),
            _ => Ok(None),
        }
    }

    /// The end of a pattern: `...` and a name, if they come next, and the closing bracket
    /// (ECMA-262 §14.3.3).
    ///
    /// # Errors
    /// `NoTree` where other tokens come; `Memory`.
    #[tactic(auto, unfolding(actx_grammar::specs::Reader::rest_name, actx_grammar::specs::Reader::and_then))]
    pub fn rest_name(&mut self, alloc: Global, bracket: Bracket) -> Result<Option<Units>, Cause>
        ensures { Reads (spec.rest_name bracket self.old) result self.new }
    {
        if self.closes(bracket) {
            self.skip();
            return Ok(None);
        }
        self.dots()?;
        let units = self.name(alloc)?;
        self.close(bracket)?;
        Ok(Some(units))
    }
}
