//! Single tokens without units.

ghost use Rattle.std.specs.Prelude.{◌≡◌};
ghost use Rattle.actx_grammar.specs.Kinds as kinds;
ghost use Rattle.actx_grammar.specs.Lines as lines;
ghost use Rattle.actx_grammar.specs.Reader as spec;
ghost use Rattle.actx_grammar.specs.Reads.{Reads};

use crate::cursor::Cursor;
use actx_grammar::{Bracket, Cause, Kind, Word};
use actx_lex::Punct;

impl<'a> Cursor<'a> {
    /// `(`
    ///
    /// # Errors
    /// `NoTree` where another token comes next.
    #[tactic(auto, unfolding(actx_grammar::specs::Reader::expect))]
    pub fn open_parenthesis(&mut self) -> Result<(), Cause>
        ensures { Reads (spec.expect kinds.is_open_parenthesis self.old) result self.new }
    {
        if !matches!(self.next(), Kind::Sign(Punct::OpenParenthesis)) {
            return Err(Cause::NoTree);
        }
        self.skip();
        Ok(())
    }

    /// `[`
    ///
    /// # Errors
    /// `NoTree` where another token comes next.
    #[tactic(auto, unfolding(actx_grammar::specs::Reader::expect))]
    pub fn open_bracket(&mut self) -> Result<(), Cause>
        ensures { Reads (spec.expect kinds.is_open_bracket self.old) result self.new }
    {
        if !matches!(self.next(), Kind::Sign(Punct::OpenBracket)) {
            return Err(Cause::NoTree);
        }
        self.skip();
        Ok(())
    }

    /// `{`
    ///
    /// # Errors
    /// `NoTree` where another token comes next.
    #[tactic(auto, unfolding(actx_grammar::specs::Reader::expect))]
    pub fn open_brace(&mut self) -> Result<(), Cause>
        ensures { Reads (spec.expect kinds.is_open_brace self.old) result self.new }
    {
        if !matches!(self.next(), Kind::Sign(Punct::OpenBrace)) {
            return Err(Cause::NoTree);
        }
        self.skip();
        Ok(())
    }

    /// `...`
    ///
    /// # Errors
    /// `NoTree` where another token comes next.
    #[tactic(auto, unfolding(actx_grammar::specs::Reader::expect))]
    pub fn dots(&mut self) -> Result<(), Cause>
        ensures { Reads (spec.expect kinds.is_dots self.old) result self.new }
    {
        if !matches!(self.next(), Kind::Sign(Punct::Ellipsis)) {
            return Err(Cause::NoTree);
        }
        self.skip();
        Ok(())
    }

    /// `:`
    ///
    /// # Errors
    /// `NoTree` where another token comes next.
    #[tactic(auto, unfolding(actx_grammar::specs::Reader::expect))]
    pub fn colon(&mut self) -> Result<(), Cause>
        ensures { Reads (spec.expect kinds.is_colon self.old) result self.new }
    {
        if !matches!(self.next(), Kind::Sign(Punct::Colon)) {
            return Err(Cause::NoTree);
        }
        self.skip();
        Ok(())
    }

    /// `;`
    ///
    /// # Errors
    /// `NoTree` where another token comes next.
    #[tactic(auto, unfolding(actx_grammar::specs::Reader::expect))]
    pub fn semicolon(&mut self) -> Result<(), Cause>
        ensures { Reads (spec.expect kinds.is_semicolon self.old) result self.new }
    {
        if !matches!(self.next(), Kind::Sign(Punct::Semicolon)) {
            return Err(Cause::NoTree);
        }
        self.skip();
        Ok(())
    }

    /// `function`
    ///
    /// # Errors
    /// `NoTree` where another token comes next.
    #[tactic(auto, unfolding(actx_grammar::specs::Reader::expect))]
    pub fn function_word(&mut self) -> Result<(), Cause>
        ensures { Reads (spec.expect kinds.is_function_word self.old) result self.new }
    {
        if !matches!(self.next(), Kind::Word(Word::Function)) {
            return Err(Cause::NoTree);
        }
        self.skip();
        Ok(())
    }

    /// `class`
    ///
    /// # Errors
    /// `NoTree` where another token comes next.
    #[tactic(auto, unfolding(actx_grammar::specs::Reader::expect))]
    pub fn class_word(&mut self) -> Result<(), Cause>
        ensures { Reads (spec.expect kinds.is_class_word self.old) result self.new }
    {
        if !matches!(self.next(), Kind::Word(Word::Class)) {
            return Err(Cause::NoTree);
        }
        self.skip();
        Ok(())
    }

    /// The closing bracket.
    ///
    /// # Errors
    /// `NoTree` where another token comes next.
    #[tactic(auto, unfolding(actx_grammar::specs::Reader::expect))]
    pub fn close(&mut self, bracket: Bracket) -> Result<(), Cause>
        ensures { Reads (spec.expect (kinds.closes bracket) self.old) result self.new }
    {
        if !self.closes(bracket) {
            return Err(Cause::NoTree);
        }
        self.skip();
        Ok(())
    }

    /// `=>`, on the line of what stands before it (ECMA-262 §15.3).
    ///
    /// # Errors
    /// `NoTree` where another token comes next, or `=>` on a new line.
    #[tactic(auto, unfolding(actx_grammar::specs::Lines::arrow_sign))]
    pub fn arrow_sign(&mut self) -> Result<(), Cause>
        ensures { Reads (lines.arrow_sign self.old) result self.new }
    {
        if !(matches!(self.next(), Kind::Sign(Punct::Arrow)) && self.is_on_line()) {
            return Err(Cause::NoTree);
        }
        self.skip();
        Ok(())
    }
}
