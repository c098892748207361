//! `try`.

ghost use Rattle.std.specs.Prelude.{◌≡◌, ◌+◌, ◌≤◌, IfOk};
ghost use Rattle.actx_grammar.specs.Reads.{Reads};
ghost use Rattle.actx_program.specs.StatementReader as spec;
ghost use Rattle.actx_statement.specs.Holds.{Holds};

use crate::within::Within;
use actx_cursor::Cursor;
use actx_grammar::{Bracket, Cause, Kind, Word};
use actx_lex::Punct;
use actx_tree::{Catch, Stmt, Target};
use sqlite_items::Items;
use std::alloc::Global;

impl<
    F: Fn(Global, &mut Cursor<'_>, usize) -> Result<(Stmt, usize), Cause>,
    G: Fn(Global, &mut Cursor<'_>, usize) -> Result<(Stmt, usize), Cause>,
> Within<F, G> {
    /// What a `catch` binds, if it says so.
    ///
    /// # Errors
    /// `NoTree` and `TooNested` as the definition says; `Memory`.
    #[tactic(auto, unfolding(actx_program::specs::StatementReader::caught, actx_grammar::specs::Reader::and_then))]
    pub fn caught(&self, cursor: &mut Cursor<'_>) -> Result<(Option<Target>, usize), Cause>
        requires nests { Holds self.now.room (F.pre self.now.stmt) (F.post self.now.stmt) (G.pre self.now.item) (G.post self.now.item) }
        requires small { self.now.room ≤ 200 }
        ensures reads { Reads (spec.caught (spec.inside self.now.room) cursor.old) result cursor.new }
        ensures low { IfOk result (λ x. x.1 ≤ self.now.room) }
    {
        if !matches!(cursor.next(), Kind::Sign(Punct::OpenParenthesis)) {
            return Ok((None, 0));
        }
        cursor.skip();
        let (target, levels) = self.target(cursor)?;
        cursor.close(Bracket::Round)?;
        Ok((Some(target), levels))
    }

    /// `catch` and its block, if it comes.
    ///
    /// # Errors
    /// `NoTree` and `TooNested` as the definition says; `Memory`.
    #[tactic(auto, unfolding(actx_program::specs::StatementReader::handler, actx_grammar::specs::Reader::and_then))]
    pub fn handler(&self, cursor: &mut Cursor<'_>) -> Result<(Option<Catch>, usize), Cause>
        requires nests { Holds self.now.room (F.pre self.now.stmt) (F.post self.now.stmt) (G.pre self.now.item) (G.post self.now.item) }
        requires small { self.now.room ≤ 200 }
        ensures reads { Reads (spec.handler (spec.inside self.now.room) cursor.old) result cursor.new }
        ensures low { IfOk result (λ x. x.1 ≤ self.now.room) }
    {
        if !matches!(cursor.next(), Kind::Word(Word::Catch)) {
            return Ok((None, 0));
        }
        cursor.skip();
        let (target, levels) = self.caught(cursor)?;
        let (block, block_levels) = self.block(cursor)?;
        Ok((Some(Catch { target, block }), levels.max(block_levels)))
    }

    /// `finally` and its block, if it comes.
    ///
    /// # Errors
    /// `NoTree` and `TooNested` as the definition says; `Memory`.
    #[tactic(auto, unfolding(actx_program::specs::StatementReader::finally, actx_grammar::specs::Reader::and_then))]
    pub fn finally(&self, cursor: &mut Cursor<'_>) -> Result<(Option<Items<Stmt>>, usize), Cause>
        requires nests { Holds self.now.room (F.pre self.now.stmt) (F.post self.now.stmt) (G.pre self.now.item) (G.post self.now.item) }
        requires small { self.now.room ≤ 200 }
        ensures reads { Reads (spec.finally (spec.inside self.now.room) cursor.old) result cursor.new }
        ensures low { IfOk result (λ x. x.1 ≤ self.now.room) }
    {
        if !matches!(cursor.next(), Kind::Word(Word::Finally)) {
            return Ok((None, 0));
        }
        cursor.skip();
        let (block, levels) = self.block(cursor)?;
        Ok((Some(block), levels))
    }

    /// `try` (ECMA-262 §14.15).
    ///
    /// # Errors
    /// `NoTree` and `TooNested` as the definition says; `Memory`.
    #[tactic(auto, unfolding(actx_program::specs::StatementReader::try_form, actx_grammar::specs::Reader::and_then))]
    pub fn try_form(&self, cursor: &mut Cursor<'_>) -> Result<(Stmt, usize), Cause>
        requires nests { Holds self.now.room (F.pre self.now.stmt) (F.post self.now.stmt) (G.pre self.now.item) (G.post self.now.item) }
        requires small { self.now.room ≤ 200 }
        ensures reads { Reads (spec.try_form (spec.inside self.now.room) cursor.old) result cursor.new }
        ensures low { IfOk result (λ x. x.1 ≤ self.now.room + 1) }
    {
        cursor.skip();
        let (block, levels) = self.block(cursor)?;
        let (handler, handler_levels) = self.handler(cursor)?;
        let (last, last_levels) = self.finally(cursor)?;
        if handler.is_none() && last.is_none() {
            return Err(Cause::NoTree);
        }
        let highest = levels.max(handler_levels.max(last_levels));
        Ok((Stmt::Try(block, handler, last), highest + 1))
    }
}
