//! `if`, `while` and `do`.

ghost use Rattle.std.specs.Prelude.{◌≡◌, ◌+◌, ◌≤◌, IfOk};
ghost use Rattle.actx_grammar.specs.Reads.{Reads};
ghost use Rattle.actx_program.specs.StatementReader as spec;
ghost use Rattle.actx_statement.specs.Holds.{Holds};

use crate::ends::{semicolon, while_word};
use crate::within::Within;
use actx_cursor::Cursor;
use actx_grammar::{Bracket, Cause, Kind, Line, Word};
use actx_tree::{Expr, Stmt};
use sqlite_items::Boxed;
use std::alloc::Global;

impl<
    F: Fn(Global, &mut Cursor<'_>, usize) -> Result<(Stmt, usize), Cause>,
    G: Fn(Global, &mut Cursor<'_>, usize) -> Result<(Stmt, usize), Cause>,
> Within<F, G> {
    /// A test in brackets.
    ///
    /// # Errors
    /// `NoTree` and `TooNested` as the definition says; `Memory`.
    #[tactic(auto, unfolding(actx_program::specs::StatementReader::test, actx_grammar::specs::Reader::and_then))]
    pub fn test(&self, cursor: &mut Cursor<'_>) -> Result<(Expr, usize), Cause>
        requires nests { Holds self.now.room (F.pre self.now.stmt) (F.post self.now.stmt) (G.pre self.now.item) (G.post self.now.item) }
        requires small { self.now.room ≤ 200 }
        ensures reads { Reads (spec.test (spec.inside self.now.room) cursor.old) result cursor.new }
        ensures low { IfOk result (λ x. x.1 ≤ self.now.room) }
    {
        cursor.open_parenthesis()?;
        let (test, levels) = self.expr(cursor, Line::Expr)?;
        cursor.close(Bracket::Round)?;
        Ok((test, levels))
    }

    /// `else` and its statement, if it comes.
    ///
    /// # Errors
    /// `NoTree` and `TooNested` as the definition says; `Memory`.
    #[tactic(auto, unfolding(actx_program::specs::StatementReader::other, actx_grammar::specs::Reader::and_then))]
    pub fn other(&self, cursor: &mut Cursor<'_>) -> Result<(Option<Boxed<Stmt>>, usize), Cause>
        requires nests { Holds self.now.room (F.pre self.now.stmt) (F.post self.now.stmt) (G.pre self.now.item) (G.post self.now.item) }
        requires small { self.now.room ≤ 200 }
        ensures reads { Reads (spec.other (spec.inside self.now.room) cursor.old) result cursor.new }
        ensures low { IfOk result (λ x. x.1 ≤ self.now.room) }
    {
        if !matches!(cursor.next(), Kind::Word(Word::Else)) {
            return Ok((None, 0));
        }
        cursor.skip();
        let (stmt, levels) = self.boxed_stmt(cursor)?;
        Ok((Some(stmt), levels))
    }

    /// `if` (ECMA-262 §14.6).
    ///
    /// # Errors
    /// `NoTree` and `TooNested` as the definition says; `Memory`.
    #[tactic(auto, unfolding(actx_program::specs::StatementReader::if_form, actx_grammar::specs::Reader::and_then))]
    pub fn if_form(&self, cursor: &mut Cursor<'_>) -> Result<(Stmt, usize), Cause>
        requires nests { Holds self.now.room (F.pre self.now.stmt) (F.post self.now.stmt) (G.pre self.now.item) (G.post self.now.item) }
        requires small { self.now.room ≤ 200 }
        ensures reads { Reads (spec.if_form (spec.inside self.now.room) cursor.old) result cursor.new }
        ensures low { IfOk result (λ x. x.1 ≤ self.now.room + 1) }
    {
        cursor.skip();
        let (test, levels) = self.test(cursor)?;
        let (yes, yes_levels) = self.boxed_stmt(cursor)?;
        let (no, no_levels) = self.other(cursor)?;
        let highest = levels.max(yes_levels.max(no_levels));
        Ok((Stmt::If(test, yes, no), highest + 1))
    }

    /// `while` (ECMA-262 §14.7.3).
    ///
    /// # Errors
    /// `NoTree` and `TooNested` as the definition says; `Memory`.
    #[tactic(auto, unfolding(actx_program::specs::StatementReader::while_form, actx_grammar::specs::Reader::and_then))]
    pub fn while_form(&self, cursor: &mut Cursor<'_>) -> Result<(Stmt, usize), Cause>
        requires nests { Holds self.now.room (F.pre self.now.stmt) (F.post self.now.stmt) (G.pre self.now.item) (G.post self.now.item) }
        requires small { self.now.room ≤ 200 }
        ensures reads { Reads (spec.while_form (spec.inside self.now.room) cursor.old) result cursor.new }
        ensures low { IfOk result (λ x. x.1 ≤ self.now.room + 1) }
    {
        cursor.skip();
        let (test, levels) = self.test(cursor)?;
        let (body, body_levels) = self.boxed_stmt(cursor)?;
        Ok((Stmt::While(test, body), levels.max(body_levels) + 1))
    }

    /// `do` (ECMA-262 §14.7.2).
    ///
    /// # Errors
    /// `NoTree` and `TooNested` as the definition says; `Memory`.
    #[tactic(auto, unfolding(actx_program::specs::StatementReader::do_form, actx_grammar::specs::Reader::and_then))]
    pub fn do_form(&self, cursor: &mut Cursor<'_>) -> Result<(Stmt, usize), Cause>
        requires nests { Holds self.now.room (F.pre self.now.stmt) (F.post self.now.stmt) (G.pre self.now.item) (G.post self.now.item) }
        requires small { self.now.room ≤ 200 }
        ensures reads { Reads (spec.do_form (spec.inside self.now.room) cursor.old) result cursor.new }
        ensures low { IfOk result (λ x. x.1 ≤ self.now.room + 1) }
    {
        cursor.skip();
        let (body, body_levels) = self.boxed_stmt(cursor)?;
        while_word(cursor)?;
        let (test, levels) = self.test(cursor)?;
        semicolon(cursor);
        Ok((Stmt::Do(body, test), body_levels.max(levels) + 1))
    }
}
