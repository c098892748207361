//! Statements that an End ends.

ghost use Rattle.std.specs.Prelude.{◌≡◌, ◌+◌, ◌≤◌, IfOk};
ghost use Rattle.actx_grammar.specs.Reads.{Reads};
ghost use Rattle.actx_program.specs.StatementReader as spec;
ghost use Rattle.actx_statement.specs.Holds.{Holds};

use crate::ends::{begins_other, end};
use crate::within::Within;
use actx_cursor::Cursor;
use actx_grammar::{Cause, Line};
use actx_tree::{Expr, Stmt};
use std::alloc::Global;

impl<
    F: Fn(Global, &mut Cursor<'_>, usize) -> Result<(Stmt, usize), Cause>,
    G: Fn(Global, &mut Cursor<'_>, usize) -> Result<(Stmt, usize), Cause>,
> Within<F, G> {
    /// An expression and the end of its statement.
    ///
    /// # Errors
    /// `NoTree` and `TooNested` as the definition says; `Memory`.
    #[tactic(auto, unfolding(actx_program::specs::StatementReader::ended_value, actx_grammar::specs::Reader::and_then))]
    pub fn ended_value(&self, cursor: &mut Cursor<'_>) -> Result<(Expr, usize), Cause>
        requires nests { Holds self.now.room (F.pre self.now.stmt) (F.post self.now.stmt) (G.pre self.now.item) (G.post self.now.item) }
        requires small { self.now.room ≤ 200 }
        ensures reads { Reads (spec.ended_value (spec.inside self.now.room) cursor.old) result cursor.new }
        ensures low { IfOk result (λ x. x.1 ≤ self.now.room) }
    {
        let (value, levels) = self.expr(cursor, Line::Expr)?;
        end(cursor)?;
        Ok((value, levels))
    }

    /// What follows `return`.
    ///
    /// # Errors
    /// `NoTree` and `TooNested` as the definition says; `Memory`.
    #[tactic(auto, unfolding(actx_program::specs::StatementReader::return_after, actx_grammar::specs::Reader::and_then))]
    pub fn return_after(&self, cursor: &mut Cursor<'_>) -> Result<(Stmt, usize), Cause>
        requires nests { Holds self.now.room (F.pre self.now.stmt) (F.post self.now.stmt) (G.pre self.now.item) (G.post self.now.item) }
        requires small { self.now.room ≤ 200 }
        ensures reads { Reads (spec.return_after (spec.inside self.now.room) cursor.old) result cursor.new }
        ensures low { IfOk result (λ x. x.1 ≤ self.now.room + 1) }
    {
        if cursor.has_operand() {
            let (value, levels) = self.ended_value(cursor)?;
            return Ok((Stmt::Return(Some(value)), levels + 1));
        }
        end(cursor)?;
        Ok((Stmt::Return(None), 1))
    }

    /// `return` (ECMA-262 §14.10).
    ///
    /// # Errors
    /// `NoTree` and `TooNested` as the definition says; `Memory`.
    #[tactic(auto, unfolding(actx_program::specs::StatementReader::return_form, actx_grammar::specs::Reader::and_then))]
    pub fn return_form(&self, cursor: &mut Cursor<'_>) -> Result<(Stmt, usize), Cause>
        requires nests { Holds self.now.room (F.pre self.now.stmt) (F.post self.now.stmt) (G.pre self.now.item) (G.post self.now.item) }
        requires small { self.now.room ≤ 200 }
        ensures reads { Reads (spec.return_form (spec.inside self.now.room) cursor.old) result cursor.new }
        ensures low { IfOk result (λ x. x.1 ≤ self.now.room + 1) }
    {
        cursor.skip();
        self.return_after(cursor)
    }

    /// `throw` (ECMA-262 §14.14).
    ///
    /// # Errors
    /// `NoTree` and `TooNested` as the definition says; `Memory`.
    #[tactic(auto, unfolding(actx_program::specs::StatementReader::throw_form, actx_program::specs::StatementReader::throw_after, actx_grammar::specs::Reader::and_then))]
    pub fn throw_form(&self, cursor: &mut Cursor<'_>) -> Result<(Stmt, usize), Cause>
        requires nests { Holds self.now.room (F.pre self.now.stmt) (F.post self.now.stmt) (G.pre self.now.item) (G.post self.now.item) }
        requires small { self.now.room ≤ 200 }
        ensures reads { Reads (spec.throw_form (spec.inside self.now.room) cursor.old) result cursor.new }
        ensures low { IfOk result (λ x. x.1 ≤ self.now.room + 1) }
    {
        cursor.skip();
        if !cursor.is_on_line() {
            return Err(Cause::NoTree);
        }
        let (value, levels) = self.ended_value(cursor)?;
        Ok((Stmt::Throw(value), levels + 1))
    }

    /// `break` (ECMA-262 §14.9).
    ///
    /// # Errors
    /// `NoTree` and `TooNested` as the definition says; `Memory`.
    #[tactic(auto, unfolding(actx_program::specs::StatementReader::break_form, actx_grammar::specs::Reader::and_then))]
    pub fn break_form(&self, cursor: &mut Cursor<'_>) -> Result<(Stmt, usize), Cause>
        requires nests { Holds self.now.room (F.pre self.now.stmt) (F.post self.now.stmt) (G.pre self.now.item) (G.post self.now.item) }
        requires small { self.now.room ≤ 200 }
        ensures reads { Reads (spec.break_form (spec.inside self.now.room) cursor.old) result cursor.new }
        ensures low { IfOk result (λ x. x.1 ≤ self.now.room + 1) }
    {
        cursor.skip();
        end(cursor)?;
        Ok((Stmt::Break, 1))
    }

    /// `continue` (ECMA-262 §14.8).
    ///
    /// # Errors
    /// `NoTree` and `TooNested` as the definition says; `Memory`.
    #[tactic(auto, unfolding(actx_program::specs::StatementReader::continue_form, actx_grammar::specs::Reader::and_then))]
    pub fn continue_form(&self, cursor: &mut Cursor<'_>) -> Result<(Stmt, usize), Cause>
        requires nests { Holds self.now.room (F.pre self.now.stmt) (F.post self.now.stmt) (G.pre self.now.item) (G.post self.now.item) }
        requires small { self.now.room ≤ 200 }
        ensures reads { Reads (spec.continue_form (spec.inside self.now.room) cursor.old) result cursor.new }
        ensures low { IfOk result (λ x. x.1 ≤ self.now.room + 1) }
    {
        cursor.skip();
        end(cursor)?;
        Ok((Stmt::Continue, 1))
    }

    /// An expression as a statement (ECMA-262 §14.5).
    ///
    /// # Errors
    /// `NoTree` and `TooNested` as the definition says; `Memory`.
    #[tactic(auto, unfolding(actx_program::specs::StatementReader::expr_form, actx_grammar::specs::Reader::and_then))]
    pub fn expr_form(&self, cursor: &mut Cursor<'_>) -> Result<(Stmt, usize), Cause>
        requires nests { Holds self.now.room (F.pre self.now.stmt) (F.post self.now.stmt) (G.pre self.now.item) (G.post self.now.item) }
        requires small { self.now.room ≤ 200 }
        ensures reads { Reads (spec.expr_form (spec.inside self.now.room) cursor.old) result cursor.new }
        ensures low { IfOk result (λ x. x.1 ≤ self.now.room + 1) }
    {
        if begins_other(cursor) {
            return Err(Cause::NoTree);
        }
        let (value, levels) = self.ended_value(cursor)?;
        Ok((Stmt::Expr(value), levels + 1))
    }
}
