//! `for`.

ghost use Rattle.std.specs.Prelude.{◌≡◌, ◌+◌, ◌≤◌, IfOk};
ghost use Rattle.actx_grammar.specs.Reads.{Reads};
ghost use Rattle.actx_program.specs.StatementReader as spec;
ghost use Rattle.actx_statement.specs.Holds.{Holds};
ghost use Rattle.actx_statement.specs.More as more;
ghost use Rattle.actx_grammar.specs.Kinds.{closes, is_semicolon};
ghost use Rattle.actx_grammar.specs.declared.bracket.Bracket.TheVariants as a_bracket;

use crate::ends::is_of;
use crate::within::Within;
use actx_cursor::Cursor;
use actx_grammar::{Bracket, Cause, Kind, Line, Word};
use actx_lex::Punct;
use actx_tree::{Expr, ForInit, Stmt, Target};
use std::alloc::Global;

impl<
    F: Fn(Global, &mut Cursor<'_>, usize) -> Result<(Stmt, usize), Cause>,
    G: Fn(Global, &mut Cursor<'_>, usize) -> Result<(Stmt, usize), Cause>,
> Within<F, G> {
    /// The test of a `for`, if it is there, and the `;` behind it.
    ///
    /// # Errors
    /// `NoTree` and `TooNested` as the definition says; `Memory`.
    #[tactic(auto, unfolding(actx_program::specs::StatementReader::value_to, actx_grammar::specs::Reader::and_then))]
    pub fn value_to_semicolon(
        &self,
        cursor: &mut Cursor<'_>,
    ) -> Result<(Option<Expr>, usize), Cause>
        requires nests { Holds self.now.room (F.pre self.now.stmt) (F.post self.now.stmt) (G.pre self.now.item) (G.post self.now.item) }
        requires small { self.now.room ≤ 200 }
        ensures reads { Reads (spec.value_to (spec.inside self.now.room) is_semicolon cursor.old) result cursor.new }
        ensures low { IfOk result (λ x. x.1 ≤ self.now.room) }
    {
        if matches!(cursor.next(), Kind::Sign(Punct::Semicolon)) {
            cursor.skip();
            return Ok((None, 0));
        }
        let (value, levels) = self.expr(cursor, Line::Expr)?;
        cursor.semicolon()?;
        Ok((Some(value), levels))
    }

    /// The update of a `for`, if it is there, and the bracket behind it.
    ///
    /// # Errors
    /// `NoTree` and `TooNested` as the definition says; `Memory`.
    #[tactic(auto, unfolding(actx_program::specs::StatementReader::value_to, actx_grammar::specs::Reader::and_then))]
    pub fn value_to_bracket(&self, cursor: &mut Cursor<'_>) -> Result<(Option<Expr>, usize), Cause>
        requires nests { Holds self.now.room (F.pre self.now.stmt) (F.post self.now.stmt) (G.pre self.now.item) (G.post self.now.item) }
        requires small { self.now.room ≤ 200 }
        ensures reads { Reads (spec.value_to (spec.inside self.now.room) (closes a_bracket.Round) cursor.old) result cursor.new }
        ensures low { IfOk result (λ x. x.1 ≤ self.now.room) }
    {
        if cursor.closes(Bracket::Round) {
            cursor.skip();
            return Ok((None, 0));
        }
        let (value, levels) = self.expr(cursor, Line::Expr)?;
        cursor.close(Bracket::Round)?;
        Ok((Some(value), levels))
    }

    /// What follows the first part of a `for` up to the bracket: the test and the update, each with its
    /// levels.
    ///
    /// # Errors
    /// `NoTree` and `TooNested` as the definition says; `Memory`.
    #[tactic(auto, unfolding(crate::specs::More::for_tests, actx_grammar::specs::Reader::and_then))]
    fn for_tests(
        &self,
        cursor: &mut Cursor<'_>,
    ) -> Result<((Option<Expr>, usize), (Option<Expr>, usize)), Cause>
        requires nests { Holds self.now.room (F.pre self.now.stmt) (F.post self.now.stmt) (G.pre self.now.item) (G.post self.now.item) }
        requires small { self.now.room ≤ 200 }
        ensures reads { Reads (more.for_tests (spec.inside self.now.room) cursor.old) result cursor.new }
        ensures low { IfOk result (λ x. (x.0.1 ≤ self.now.room) × (x.1.1 ≤ self.now.room)) }
    {
        cursor.semicolon()?;
        let test = self.value_to_semicolon(cursor)?;
        let update = self.value_to_bracket(cursor)?;
        Ok((test, update))
    }

    /// What follows the first part of a `for` (ECMA-262 §14.7.4).
    ///
    /// # Errors
    /// `NoTree` and `TooNested` as the definition says; `Memory`.
    #[tactic(auto, using(crate::proofs::Heads::head_is), unfolding(actx_grammar::specs::Reader::and_then))]
    pub fn for_after(
        &self,
        cursor: &mut Cursor<'_>,
        first: ForInit,
        levels: usize,
    ) -> Result<(Stmt, usize), Cause>
        requires nests { Holds self.now.room (F.pre self.now.stmt) (F.post self.now.stmt) (G.pre self.now.item) (G.post self.now.item) }
        requires small { self.now.room ≤ 200 }
        requires fits { levels ≤ self.now.room }
        ensures reads { Reads (spec.for_after (spec.inside self.now.room) (first, levels) cursor.old) result cursor.new }
        ensures low { IfOk result (λ x. x.1 ≤ self.now.room + 1) }
    {
        let ((test, test_levels), (update, update_levels)) = self.for_tests(cursor)?;
        let (body, body_levels) = self.boxed_stmt(cursor)?;
        let highest = levels.max(test_levels.max(update_levels.max(body_levels)));
        Ok((Stmt::For(first, test, update, body), highest + 1))
    }

    /// A `for` from its `of` on (ECMA-262 §14.7.5).
    ///
    /// # Errors
    /// `NoTree` and `TooNested` as the definition says; `Memory`.
    #[tactic(auto, unfolding(actx_program::specs::StatementReader::for_of, actx_grammar::specs::Reader::and_then))]
    pub fn for_of(
        &self,
        cursor: &mut Cursor<'_>,
        is_const: bool,
        target: Target,
        levels: usize,
    ) -> Result<(Stmt, usize), Cause>
        requires nests { Holds self.now.room (F.pre self.now.stmt) (F.post self.now.stmt) (G.pre self.now.item) (G.post self.now.item) }
        requires small { self.now.room ≤ 200 }
        requires fits { levels ≤ self.now.room }
        ensures reads { Reads (spec.for_of (spec.inside self.now.room) is_const (target, levels) cursor.old) result cursor.new }
        ensures low { IfOk result (λ x. x.1 ≤ self.now.room + 1) }
    {
        cursor.skip();
        let (value, value_levels) = self.expr(cursor, Line::Assign)?;
        cursor.close(Bracket::Round)?;
        let (body, body_levels) = self.boxed_stmt(cursor)?;
        let highest = levels.max(value_levels.max(body_levels));
        Ok((Stmt::ForOf(is_const, target, value, body), highest + 1))
    }

    /// A `for` from the target of its first declaration on.
    ///
    /// # Errors
    /// `NoTree` and `TooNested` as the definition says; `Memory`.
    #[tactic(auto, unfolding(actx_program::specs::StatementReader::for_binds, actx_grammar::specs::Reader::and_then))]
    pub fn for_binds(
        &self,
        cursor: &mut Cursor<'_>,
        is_const: bool,
        target: Target,
        levels: usize,
    ) -> Result<(Stmt, usize), Cause>
        requires nests { Holds self.now.room (F.pre self.now.stmt) (F.post self.now.stmt) (G.pre self.now.item) (G.post self.now.item) }
        requires small { self.now.room ≤ 200 }
        requires fits { levels ≤ self.now.room }
        ensures reads { Reads (spec.for_binds (spec.inside self.now.room) is_const (target, levels) cursor.old) result cursor.new }
        ensures low { IfOk result (λ x. x.1 ≤ self.now.room + 1) }
    {
        let (binds, levels) = self.binds_after(cursor, is_const, target, levels)?;
        self.fits(levels + 1)?;
        self.for_after(cursor, ForInit::Let(is_const, binds), levels + 1)
    }

    /// A `for` from behind its first target on.
    ///
    /// # Errors
    /// `NoTree` and `TooNested` as the definition says; `Memory`.
    #[tactic(auto, unfolding(actx_program::specs::StatementReader::for_target, actx_grammar::specs::Reader::and_then))]
    pub fn for_target(
        &self,
        cursor: &mut Cursor<'_>,
        is_const: bool,
        target: Target,
        levels: usize,
    ) -> Result<(Stmt, usize), Cause>
        requires nests { Holds self.now.room (F.pre self.now.stmt) (F.post self.now.stmt) (G.pre self.now.item) (G.post self.now.item) }
        requires small { self.now.room ≤ 200 }
        requires fits { levels ≤ self.now.room }
        ensures reads { Reads (spec.for_target (spec.inside self.now.room) is_const (target, levels) cursor.old) result cursor.new }
        ensures low { IfOk result (λ x. x.1 ≤ self.now.room + 1) }
    {
        if is_of(cursor) {
            self.for_of(cursor, is_const, target, levels)
        } else {
            self.for_binds(cursor, is_const, target, levels)
        }
    }

    /// A `for` whose head begins with `let` or `const`, from that word on.
    ///
    /// # Errors
    /// `NoTree` and `TooNested` as the definition says; `Memory`.
    #[tactic(auto, unfolding(actx_program::specs::StatementReader::for_let, actx_grammar::specs::Reader::and_then))]
    pub fn for_let(&self, cursor: &mut Cursor<'_>, is_const: bool) -> Result<(Stmt, usize), Cause>
        requires nests { Holds self.now.room (F.pre self.now.stmt) (F.post self.now.stmt) (G.pre self.now.item) (G.post self.now.item) }
        requires small { self.now.room ≤ 200 }
        ensures reads { Reads (spec.for_let (spec.inside self.now.room) is_const cursor.old) result cursor.new }
        ensures low { IfOk result (λ x. x.1 ≤ self.now.room + 1) }
    {
        cursor.skip();
        let (target, levels) = self.target(cursor)?;
        self.for_target(cursor, is_const, target, levels)
    }

    /// A `for` whose head begins with an expression.
    ///
    /// # Errors
    /// `NoTree` and `TooNested` as the definition says; `Memory`.
    #[tactic(auto, unfolding(actx_program::specs::StatementReader::for_expr, actx_grammar::specs::Reader::and_then))]
    pub fn for_expr(&self, cursor: &mut Cursor<'_>) -> Result<(Stmt, usize), Cause>
        requires nests { Holds self.now.room (F.pre self.now.stmt) (F.post self.now.stmt) (G.pre self.now.item) (G.post self.now.item) }
        requires small { self.now.room ≤ 200 }
        ensures reads { Reads (spec.for_expr (spec.inside self.now.room) cursor.old) result cursor.new }
        ensures low { IfOk result (λ x. x.1 ≤ self.now.room + 1) }
    {
        let (value, levels) = self.expr(cursor, Line::Expr)?;
        self.for_after(cursor, ForInit::Expr(value), levels)
    }

    /// The head of a `for` and its statement.
    ///
    /// # Errors
    /// `NoTree` and `TooNested` as the definition says; `Memory`.
    #[tactic(auto, unfolding(actx_program::specs::StatementReader::for_head, actx_grammar::specs::Reader::and_then))]
    pub fn for_head(&self, cursor: &mut Cursor<'_>) -> Result<(Stmt, usize), Cause>
        requires nests { Holds self.now.room (F.pre self.now.stmt) (F.post self.now.stmt) (G.pre self.now.item) (G.post self.now.item) }
        requires small { self.now.room ≤ 200 }
        ensures reads { Reads (spec.for_head (spec.inside self.now.room) cursor.old) result cursor.new }
        ensures low { IfOk result (λ x. x.1 ≤ self.now.room + 1) }
    {
        match cursor.next() {
            Kind::Sign(Punct::Semicolon) => self.for_after(cursor, ForInit::Nothing, 0),
            Kind::Word(Word::Let) => self.for_let(cursor, false),
            Kind::Word(Word::Const) => self.for_let(cursor, true),
            _ => self.for_expr(cursor),
        }
    }

    /// `for` (ECMA-262 §14.7.4, §14.7.5).
    ///
    /// # Errors
    /// `NoTree` and `TooNested` as the definition says; `Memory`.
    #[tactic(auto, unfolding(actx_program::specs::StatementReader::for_form, actx_grammar::specs::Reader::and_then))]
    pub fn for_form(&self, cursor: &mut Cursor<'_>) -> Result<(Stmt, usize), Cause>
        requires nests { Holds self.now.room (F.pre self.now.stmt) (F.post self.now.stmt) (G.pre self.now.item) (G.post self.now.item) }
        requires small { self.now.room ≤ 200 }
        ensures reads { Reads (spec.for_form (spec.inside self.now.room) cursor.old) result cursor.new }
        ensures low { IfOk result (λ x. x.1 ≤ self.now.room + 1) }
    {
        cursor.skip();
        cursor.open_parenthesis()?;
        self.for_head(cursor)
    }
}
