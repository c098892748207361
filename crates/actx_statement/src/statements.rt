//! Statements and items.

ghost use Rattle.std.specs.Prelude.{◌≡◌, ◌+◌, ◌≤◌, IfOk};
ghost use Rattle.actx_grammar.specs.Reads.{Reads};
ghost use Rattle.actx_program.specs.StatementReader as spec;
ghost use Rattle.actx_statement.specs.Holds.{Holds};
ghost use Rattle.actx_grammar.specs.declared.kind.Kind.TheVariants as a_kind;
ghost use Rattle.actx_statement.specs.More as more;

use crate::ends::begins_function;
use crate::within::Within;
use actx_cursor::Cursor;
use actx_grammar::{Cause, Kind, Word};
use actx_lex::Punct;
use actx_tree::Stmt;
use std::alloc::Global;

impl<
    F: Fn(Global, &mut Cursor<'_>, usize) -> Result<(Stmt, usize), Cause>,
    G: Fn(Global, &mut Cursor<'_>, usize) -> Result<(Stmt, usize), Cause>,
> Within<F, G> {
    /// A statement (ECMA-262 §14).
    ///
    /// # Errors
    /// `NoTree` and `TooNested` as the definition says; `Memory`.
    #[tactic(auto, unfolding(actx_program::specs::StatementReader::stmt, actx_grammar::specs::Reader::and_then))]
    pub fn statement(&self, cursor: &mut Cursor<'_>) -> Result<(Stmt, usize), Cause>
        requires nests { Holds self.now.room (F.pre self.now.stmt) (F.post self.now.stmt) (G.pre self.now.item) (G.post self.now.item) }
        requires small { self.now.room ≤ 200 }
        ensures reads { Reads (spec.stmt (spec.inside self.now.room) cursor.old) result cursor.new }
        ensures low { IfOk result (λ x. x.1 ≤ self.now.room + 1) }
    {
        match cursor.next() {
            Kind::Sign(Punct::OpenBrace) => self.block_form(cursor),
            Kind::Sign(Punct::Semicolon) => {
                cursor.skip();
                Ok((Stmt::Empty, 1))
            }
            Kind::Word(word) => self.statement_by(cursor, word),
            _ => self.expr_form(cursor),
        }
    }

    /// A statement that begins with a reserved word.
    ///
    /// # Errors
    /// `NoTree` and `TooNested` as the definition says; `Memory`.
    #[tactic(auto, unfolding(actx_program::specs::StatementReader::stmt, actx_grammar::specs::Reader::and_then))]
    fn statement_by(&self, cursor: &mut Cursor<'_>, word: Word) -> Result<(Stmt, usize), Cause>
        requires nests { Holds self.now.room (F.pre self.now.stmt) (F.post self.now.stmt) (G.pre self.now.item) (G.post self.now.item) }
        requires small { self.now.room ≤ 200 }
        ensures reads { Reads (spec.stmt_from (spec.inside self.now.room) (a_kind.Word word) cursor.old) result cursor.new }
        ensures low { IfOk result (λ x. x.1 ≤ self.now.room + 1) }
    {
        match word {
            Word::If => self.if_form(cursor),
            Word::While => self.while_form(cursor),
            Word::Do => self.do_form(cursor),
            Word::For => self.for_form(cursor),
            Word::Return => self.return_form(cursor),
            Word::Throw => self.throw_form(cursor),
            Word::Break => self.break_form(cursor),
            Word::Continue => self.continue_form(cursor),
            Word::Try => self.try_form(cursor),
            _ => self.expr_form(cursor),
        }
    }

    /// A declaration or a statement (ECMA-262 §14.2, StatementListItem).
    ///
    /// # Errors
    /// `NoTree` and `TooNested` as the definition says; `Memory`.
    #[tactic(auto, unfolding(actx_program::specs::StatementReader::item, actx_grammar::specs::Reader::and_then))]
    pub fn an_item(&self, cursor: &mut Cursor<'_>) -> Result<(Stmt, usize), Cause>
        requires nests { Holds self.now.room (F.pre self.now.stmt) (F.post self.now.stmt) (G.pre self.now.item) (G.post self.now.item) }
        requires small { self.now.room ≤ 200 }
        ensures reads { Reads (spec.item (spec.inside self.now.room) cursor.old) result cursor.new }
        ensures low { IfOk result (λ x. x.1 ≤ self.now.room + 1) }
    {
        match cursor.next() {
            Kind::Word(Word::Let) => self.let_item(cursor, false),
            Kind::Word(Word::Const) => self.let_item(cursor, true),
            Kind::Word(Word::Class) => self.class_item(cursor),
            _ => self.other_item(cursor),
        }
    }

    /// A function declaration or a statement.
    ///
    /// # Errors
    /// `NoTree` and `TooNested` as the definition says; `Memory`.
    #[tactic(auto, unfolding(actx_grammar::specs::Reader::and_then))]
    fn other_item(&self, cursor: &mut Cursor<'_>) -> Result<(Stmt, usize), Cause>
        requires nests { Holds self.now.room (F.pre self.now.stmt) (F.post self.now.stmt) (G.pre self.now.item) (G.post self.now.item) }
        requires small { self.now.room ≤ 200 }
        ensures reads { Reads (more.other_item (spec.inside self.now.room) cursor.old) result cursor.new }
        ensures low { IfOk result (λ x. x.1 ≤ self.now.room + 1) }
    {
        if begins_function(cursor) {
            self.function_item(cursor)
        } else {
            self.statement(cursor)
        }
    }
}
