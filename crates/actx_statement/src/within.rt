//! What lies right in a statement.

ghost use Rattle.std.specs.Prelude.{◌≡◌, ◌+◌, ◌≤◌, IfOk};
ghost use Rattle.actx_grammar.specs.Patterns as patterns;
ghost use Rattle.actx_grammar.specs.Reader as reader;
ghost use Rattle.actx_grammar.specs.Reads.{Reads};
ghost use Rattle.actx_grammar.specs.Tokens as tokens;
ghost use Rattle.actx_program.specs.StatementReader as spec;
ghost use Rattle.actx_statement.specs.Holds.{Holds};

use actx_cursor::Cursor;
use actx_expr::{read_class, read_function, read_line, read_target};
use actx_grammar::{Cause, Line};
use actx_tree::{Class, Expr, Function, Stmt, Target};
use sqlite_items::Boxed;
use std::alloc::Global;

/// The readers of what lies right in a statement. A number behind a tree is its levels of nodes.
#[derive(Clone, Copy)]
pub struct Within<F, G> {
    /// Where trees are made.
    pub alloc: Global,
    /// How many levels of nodes may lie in the statement.
    pub room: usize,
    /// Reads a statement with room for so many levels.
    pub stmt: F,
    /// Reads an item with room for so many levels.
    pub item: G,
}

impl<
    F: Fn(Global, &mut Cursor<'_>, usize) -> Result<(Stmt, usize), Cause>,
    G: Fn(Global, &mut Cursor<'_>, usize) -> Result<(Stmt, usize), Cause>,
> Within<F, G> {
    /// A statement.
    ///
    /// # Errors
    /// `NoTree` and `TooNested` as the definition says; `Memory`.
    fn inner_stmt(&self, cursor: &mut Cursor<'_>) -> Result<(Stmt, usize), Cause>
        requires nests { Holds self.now.room (F.pre self.now.stmt) (F.post self.now.stmt) (G.pre self.now.item) (G.post self.now.item) }
        ensures reads { Reads ((spec.inside self.now.room).stmt cursor.old) result cursor.new }
        ensures low { IfOk result (λ x. x.1 ≤ self.now.room) }
    {
        (self.stmt)(self.alloc, cursor, self.room)
    }

    /// A statement, as a part of another one.
    ///
    /// # Errors
    /// `NoTree` and `TooNested` as the definition says; `Memory`.
    pub fn boxed_stmt(&self, cursor: &mut Cursor<'_>) -> Result<(Boxed<Stmt>, usize), Cause>
        requires nests { Holds self.now.room (F.pre self.now.stmt) (F.post self.now.stmt) (G.pre self.now.item) (G.post self.now.item) }
        ensures reads { Reads ((spec.inside self.now.room).stmt cursor.old) result cursor.new }
        ensures low { IfOk result (λ x. x.1 ≤ self.now.room) }
    {
        let (stmt, levels) = self.inner_stmt(cursor)?;
        let stmt = Boxed::new(self.alloc, stmt)?;
        Ok((stmt, levels))
    }

    /// An item.
    ///
    /// # Errors
    /// `NoTree` and `TooNested` as the definition says; `Memory`.
    pub fn inner_item(&self, cursor: &mut Cursor<'_>) -> Result<(Stmt, usize), Cause>
        requires nests { Holds self.now.room (F.pre self.now.stmt) (F.post self.now.stmt) (G.pre self.now.item) (G.post self.now.item) }
        ensures reads { Reads ((spec.inside self.now.room).item cursor.old) result cursor.new }
        ensures low { IfOk result (λ x. x.1 ≤ self.now.room) }
    {
        (self.item)(self.alloc, cursor, self.room)
    }

    /// Whether so many levels fit into the statement.
    ///
    /// # Errors
    /// `TooNested` where they don't.
    pub fn fits(&self, levels: usize) -> Result<(), Cause>
        ensures reads { (i : tokens.Tokens) → Reads (reader.fits (spec.inside self.now.room).inner levels i) result i }
        ensures low { IfOk result (λ _. levels ≤ self.now.room) }
    {
        if levels <= self.room {
            Ok(())
        } else {
            Err(Cause::TooNested)
        }
    }

    /// A line of the grammar of expressions.
    ///
    /// # Errors
    /// `NoTree` and `TooNested` as the definition says; `Memory`.
    #[tactic(auto, using(crate::proofs::Insides::inner_is))]
    pub fn expr(&self, cursor: &mut Cursor<'_>, line: Line) -> Result<(Expr, usize), Cause>
        requires small { self.now.room ≤ 200 }
        ensures reads { Reads ((spec.inside self.now.room).inner.read line cursor.old) result cursor.new }
        ensures low { IfOk result (λ x. x.1 ≤ self.now.room) }
    {
        read_line(self.alloc, cursor, self.room, line)
    }

    /// A target.
    ///
    /// # Errors
    /// `NoTree` and `TooNested` as the definition says; `Memory`.
    #[tactic(auto, using(crate::proofs::Insides::inner_is))]
    pub fn target(&self, cursor: &mut Cursor<'_>) -> Result<(Target, usize), Cause>
        requires small { self.now.room ≤ 200 }
        ensures reads { Reads ((spec.inside self.now.room).inner.target cursor.old) result cursor.new }
        ensures low { IfOk result (λ x. x.1 ≤ self.now.room) }
    {
        read_target(self.alloc, cursor, self.room)
    }

    /// A function.
    ///
    /// # Errors
    /// `NoTree` and `TooNested` as the definition says; `Memory`.
    #[tactic(auto, using(crate::proofs::Insides::inner_is))]
    pub fn function(&self, cursor: &mut Cursor<'_>) -> Result<(Function, usize), Cause>
        requires small { self.now.room ≤ 200 }
        ensures reads { Reads (patterns.function (spec.inside self.now.room).inner cursor.old) result cursor.new }
        ensures low { IfOk result (λ x. x.1 ≤ self.now.room + 1) }
    {
        read_function(self.alloc, cursor, self.room)
    }

    /// A class.
    ///
    /// # Errors
    /// `NoTree` and `TooNested` as the definition says; `Memory`.
    #[tactic(auto, using(crate::proofs::Insides::inner_is))]
    pub fn class(&self, cursor: &mut Cursor<'_>) -> Result<(Class, usize), Cause>
        requires small { self.now.room ≤ 200 }
        ensures reads { Reads (patterns.class (spec.inside self.now.room).inner cursor.old) result cursor.new }
        ensures low { IfOk result (λ x. x.1 ≤ self.now.room + 1) }
    {
        read_class(self.alloc, cursor, self.room)
    }
}
