//! Declarations.

ghost use Rattle.std.specs.Prelude.{◌≡◌, ◌+◌, ◌≤◌, IfOk};
ghost use Rattle.actx_grammar.specs.Reads.{Reads};
ghost use Rattle.actx_program.specs.StatementReader as spec;
ghost use Rattle.actx_statement.specs.Holds.{Holds};

use crate::ends::{end, has_class_name, has_function_name, is_name_target};
use crate::within::Within;
use actx_cursor::Cursor;
use actx_grammar::{Cause, Kind, Line};
use actx_lex::Punct;
use actx_tree::{Elem, Stmt, Target};
use sqlite_items::{Boxed, Items};
use std::alloc::Global;

impl<
    F: Fn(Global, &mut Cursor<'_>, usize) -> Result<(Stmt, usize), Cause>,
    G: Fn(Global, &mut Cursor<'_>, usize) -> Result<(Stmt, usize), Cause>,
> Within<F, G> {
    /// What stands behind the target of a Bind: `=` and a value, or nothing (ECMA-262 §14.3.1).
    ///
    /// # Errors
    /// `NoTree` and `TooNested` as the definition says; `Memory`.
    #[tactic(auto, unfolding(actx_program::specs::StatementReader::bind_after, actx_grammar::specs::Reader::and_then))]
    pub fn bind_after(
        &self,
        cursor: &mut Cursor<'_>,
        is_const: bool,
        target: Target,
        levels: usize,
    ) -> Result<(Elem, usize), Cause>
        requires nests { Holds self.now.room (F.pre self.now.stmt) (F.post self.now.stmt) (G.pre self.now.item) (G.post self.now.item) }
        requires small { self.now.room ≤ 200 }
        requires fits { levels ≤ self.now.room }
        ensures reads { Reads (spec.bind_after (spec.inside self.now.room) is_const (target, levels) cursor.old) result cursor.new }
        ensures low { IfOk result (λ x. x.1 ≤ self.now.room) }
    {
        if matches!(cursor.next(), Kind::Sign(Punct::Assign)) {
            cursor.skip();
            let (value, highest) = self.expr(cursor, Line::Assign)?;
            let default = Some(Boxed::new(self.alloc, value)?);
            return Ok((Elem { target, default }, levels.max(highest)));
        }
        if is_const || !is_name_target(&target) {
            return Err(Cause::NoTree);
        }
        let default = None;
        Ok((Elem { target, default }, levels))
    }

    /// A comma and a Bind.
    ///
    /// # Errors
    /// `NoTree` and `TooNested` as the definition says; `Memory`.
    #[tactic(auto, unfolding(actx_program::specs::StatementReader::next_bind, actx_grammar::specs::Reader::and_then))]
    pub fn next_bind(&self, cursor: &mut Cursor<'_>, is_const: bool) -> Result<(Elem, usize), Cause>
        requires nests { Holds self.now.room (F.pre self.now.stmt) (F.post self.now.stmt) (G.pre self.now.item) (G.post self.now.item) }
        requires small { self.now.room ≤ 200 }
        ensures reads { Reads (spec.next_bind (spec.inside self.now.room) is_const cursor.old) result cursor.new }
        ensures low { IfOk result (λ x. x.1 ≤ self.now.room) }
    {
        cursor.skip();
        let (target, levels) = self.target(cursor)?;
        self.bind_after(cursor, is_const, target, levels)
    }

    /// The Binds behind the first.
    ///
    /// # Errors
    /// `NoTree` and `TooNested` as the definition says; `Memory`.
    #[tactic(auto, unfolding(actx_program::specs::StatementReader::more_binds, actx_grammar::specs::Reader::and_then))]
    pub fn more_binds(
        &self,
        cursor: &mut Cursor<'_>,
        is_const: bool,
        first: Elem,
        levels: usize,
    ) -> Result<(Items<Elem>, usize), Cause>
        requires nests { Holds self.now.room (F.pre self.now.stmt) (F.post self.now.stmt) (G.pre self.now.item) (G.post self.now.item) }
        requires small { self.now.room ≤ 200 }
        requires fits { levels ≤ self.now.room }
        ensures reads { Reads (spec.more_binds (spec.inside self.now.room) is_const (first, levels) cursor.old) result cursor.new }
        ensures low { IfOk result (λ x. x.1 ≤ self.now.room) }
    {
        let mut found = Items::new(self.alloc);
        found.push(first)?;
        let mut highest = levels;
        for _turn in 0..cursor.len() {
            if !matches!(cursor.next(), Kind::Sign(Punct::Comma)) {
                return Ok((found, highest));
            }
            let (bind, levels) = self.next_bind(cursor, is_const)?;
            found.push(bind)?;
            highest = highest.max(levels);
        }
        Ok((found, highest))
    }

    /// What stands behind the target of the first Bind.
    ///
    /// # Errors
    /// `NoTree` and `TooNested` as the definition says; `Memory`.
    #[tactic(auto, unfolding(actx_program::specs::StatementReader::binds_after, actx_grammar::specs::Reader::and_then))]
    pub fn binds_after(
        &self,
        cursor: &mut Cursor<'_>,
        is_const: bool,
        target: Target,
        levels: usize,
    ) -> Result<(Items<Elem>, usize), Cause>
        requires nests { Holds self.now.room (F.pre self.now.stmt) (F.post self.now.stmt) (G.pre self.now.item) (G.post self.now.item) }
        requires small { self.now.room ≤ 200 }
        requires fits { levels ≤ self.now.room }
        ensures reads { Reads (spec.binds_after (spec.inside self.now.room) is_const (target, levels) cursor.old) result cursor.new }
        ensures low { IfOk result (λ x. x.1 ≤ self.now.room) }
    {
        let (first, levels) = self.bind_after(cursor, is_const, target, levels)?;
        self.more_binds(cursor, is_const, first, levels)
    }

    /// What `let` or `const` declares (ECMA-262 §14.3.1).
    ///
    /// # Errors
    /// `NoTree` and `TooNested` as the definition says; `Memory`.
    #[tactic(auto, unfolding(actx_program::specs::StatementReader::binds, actx_grammar::specs::Reader::and_then))]
    pub fn binds(
        &self,
        cursor: &mut Cursor<'_>,
        is_const: bool,
    ) -> Result<(Items<Elem>, usize), Cause>
        requires nests { Holds self.now.room (F.pre self.now.stmt) (F.post self.now.stmt) (G.pre self.now.item) (G.post self.now.item) }
        requires small { self.now.room ≤ 200 }
        ensures reads { Reads (spec.binds (spec.inside self.now.room) is_const cursor.old) result cursor.new }
        ensures low { IfOk result (λ x. x.1 ≤ self.now.room) }
    {
        let (target, levels) = self.target(cursor)?;
        self.binds_after(cursor, is_const, target, levels)
    }

    /// A declaration, from `let` or `const` on (ECMA-262 §14.3.1).
    ///
    /// # Errors
    /// `NoTree` and `TooNested` as the definition says; `Memory`.
    #[tactic(auto, unfolding(actx_program::specs::StatementReader::let_item, actx_grammar::specs::Reader::and_then))]
    pub fn let_item(&self, cursor: &mut Cursor<'_>, is_const: bool) -> Result<(Stmt, usize), Cause>
        requires nests { Holds self.now.room (F.pre self.now.stmt) (F.post self.now.stmt) (G.pre self.now.item) (G.post self.now.item) }
        requires small { self.now.room ≤ 200 }
        ensures reads { Reads (spec.let_item (spec.inside self.now.room) is_const cursor.old) result cursor.new }
        ensures low { IfOk result (λ x. x.1 ≤ self.now.room + 1) }
    {
        cursor.skip();
        let (binds, levels) = self.binds(cursor, is_const)?;
        end(cursor)?;
        Ok((Stmt::Let(is_const, binds), levels + 1))
    }

    /// A function declaration (ECMA-262 §15.2).
    ///
    /// # Errors
    /// `NoTree` and `TooNested` as the definition says; `Memory`.
    #[tactic(auto, unfolding(actx_program::specs::StatementReader::function_item, actx_grammar::specs::Reader::and_then))]
    pub fn function_item(&self, cursor: &mut Cursor<'_>) -> Result<(Stmt, usize), Cause>
        requires nests { Holds self.now.room (F.pre self.now.stmt) (F.post self.now.stmt) (G.pre self.now.item) (G.post self.now.item) }
        requires small { self.now.room ≤ 200 }
        ensures reads { Reads (spec.function_item (spec.inside self.now.room) cursor.old) result cursor.new }
        ensures low { IfOk result (λ x. x.1 ≤ self.now.room + 1) }
    {
        let (function, levels) = self.function(cursor)?;
        if has_function_name(&function) {
            Ok((Stmt::Function(function), levels))
        } else {
            Err(Cause::NoTree)
        }
    }

    /// A class declaration (ECMA-262 §15.7).
    ///
    /// # Errors
    /// `NoTree` and `TooNested` as the definition says; `Memory`.
    #[tactic(auto, unfolding(actx_program::specs::StatementReader::class_item, actx_grammar::specs::Reader::and_then))]
    pub fn class_item(&self, cursor: &mut Cursor<'_>) -> Result<(Stmt, usize), Cause>
        requires nests { Holds self.now.room (F.pre self.now.stmt) (F.post self.now.stmt) (G.pre self.now.item) (G.post self.now.item) }
        requires small { self.now.room ≤ 200 }
        ensures reads { Reads (spec.class_item (spec.inside self.now.room) cursor.old) result cursor.new }
        ensures low { IfOk result (λ x. x.1 ≤ self.now.room + 1) }
    {
        let (class, levels) = self.class(cursor)?;
        if has_class_name(&class) {
            Ok((Stmt::Class(class), levels))
        } else {
            Err(Cause::NoTree)
        }
    }
}
