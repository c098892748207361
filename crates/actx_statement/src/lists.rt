//! Lists of items, and blocks.

ghost use Rattle.std.specs.Prelude.{◌≡◌, ◌+◌, ◌≤◌, IfOk};
ghost use Rattle.actx_grammar.specs.Reads.{Reads};
ghost use Rattle.actx_program.specs.StatementReader as spec;
ghost use Rattle.actx_statement.specs.Holds.{Holds};

use crate::ends::ends_items;
use crate::within::Within;
use actx_cursor::Cursor;
use actx_grammar::{Bracket, Cause};
use actx_tree::Stmt;
use sqlite_items::Items;
use std::alloc::Global;

impl<
    F: Fn(Global, &mut Cursor<'_>, usize) -> Result<(Stmt, usize), Cause>,
    G: Fn(Global, &mut Cursor<'_>, usize) -> Result<(Stmt, usize), Cause>,
> Within<F, G> {
    /// Items, as many as there are (ECMA-262 §14.2, StatementList).
    ///
    /// # Errors
    /// `NoTree` and `TooNested` as the definition says; `Memory`.
    #[tactic(auto, unfolding(actx_program::specs::StatementReader::items, actx_grammar::specs::Reader::and_then))]
    pub fn items(&self, cursor: &mut Cursor<'_>) -> Result<(Items<Stmt>, usize), Cause>
        requires nests { Holds self.now.room (F.pre self.now.stmt) (F.post self.now.stmt) (G.pre self.now.item) (G.post self.now.item) }
        ensures reads { Reads (spec.items (spec.inside self.now.room) cursor.old) result cursor.new }
        ensures low { IfOk result (λ x. x.1 ≤ self.now.room) }
    {
        let mut found = Items::new(self.alloc);
        let mut highest = 0usize;
        for _turn in 0..cursor.len() {
            if ends_items(cursor.next()) {
                return Ok((found, highest));
            }
            let (item, levels) = self.inner_item(cursor)?;
            found.push(item)?;
            highest = highest.max(levels);
        }
        Ok((found, highest))
    }

    /// A block's items, with its brackets (ECMA-262 §14.2).
    ///
    /// # Errors
    /// `NoTree` and `TooNested` as the definition says; `Memory`.
    #[tactic(auto, unfolding(actx_program::specs::StatementReader::block, actx_grammar::specs::Reader::and_then))]
    pub fn block(&self, cursor: &mut Cursor<'_>) -> Result<(Items<Stmt>, usize), Cause>
        requires nests { Holds self.now.room (F.pre self.now.stmt) (F.post self.now.stmt) (G.pre self.now.item) (G.post self.now.item) }
        requires small { self.now.room ≤ 200 }
        ensures reads { Reads (spec.block (spec.inside self.now.room) cursor.old) result cursor.new }
        ensures low { IfOk result (λ x. x.1 ≤ self.now.room) }
    {
        cursor.open_brace()?;
        let (items, levels) = self.items(cursor)?;
        cursor.close(Bracket::Curly)?;
        Ok((items, levels))
    }

    /// A block as a statement (ECMA-262 §14.2).
    ///
    /// # Errors
    /// `NoTree` and `TooNested` as the definition says; `Memory`.
    #[tactic(auto, unfolding(actx_program::specs::StatementReader::block_form, actx_grammar::specs::Reader::and_then))]
    pub fn block_form(&self, cursor: &mut Cursor<'_>) -> Result<(Stmt, usize), Cause>
        requires nests { Holds self.now.room (F.pre self.now.stmt) (F.post self.now.stmt) (G.pre self.now.item) (G.post self.now.item) }
        requires small { self.now.room ≤ 200 }
        ensures reads { Reads (spec.block_form (spec.inside self.now.room) cursor.old) result cursor.new }
        ensures low { IfOk result (λ x. x.1 ≤ self.now.room + 1) }
    {
        let (items, levels) = self.block(cursor)?;
        Ok((Stmt::Block(items), levels + 1))
    }
}
