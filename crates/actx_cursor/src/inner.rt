//! What a line of the grammar gets for the nodes that lie right in a node.

ghost use Rattle.std.specs.Prelude.{◌≡◌, ◌≤◌, IfOk};
ghost use Rattle.actx_grammar.specs.Lines.{below};
ghost use Rattle.actx_grammar.specs.Reader as spec;
ghost use Rattle.actx_grammar.specs.Reads.{Reads};
ghost use Rattle.actx_grammar.specs.Tokens as tokens;
ghost use Rattle.actx_cursor.specs.Nests.{Nests};

use crate::cursor::Cursor;
use actx_grammar::{Cause, Line};
use actx_tree::{Expr, Target};
use std::alloc::Global;

/// The readers of what lies right in a node. A number behind a tree is its levels of nodes.
#[derive(Clone, Copy)]
pub struct Inner<F, G> {
    /// Where trees are made.
    pub alloc: Global,
    /// How many levels of nodes may lie in the node.
    pub room: usize,
    /// Reads a line of the grammar with room for so many levels.
    pub read: F,
    /// Reads a target with room for so many levels.
    pub target: G,
}

impl<
    F: Fn(Global, &mut Cursor<'_>, usize, Line) -> Result<(Expr, usize), Cause>,
    G: Fn(Global, &mut Cursor<'_>, usize) -> Result<(Target, usize), Cause>,
> Inner<F, G> {
    /// A line of the grammar.
    ///
    /// # Errors
    /// `NoTree` and `TooNested` as the definition says; `Memory`.
    pub fn read(&self, cursor: &mut Cursor<'_>, line: Line) -> Result<(Expr, usize), Cause>
        requires nests { Nests self.now.room (F.pre self.now.read) (F.post self.now.read) (G.pre self.now.target) (G.post self.now.target) }
        ensures reads { Reads ((below self.now.room).read line cursor.old) result cursor.new }
        ensures low { IfOk result (λ x. x.1 ≤ self.now.room) }
    {
        (self.read)(self.alloc, cursor, self.room, line)
    }

    /// A target.
    ///
    /// # Errors
    /// `NoTree` and `TooNested` as the definition says; `Memory`.
    pub fn target(&self, cursor: &mut Cursor<'_>) -> Result<(Target, usize), Cause>
        requires nests { Nests self.now.room (F.pre self.now.read) (F.post self.now.read) (G.pre self.now.target) (G.post self.now.target) }
        ensures reads { Reads ((below self.now.room).target cursor.old) result cursor.new }
        ensures low { IfOk result (λ x. x.1 ≤ self.now.room) }
    {
        (self.target)(self.alloc, cursor, self.room)
    }

    /// Whether so many levels fit into the node.
    ///
    /// # Errors
    /// `TooNested` where they don't.
    #[tactic(auto, unfolding(actx_grammar::specs::Reader::fits))]
    pub fn fits(&self, levels: usize) -> Result<(), Cause>
        ensures reads { (i : tokens.Tokens) → Reads (spec.fits (below self.now.room) levels i) result i }
        ensures low { IfOk result (λ _. levels ≤ self.now.room) }
    {
        if levels <= self.room {
            Ok(())
        } else {
            Err(Cause::TooNested)
        }
    }
}
