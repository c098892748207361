//! The lines of the grammar by the number of levels that there is room for: a node reads what lies
//! right in it with room for one level less.

ghost use Rattle.std.specs.Prelude.{◌≡◌, ◌≤◌, IfOk};
ghost use Rattle.actx_grammar.specs.Lines as spec;
ghost use Rattle.actx_grammar.specs.Reads.{Reads};

use crate::exprs::line_of;
use actx_cursor::{Cursor, Inner};
use actx_grammar::{Cause, Line};
use actx_pattern::{read_name_target, read_target};
use actx_tree::{Expr, Target};
use std::alloc::Global;

/// Reads a line of the grammar, of at most `limit` levels.
#[cycle(knot)]
#[tactic(auto, unfolding(actx_grammar::specs::Lines::below))]
pub fn below(
    alloc: Global,
    cursor: &mut Cursor<'_>,
    limit: usize,
    line: Line,
) -> Result<(Expr, usize), Cause>
    requires small { limit ≤ 201 }
    ensures reads { Reads ((spec.below limit).read line cursor.old) result cursor.new }
    ensures low { IfOk result (λ x. x.1 ≤ limit) }
{
    if limit == 0 {
        return Err(Cause::TooNested);
    }
    let inner = Inner {
        alloc,
        room: limit - 1,
        read: below,
        target: target_below,
    };
    line_of(&inner, cursor, line)
}

/// Reads a Target of at most `limit` levels.
#[cycle(knot)]
#[tactic(auto, unfolding(actx_grammar::specs::Lines::below))]
pub fn target_below(
    alloc: Global,
    cursor: &mut Cursor<'_>,
    limit: usize,
) -> Result<(Target, usize), Cause>
    requires small { limit ≤ 201 }
    ensures reads { Reads ((spec.below limit).target cursor.old) result cursor.new }
    ensures low { IfOk result (λ x. x.1 ≤ limit) }
{
    if limit == 0 {
        return read_name_target(alloc, cursor);
    }
    let inner = Inner {
        alloc,
        room: limit - 1,
        read: below,
        target: target_below,
    };
    read_target(&inner, cursor)
}
