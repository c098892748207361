//! What the lines of statements read of expressions, with room for so many levels.

ghost use Rattle.std.specs.Prelude.{◌≡◌, ◌+◌, ◌≤◌, IfOk};
ghost use Rattle.actx_grammar.specs.Lines as spec;
ghost use Rattle.actx_grammar.specs.Patterns as patterns;
ghost use Rattle.actx_grammar.specs.Reads.{Reads};

use crate::knot::{below, target_below};
use actx_cursor::{Cursor, Inner};
use actx_grammar::{Cause, Line};
use actx_pattern::{class, function, params};
use actx_tree::{Class, Expr, Function, Params, Target};
use std::alloc::Global;

/// Reads a line of the grammar of expressions.
pub fn read_line(
    alloc: Global,
    cursor: &mut Cursor<'_>,
    room: usize,
    line: Line,
) -> Result<(Expr, usize), Cause>
    requires small { room ≤ 200 }
    ensures reads { Reads ((spec.below room).read line cursor.old) result cursor.new }
    ensures low { IfOk result (λ x. x.1 ≤ room) }
{
    below(alloc, cursor, room, line)
}

/// Reads a Target (§14.3.3).
pub fn read_target(
    alloc: Global,
    cursor: &mut Cursor<'_>,
    room: usize,
) -> Result<(Target, usize), Cause>
    requires small { room ≤ 200 }
    ensures reads { Reads ((spec.below room).target cursor.old) result cursor.new }
    ensures low { IfOk result (λ x. x.1 ≤ room) }
{
    target_below(alloc, cursor, room)
}

/// Reads Params (§15.1), each of whose parts has room for so many levels.
pub fn read_params(
    alloc: Global,
    cursor: &mut Cursor<'_>,
    room: usize,
) -> Result<(Params, usize), Cause>
    requires small { room ≤ 201 }
    ensures reads { Reads (patterns.params (spec.below room) cursor.old) result cursor.new }
    ensures low { IfOk result (λ x. x.1 ≤ room) }
{
    let inner = Inner {
        alloc,
        room,
        read: below,
        target: target_below,
    };
    params(&inner, cursor)
}

/// Reads a Function (§15.2, §15.5, §15.8), in which there is room for so many levels.
pub fn read_function(
    alloc: Global,
    cursor: &mut Cursor<'_>,
    room: usize,
) -> Result<(Function, usize), Cause>
    requires small { room ≤ 200 }
    ensures reads { Reads (patterns.function (spec.below room) cursor.old) result cursor.new }
    ensures low { IfOk result (λ x. x.1 ≤ room + 1) }
{
    let inner = Inner {
        alloc,
        room,
        read: below,
        target: target_below,
    };
    function(&inner, cursor)
}

/// Reads a Class (§15.7), in which there is room for so many levels.
pub fn read_class(
    alloc: Global,
    cursor: &mut Cursor<'_>,
    room: usize,
) -> Result<(Class, usize), Cause>
    requires small { room ≤ 200 }
    ensures reads { Reads (patterns.class (spec.below room) cursor.old) result cursor.new }
    ensures low { IfOk result (λ x. x.1 ≤ room + 1) }
{
    let inner = Inner {
        alloc,
        room,
        read: below,
        target: target_below,
    };
    class(&inner, cursor)
}
