//! The function bodies in the expressions and targets that statements may leave out.

ghost use Rattle.actx_tree.specs.Bodies as bodies;
ghost use Rattle.actx_tree.specs.Levels as levels;
ghost use Rattle.std.specs.Prelude.{◌≡◌, ◌++◌, ◌+◌, ◌≤◌, OnOk};

use crate::bodies::WALKED_LEVELS;
use crate::bodies::parts::{of_elems, of_expr, of_target};
use crate::expr::Expr;
use crate::function::Nested;
use crate::pattern::Target;
use crate::stmt::ForInit;
use sqlite_items::Items;
use std::alloc::AllocError;

/// Adds the bodies in what comes first in the head of a `for`.
pub fn of_first(first: &ForInit, depth: usize, found: &mut Items<Nested>) -> Result<(), AllocError>
    requires { depth + levels.for_init_levels first.now ≤ WALKED_LEVELS }
    ensures { OnOk result (found.new ≡ found.old ++ bodies.for_init_bodies first.now depth) }
{
    match first {
        ForInit::Nothing => Ok(()),
        ForInit::Let(_, elems) => of_elems(elems.as_slice(), depth + 1, found),
        ForInit::Expr(x) => of_expr(x, depth, found),
    }
}

/// Adds the bodies in an expression, if there is one.
pub fn of_value(
    value: &Option<Expr>,
    depth: usize,
    found: &mut Items<Nested>,
) -> Result<(), AllocError>
    requires { depth + levels.or_zero levels.expr_levels value.now ≤ WALKED_LEVELS }
    ensures { OnOk result (found.new ≡ found.old ++ bodies.or_none bodies.expr_bodies value.now depth) }
{
    match value {
        Some(x) => of_expr(x, depth, found),
        None => Ok(()),
    }
}

/// Adds the bodies in what a `catch` binds, if it binds something.
pub fn of_bound(
    bound: &Option<Target>,
    depth: usize,
    found: &mut Items<Nested>,
) -> Result<(), AllocError>
    requires { depth + levels.or_zero levels.target_levels bound.now ≤ WALKED_LEVELS }
    ensures { OnOk result (found.new ≡ found.old ++ bodies.or_none bodies.target_bodies bound.now depth) }
{
    match bound {
        Some(target) => of_target(target, depth, found),
        None => Ok(()),
    }
}
