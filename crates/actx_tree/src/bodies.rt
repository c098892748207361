//! The function bodies in a tree, in source order, each with the number of nodes around its
//! statements. A body in a body isn't there, since the tree has only the range of its tokens.
//!
//! No walk calls itself deeper than there are levels of nodes in the tree, times a small number of
//! calls for each level.

mod heads;
mod parts;

ghost use Rattle.actx_tree.specs.Bodies as bodies;
ghost use Rattle.actx_tree.specs.Levels as levels;
ghost use Rattle.std.specs.Prelude.{◌≡◌, ◌++◌, ◌+◌, ◌≤◌, OnOk};

use crate::function::Nested;
use crate::stmt::{Catch, Stmt};
use heads::{of_bound, of_first, of_value};
pub use parts::of_expr as bodies_of_expr;
use parts::{of_class, of_elems, of_expr, of_function, of_target};
use sqlite_items::{Boxed, Items};
use std::alloc::AllocError;

/// The greatest sum of the number of nodes around a part of a tree and the levels of nodes in it
/// where the bodies in it may be asked for. So the walk takes a bounded part of the stack.
pub const WALKED_LEVELS: usize = 1000;

/// Adds the function bodies in a list of statements, as the items of a file or of a body, to
/// `found`, in source order. `depth` is the number of nodes around the statements. If memory runs
/// out, some of them may be there.
#[cycle(statements)]
pub fn bodies_of_stmts(
    items: &[Stmt],
    depth: usize,
    found: &mut Items<Nested>,
) -> Result<(), AllocError>
    requires { depth + levels.stmts_levels items.now ≤ WALKED_LEVELS }
    ensures { OnOk result (found.new ≡ found.old ++ bodies.stmts_bodies items.now depth) }
{
    for item in items {
        bodies_of_stmt(item, depth, found)?;
    }
    Ok(())
}

/// Adds the function bodies in a statement to `found`, in source order. `depth` is the number of
/// nodes around the statement. If memory runs out, some of them may be there.
#[cycle(statements)]
pub fn bodies_of_stmt(
    item: &Stmt,
    depth: usize,
    found: &mut Items<Nested>,
) -> Result<(), AllocError>
    requires { depth + levels.stmt_levels item.now ≤ WALKED_LEVELS }
    ensures { OnOk result (found.new ≡ found.old ++ bodies.stmt_bodies item.now depth) }
{
    match item {
        Stmt::Let(_, elems) => of_elems(elems.as_slice(), depth + 1, found),
        Stmt::Function(function) => of_function(function, depth, found),
        Stmt::Class(class) => of_class(class, depth, found),
        Stmt::Block(block) => bodies_of_stmts(block.as_slice(), depth + 1, found),
        Stmt::Empty | Stmt::Break | Stmt::Continue => Ok(()),
        Stmt::If(test, then, other) => {
            of_expr(test, depth + 1, found)?;
            bodies_of_stmt(then.get(), depth + 1, found)?;
            of_other(other, depth + 1, found)
        }
        Stmt::While(test, body) => {
            of_expr(test, depth + 1, found)?;
            bodies_of_stmt(body.get(), depth + 1, found)
        }
        Stmt::Do(body, test) => {
            bodies_of_stmt(body.get(), depth + 1, found)?;
            of_expr(test, depth + 1, found)
        }
        Stmt::For(first, test, update, body) => {
            of_first(first, depth + 1, found)?;
            of_value(test, depth + 1, found)?;
            of_value(update, depth + 1, found)?;
            bodies_of_stmt(body.get(), depth + 1, found)
        }
        Stmt::ForOf(_, target, x, body) => {
            of_target(target, depth + 1, found)?;
            of_expr(x, depth + 1, found)?;
            bodies_of_stmt(body.get(), depth + 1, found)
        }
        Stmt::Return(x) => of_value(x, depth + 1, found),
        Stmt::Throw(x) | Stmt::Expr(x) => of_expr(x, depth + 1, found),
        Stmt::Try(block, handler, last) => {
            bodies_of_stmts(block.as_slice(), depth + 1, found)?;
            of_handler(handler, depth + 1, found)?;
            match last {
                Some(block) => bodies_of_stmts(block.as_slice(), depth + 1, found),
                None => Ok(()),
            }
        }
    }
}

/// Adds the bodies in the statement after `else`, if there is one.
#[cycle(statements)]
fn of_other(
    other: &Option<Boxed<Stmt>>,
    depth: usize,
    found: &mut Items<Nested>,
) -> Result<(), AllocError>
    requires { depth + levels.or_zero levels.stmt_levels other.now ≤ WALKED_LEVELS }
    ensures { OnOk result (found.new ≡ found.old ++ bodies.or_none bodies.stmt_bodies other.now depth) }
{
    match other {
        Some(item) => bodies_of_stmt(item.get(), depth, found),
        None => Ok(()),
    }
}

/// Adds the bodies in a `catch`, if there is one.
#[cycle(statements)]
fn of_handler(
    handler: &Option<Catch>,
    depth: usize,
    found: &mut Items<Nested>,
) -> Result<(), AllocError>
    requires { depth + levels.or_zero levels.catch_levels handler.now ≤ WALKED_LEVELS }
    ensures { OnOk result (found.new ≡ found.old ++ bodies.or_none bodies.catch_bodies handler.now depth) }
{
    match handler {
        Some(clause) => of_catch(clause, depth, found),
        None => Ok(()),
    }
}

#[cycle(statements)]
fn of_catch(clause: &Catch, depth: usize, found: &mut Items<Nested>) -> Result<(), AllocError>
    requires { depth + levels.catch_levels clause.now ≤ WALKED_LEVELS }
    ensures { OnOk result (found.new ≡ found.old ++ bodies.catch_bodies clause.now depth) }
{
    of_bound(&clause.target, depth, found)?;
    bodies_of_stmts(clause.block.as_slice(), depth, found)
}
