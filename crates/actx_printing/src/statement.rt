//! Printing statements and files of them.

ghost use Rattle.std.specs.Prelude.{◌≡◌, ◌↔◌, List, IfOk, IsErrOf, IsTrue, map, MatchOption};
ghost use Rattle.actx_printing.specs.declared.lit.Lit.{Lit};
ghost use Rattle.actx_tree.specs.declared.expr.Argument.{Argument};
ghost use Rattle.actx_printing.specs.Printing.{console, literals, log_of, statement_of, GivesAll, Makes, Prints};

use crate::lit::{FirstError, Lit};
use crate::literal::arguments;
use actx_text::as_units;
use actx_tree::{Argument, Expr, Stmt, Suffix, Tree};
use std::alloc::Global;

/// The units of `console`.
const CONSOLE: [u16; 7] = [99, 111, 110, 115, 111, 108, 101];

/// The units of `log`.
const LOG: [u16; 3] = [108, 111, 103];

/// Whether an expression is the name `console`.
fn is_console(x: &Expr) -> bool
    ensures { IsTrue result ↔ (x.now ≡ console) }
{
    match x {
        Expr::Name(name) => as_units(name) == CONSOLE.as_slice(),
        _ => false,
    }
}

/// The arguments of a call of the member `log`, if these suffixes are one.
fn log_arguments(suffixes: &[Suffix]) -> Option<&[Argument]>
    ensures { MatchOption result ((xs : List Argument) → suffixes.now ≡ log_of xs → ⊥) (λ xs. suffixes.now ≡ log_of xs.now) }
{
    match suffixes {
        [Suffix::Member(false, name), Suffix::Call(false, xs)] => {
            if as_units(name) == LOG.as_slice() {
                Some(xs.as_slice())
            } else {
                None
            }
        }
        _ => None,
    }
}

/// The literals of a printing statement.
fn statement(alloc: Global, x: &Stmt) -> Result<Vec<Lit>, FirstError>
    ensures { Makes (λ ls. ls.items) statement_of x.now result }
{
    let Stmt::Expr(call) = x else {
        return Err(FirstError::NotBuilt);
    };
    let Expr::Left(first, suffixes) = call else {
        return Err(FirstError::NotBuilt);
    };
    if !is_console(first.get()) {
        return Err(FirstError::NotBuilt);
    }
    match log_arguments(suffixes.as_slice()) {
        Some(xs) => arguments(alloc, xs),
        None => Err(FirstError::NotBuilt),
    }
}

/// The literals of each statement.
fn statements(alloc: Global, xs: &[Stmt]) -> Result<Vec<Vec<Lit>>, FirstError>
    ensures { Makes literals (map statement_of) xs.now result }
{
    let mut all = Vec::new(alloc);
    for x in xs {
        match statement(alloc, x) {
            Ok(made) => all.push(made)?,
            Err(e) => return Err(e),
        }
    }
    Ok(all)
}

/// The literals of each statement of a file of printing statements: calls `console.log( .. )` without
/// `?.`, whose arguments are each a number, a text, `true`, `false` or `null`.
///
/// # Errors
/// `NotBuilt` exactly where a statement is no such call. `Memory` where there is no room for the
/// literals.
pub fn printing(alloc: Global, tree: &Tree) -> Result<Vec<Vec<Lit>>, FirstError>
    // The tree has the printing statements of what is found.
    ensures found { IfOk result (λ all. Prints tree.now (literals all)) }
    // Where it has those of these literals, they are found, unless memory runs out.
    ensures only { (all : List (List Lit)) → Prints tree.now all → GivesAll all result }
    // It is not built only where the tree has the printing statements of no literals.
    ensures not_built { IsErrOf result FirstError.NotBuilt → (all : List (List Lit)) → Prints tree.now all → ⊥ }
{
    statements(alloc, tree.items.as_slice())
}
