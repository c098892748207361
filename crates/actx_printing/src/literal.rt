//! Literals among the arguments of a call.

ghost use Rattle.std.specs.Prelude.{map};
ghost use Rattle.actx_printing.specs.Printing.{argument_of, expr_of, Makes};

use crate::lit::{FirstError, Lit};
use actx_text::copy;
use actx_tree::{Argument, Expr};
use std::alloc::Global;

/// The literal that an expression is (ECMA-262 §13.2.3).
fn literal(alloc: Global, x: &Expr) -> Result<Lit, FirstError>
    ensures { Makes (λ l. l) expr_of x.now result }
{
    match x {
        Expr::Number(n) => Ok(Lit::Num(*n)),
        Expr::Text(text) => Ok(Lit::Text(copy(alloc, text)?)),
        Expr::Bool(b) => Ok(Lit::Bool(*b)),
        Expr::Null => Ok(Lit::Null),
        _ => Err(FirstError::NotBuilt),
    }
}

/// The literal that an argument is.
fn argument(alloc: Global, x: &Argument) -> Result<Lit, FirstError>
    ensures { Makes (λ l. l) argument_of x.now result }
{
    match x {
        Argument::One(x) => literal(alloc, x),
        Argument::Spread(_) => Err(FirstError::NotBuilt),
    }
}

/// The literals that the arguments of a call are.
pub fn arguments(alloc: Global, xs: &[Argument]) -> Result<Vec<Lit>, FirstError>
    ensures { Makes (λ ls. ls.items) (map argument_of) xs.now result }
{
    let mut found = Vec::new(alloc);
    for x in xs {
        match argument(alloc, x) {
            Ok(made) => found.push(made)?,
            Err(e) => return Err(e),
        }
    }
    Ok(found)
}
