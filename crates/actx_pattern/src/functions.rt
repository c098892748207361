//! Functions (ECMA-262 §15.2, §15.5, §15.8).

ghost use Rattle.std.specs.Prelude.{◌≤◌, ◌+◌, IfOk};
ghost use Rattle.actx_cursor.specs.Nests.{Nests};
ghost use Rattle.actx_grammar.specs.Lines.{below};
ghost use Rattle.actx_grammar.specs.Patterns as spec;
ghost use Rattle.actx_grammar.specs.Reads.{Reads};

use crate::parameters::params;
use actx_cursor::{Cursor, Inner};
use actx_grammar::{Cause, Line};
use actx_tree::{Expr, Function, Target};
use std::alloc::Global;

/// A function, with its body passed over (ECMA-262 §15.2, §15.5, §15.8).
///
/// # Errors
/// `NoTree` and `TooNested` as the definition says; `Memory`.
#[tactic(auto, unfolding(actx_grammar::specs::Patterns::function, actx_grammar::specs::Reader::and_then))]
pub fn function<
    F: Fn(Global, &mut Cursor<'_>, usize, Line) -> Result<(Expr, usize), Cause>,
    G: Fn(Global, &mut Cursor<'_>, usize) -> Result<(Target, usize), Cause>,
>(inner: &Inner<F, G>, cursor: &mut Cursor<'_>) -> Result<(Function, usize), Cause>
    requires nests { Nests inner.now.room (F.pre inner.now.read) (F.post inner.now.read) (G.pre inner.now.target) (G.post inner.now.target) }
    ensures reads { Reads (spec.function (below inner.now.room) cursor.old) result cursor.new }
    ensures low { IfOk result (λ x. x.1 ≤ inner.now.room + 1) }
{
    let flow = cursor.function_head()?;
    let name = cursor.optional_name(inner.alloc)?;
    let (params, levels) = params(inner, cursor)?;
    let body = cursor.unread()?;
    let function = Function {
        flow,
        name,
        params,
        body,
    };
    Ok((function, levels + 1))
}
