//! What comes next, among the operators.

ghost use Rattle.std.specs.Prelude.{◌≡◌};
ghost use Rattle.actx_grammar.specs.Lines as spec;

use crate::operators::{binary_op, is_comma, level_of, step_op};
use actx_cursor::Cursor;
use actx_tree::{BinaryOp, StepOp};

/// The operator that comes next, if it is one of the level.
#[tactic(auto, unfolding(actx_grammar::specs::Lines::operator_at))]
pub fn operator_at(own: usize, cursor: &Cursor<'_>) -> Option<BinaryOp>
    ensures { result ≡ spec.operator_at own cursor.now }
{
    match binary_op(cursor.next()) {
        Some(op) if level_of(op) == own => Some(op),
        _ => None,
    }
}

/// Whether an operator of the level comes next.
pub fn has_operator(own: usize, cursor: &Cursor<'_>) -> bool
    ensures { result ≡ spec.has_operator own cursor.now }
{
    operator_at(own, cursor).is_some()
}

/// The `++` or `--` that comes next on the line of what stands before it (§13.4).
#[tactic(auto, unfolding(actx_grammar::specs::Lines::step_at))]
pub fn step_at(cursor: &Cursor<'_>) -> Option<StepOp>
    ensures { result ≡ spec.step_at cursor.now }
{
    if cursor.is_on_line() {
        step_op(cursor.next())
    } else {
        None
    }
}

/// Whether a comma comes next.
#[tactic(auto, unfolding(actx_grammar::specs::Lines::goes_on_comma))]
pub fn goes_on_comma(cursor: &Cursor<'_>) -> bool
    ensures { result ≡ spec.goes_on_comma cursor.now }
{
    is_comma(cursor.next())
}
