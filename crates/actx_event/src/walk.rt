//! The causal walk over a log, and the binding that a read finds on it.

ghost use Rattle.std.specs.Prelude.{◌≡◌, ◌<◌, ◌≤◌, length, IfOk};
ghost use Rattle.actx_event.specs.Front.{front};
ghost use Rattle.actx_event.specs.Walk.{nearest_binding};
ghost use Rattle.actx_event.specs.Numbers.{chain_at, met_number, step_number};

use crate::event::{Event, Numbered, VarId};
use crate::open_brackets::{before_opener, event_at, opened};
use crate::search::{bound_value, default_value, first_made, is_off_between};
use crate::value::Shown;
use std::alloc::{AllocError, Global};

/// The place that one causal step leads to: over a closing event the place before its opener, from
/// `before i` the place before `init i`, from `enter s` the place before `snap s` and from `enter 0`
/// the start; from any other event, and where the named one is missing, the place before it.
/// It fails only where memory is refused.
pub fn causal_step(alloc: Global, log: &[Event], place: usize) -> Result<usize, AllocError>
    requires { place ≤ length log.now }
    ensures { IfOk result (λ p. p ≡ step_number log.now place) }
{
    if place == 0 {
        return Ok(0);
    }
    let n = place - 1;
    let named = match event_at(log, n) {
        Event::Before { id } => first_made(log, n, Numbered::Resource, id.0),
        Event::Enter { snap } => {
            if snap.0 == 0 {
                Some(0)
            } else {
                first_made(log, n, Numbered::Capture, snap.0)
            }
        }
        event => match event.closed_bracket() {
            None => None,
            Some(bracket) => before_opener(&opened(alloc, log, n)?, bracket),
        },
    };
    Ok(named.unwrap_or(n))
}

/// The number of the first binding of the variable that the walk from a place looks at.
/// It fails only where memory is refused.
pub fn met_binding(
    alloc: Global,
    log: &[Event],
    place: usize,
    variable: VarId,
) -> Result<Option<usize>, AllocError>
    requires { place ≤ length log.now }
    ensures { IfOk result (λ met. met ≡ met_number log.now place variable.0) }
{
    let mut at = place;
    while at > 0 {
        if event_at(log, at - 1).value_bound(variable).is_some() {
            return Ok(Some(at - 1));
        }
        at = causal_step(alloc, log, at)?;
    }
    Ok(None)
}

/// The numbers of the events that the walk from a place looks at, down to the first binding of the
/// variable or the start. It fails only where memory is refused.
pub fn chain(
    alloc: Global,
    log: &[Event],
    place: usize,
    variable: VarId,
) -> Result<Vec<usize>, AllocError>
    requires { place ≤ length log.now }
    ensures { IfOk result (λ numbers. numbers.items ≡ chain_at log.now place variable.0) }
{
    let mut numbers = Vec::new(alloc);
    let mut at = place;
    while at > 0 {
        numbers.push(at - 1)?;
        if event_at(log, at - 1).value_bound(variable).is_some() {
            return Ok(numbers);
        }
        at = causal_step(alloc, log, at)?;
    }
    Ok(numbers)
}

/// The value that a read of the variable gives at a place: that of the first binding that the walk
/// meets, what switching off leaves where the variable was switched off since, and its default where
/// no binding is met. It fails only where memory is refused.
pub fn nearest_binding(
    alloc: Global,
    log: &[Event],
    place: usize,
    variable: VarId,
) -> Result<Shown, AllocError>
    requires { place ≤ length log.now }
    ensures { IfOk result (λ value. value ≡ nearest_binding (front log.now place) variable.0) }
{
    match met_binding(alloc, log, place, variable)? {
        None => default_value(alloc, log, place, variable),
        Some(met) => {
            if is_off_between(log, met, place, variable) {
                Ok(Shown::Undefined)
            } else {
                bound_value(alloc, log, met, variable)
            }
        }
    }
}
