//! Searches for an event of a log.

ghost use Rattle.std.specs.Prelude.{◌≡◌, ◌<◌, ◌≤◌, length, IfOk, option_and_then, slice_get, unwrap_or};
ghost use Rattle.actx_event.specs.declared.value.Shown.TheVariants.{Undefined};
ghost use Rattle.actx_event.specs.Event.{number_made, value_bound};
ghost use Rattle.actx_event.specs.Walk.{default_of};
ghost use Rattle.actx_event.specs.Numbers.{declaration_at, first_made, is_off_between};

use crate::event::{Event, Numbered, VarId};
use crate::open_brackets::event_at;
use crate::value::Shown;
use std::alloc::{AllocError, Global};

/// The number of the first event below a place that makes this number.
pub(crate) fn first_made(log: &[Event], place: usize, what: Numbered, number: u64) -> Option<usize>
    requires { place ≤ length log.now }
    ensures { result ≡ first_made (number_made what) number log.now place }
{
    for n in 0..place {
        if let Some(made) = event_at(log, n).number_made(what) {
            if made == number {
                return Some(n);
            }
        }
    }
    None
}

/// Whether the variable is switched off from an event on, before a place.
pub(crate) fn is_off_between(log: &[Event], from: usize, place: usize, variable: VarId) -> bool
    requires { place ≤ length log.now }
    ensures { result ≡ is_off_between variable.0 log.now from place }
{
    for n in 0..place {
        if from <= n && event_at(log, n).switches_off(variable) {
            return true;
        }
    }
    false
}

/// The default of the variable: what its first `var` below a place says.
pub(crate) fn default_value(
    alloc: Global,
    log: &[Event],
    place: usize,
    variable: VarId,
) -> Result<Shown, AllocError>
    requires { place ≤ length log.now }
    ensures { IfOk result (λ value. value ≡ default_of (declaration_at variable.0 log.now place)) }
{
    for n in 0..place {
        if let Some(default) = event_at(log, n).default_declared(variable) {
            return default.copy(alloc);
        }
    }
    Ok(Shown::Undefined)
}

/// The value that an event binds the variable to.
pub(crate) fn bound_value(
    alloc: Global,
    log: &[Event],
    n: usize,
    variable: VarId,
) -> Result<Shown, AllocError>
    requires { n < length log.now }
    ensures { IfOk result (λ value. value ≡ unwrap_or (option_and_then (value_bound variable.0) (slice_get log.now n)) Undefined) }
{
    match event_at(log, n).value_bound(variable) {
        None => Ok(Shown::Undefined),
        Some(value) => value.copy(alloc),
    }
}
