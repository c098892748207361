//! The open brackets at a place of a log, and who executes there.

ghost use Rattle.std.specs.Prelude.{◌≡◌, ◌<◌, ◌≤◌, Some, length, reverse, slice_get, IfOk};
ghost use Rattle.actx_event.specs.Front.{front};
ghost use Rattle.actx_event.specs.Brackets.{before_opener, brackets_after, has_opener, nests, same_bracket, with_closed};
ghost use Rattle.actx_event.specs.Execution.{exec, innermost};
ghost use Rattle.actx_event.specs.Numbers.{opened_at};

use crate::bracket::{Bracket, Open};
use crate::event::Event;
use std::alloc::{AllocError, Global};

/// The open brackets at a place, the one that was opened first at the head, each with the number of
/// its opener. It fails only where memory is refused.
pub fn opened(alloc: Global, log: &[Event], place: usize) -> Result<Vec<Open<usize>>, AllocError>
    requires { place ≤ length log.now }
    ensures { IfOk result (λ brackets. reverse brackets.items ≡ opened_at log.now place) }
{
    let mut brackets = Vec::new(alloc);
    for n in 0..place {
        follow(&mut brackets, event_at(log, n), n)?;
    }
    Ok(brackets)
}

/// Whether each closing event of the log has an opener. It fails only where memory is refused.
pub fn nests(alloc: Global, log: &[Event]) -> Result<bool, AllocError>
    ensures { IfOk result (λ nesting. nesting ≡ nests (reverse log.now)) }
{
    let mut brackets = Vec::new(alloc);
    for n in 0..log.len() {
        let event = event_at(log, n);
        if !has_opener(&brackets, event.closed_bracket()) {
            return Ok(false);
        }
        follow(&mut brackets, event, n)?;
    }
    Ok(true)
}

/// The execution identifier at a place: the innermost resource whose callback runs, or 0
/// (executionAsyncId of Node's async_hooks). It fails only where memory is refused.
pub fn exec(alloc: Global, log: &[Event], place: usize) -> Result<u64, AllocError>
    requires { place ≤ length log.now }
    ensures { IfOk result (λ id. id ≡ exec (front log.now place)) }
{
    let brackets = opened(alloc, log, place)?;
    Ok(innermost(&brackets))
}

/// The event of a number.
pub(crate) fn event_at(log: &[Event], n: usize) -> &Event
    requires { n < length log.now }
    ensures { slice_get log.now n ≡ Some result.now }
{
    &log[n]
}

/// Whether a closing event has an opener; the other events need none.
pub(crate) fn has_opener(brackets: &[Open<usize>], closed: Option<Bracket>) -> bool
    ensures { result ≡ has_opener closed (reverse brackets.now) }
{
    match closed {
        None => true,
        Some(bracket) => before_opener(brackets, bracket).is_some(),
    }
}

/// The number of the opener of an event that closes this bracket.
pub(crate) fn before_opener(brackets: &[Open<usize>], bracket: Bracket) -> Option<usize>
    ensures { result ≡ before_opener (Some bracket) (reverse brackets.now) }
{
    if brackets.is_empty() {
        return None;
    }
    let newest = brackets[brackets.len() - 1];
    if same_bracket(bracket, newest.bracket) {
        Some(newest.before)
    } else {
        None
    }
}

/// The innermost resource of the open brackets, or 0.
pub(crate) fn innermost(brackets: &[Open<usize>]) -> u64
    ensures { result ≡ innermost (reverse brackets.now) }
{
    let mut found = 0;
    for one in brackets {
        if let Bracket::Running(id) = one.bracket {
            found = id.0;
        }
    }
    found
}

/// The open brackets behind an event with number n.
pub(crate) fn follow(
    brackets: &mut Vec<Open<usize>>,
    event: &Event,
    n: usize,
) -> Result<(), AllocError>
    ensures { IfOk result (λ _. reverse brackets.new.items ≡ brackets_after event.now n (reverse brackets.old.items)) }
{
    if let Some(bracket) = event.closed_bracket() {
        close(brackets, bracket);
    }
    if let Some(bracket) = event.opened_bracket() {
        brackets.push(Open { bracket, before: n })?;
    }
    Ok(())
}

fn close(brackets: &mut Vec<Open<usize>>, bracket: Bracket)
    ensures { reverse brackets.new.items ≡ with_closed (Some bracket) (reverse brackets.old.items) }
{
    if before_opener(brackets, bracket).is_some() {
        brackets.pop();
    }
}

fn same_bracket(a: Bracket, b: Bracket) -> bool
    ensures { result ≡ same_bracket a b }
{
    match (a, b) {
        (Bracket::Running(i), Bracket::Running(j)) => i.0 == j.0,
        (Bracket::Entered(s), Bracket::Entered(t)) => s.0 == t.0,
        (Bracket::Bound(v), Bracket::Bound(w)) => v.0 == w.0,
        _ => false,
    }
}
