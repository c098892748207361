//! The first failure of a log, computed as it is defined: event by event, rule by rule.

ghost use Rattle.std.specs.Prelude.{◌≡◌, ◌<◌, ◌≤◌, length, reverse, IfOk};
ghost use Rattle.actx_event.specs.Event.{number_made, number_named};
ghost use Rattle.actx_event.specs.Front.{front};
ghost use Rattle.actx_event.specs.Numbers.{opened_at};
ghost use Rattle.actx_event.specs.Valid.{broken_rule, first_failure, is_executed, is_introduced, is_next, is_numbered, is_read, left_open, made_count, was_made};

use crate::bracket::Open;
use crate::event::{Event, Numbered};
use crate::open_brackets::{event_at, follow, has_opener, innermost};
use crate::search::first_made;
use crate::valid::{Failure, Rule};
use crate::walk::nearest_binding;
use std::alloc::{AllocError, Global};

/// The first failure of a log, that of the least place and there of the first rule, or none where the
/// log is valid. The log may come from anywhere. It fails only where memory is refused.
pub fn first_failure(alloc: Global, log: &[Event]) -> Result<Option<Failure>, AllocError>
    ensures { IfOk result (λ failure. failure ≡ first_failure log.now) }
{
    let mut brackets = Vec::new(alloc);
    for n in 0..log.len() {
        let event = event_at(log, n);
        if let Some(rule) = broken_rule(alloc, log, n, event, &brackets)? {
            return Ok(Some(Failure { place: n, rule }));
        }
        follow(&mut brackets, event, n)?;
    }
    Ok(left_open(&brackets, log.len()))
}

/// The failure of brackets that are open at the end.
fn left_open(brackets: &[Open<usize>], place: usize) -> Option<Failure>
    ensures { result ≡ left_open (reverse brackets.now) place }
{
    if brackets.is_empty() {
        None
    } else {
        Some(Failure {
            place,
            rule: Rule::Closing,
        })
    }
}

/// The first rule that an event with number n breaks, where these brackets are open.
fn broken_rule(
    alloc: Global,
    log: &[Event],
    n: usize,
    event: &Event,
    brackets: &[Open<usize>],
) -> Result<Option<Rule>, AllocError>
    requires within { n < length log.now }
    requires standing { reverse brackets.now ≡ opened_at log.now n }
    ensures { IfOk result (λ rule. rule ≡ broken_rule event.now (front log.now n)) }
{
    if !is_numbered(log, n, event) {
        return Ok(Some(Rule::Numbering));
    }
    if !is_introduced(log, n, event) {
        return Ok(Some(Rule::Introduction));
    }
    if !has_opener(brackets, event.closed_bracket()) {
        return Ok(Some(Rule::Nesting));
    }
    if !is_executed(log, n, event, brackets) {
        return Ok(Some(Rule::Execution));
    }
    if !is_read(alloc, log, n, event)? {
        return Ok(Some(Rule::Reading));
    }
    Ok(None)
}

/// Whether the resource, the capture and the variable that an event makes have the next number.
fn is_numbered(log: &[Event], n: usize, event: &Event) -> bool
    requires { n < length log.now }
    ensures { result ≡ is_numbered event.now (front log.now n) }
{
    is_next(log, n, event, Numbered::Resource)
        && is_next(log, n, event, Numbered::Capture)
        && is_next(log, n, event, Numbered::Variable)
}

fn is_next(log: &[Event], n: usize, event: &Event, what: Numbered) -> bool
    requires { n < length log.now }
    ensures { result ≡ is_next (number_made what event.now) (made_count (number_made what) (front log.now n)) }
{
    match event.number_made(what) {
        None => true,
        Some(number) => number == made_count(log, n, what) as u64 + 1,
    }
}

/// How many numbers are made below a place.
fn made_count(log: &[Event], place: usize, what: Numbered) -> usize
    requires { place ≤ length log.now }
    ensures count { result ≡ made_count (number_made what) (front log.now place) }
    ensures bound { result ≤ place }
{
    let mut count = 0;
    for n in 0..place {
        if event_at(log, n).number_made(what).is_some() {
            count += 1;
        }
    }
    count
}

/// Whether the resource, the capture and the variable that an event names were made before.
fn is_introduced(log: &[Event], n: usize, event: &Event) -> bool
    requires { n < length log.now }
    ensures { result ≡ is_introduced event.now (front log.now n) }
{
    was_made(log, n, event, Numbered::Resource)
        && was_made(log, n, event, Numbered::Capture)
        && was_made(log, n, event, Numbered::Variable)
}

fn was_made(log: &[Event], n: usize, event: &Event, what: Numbered) -> bool
    requires { n < length log.now }
    ensures { result ≡ was_made (number_made what) (number_named what event.now) (front log.now n) }
{
    match event.number_named(what) {
        None => true,
        Some(number) => first_made(log, n, what, number).is_some(),
    }
}

/// Whether an `init` says the execution identifier of its place.
fn is_executed(log: &[Event], n: usize, event: &Event, brackets: &[Open<usize>]) -> bool
    requires within { n < length log.now }
    requires standing { reverse brackets.now ≡ opened_at log.now n }
    ensures { result ≡ is_executed event.now (front log.now n) }
{
    match event {
        Event::Init { exec, .. } => *exec == innermost(brackets),
        _ => true,
    }
}

/// Whether a `get` says the nearest binding's value.
fn is_read(alloc: Global, log: &[Event], n: usize, event: &Event) -> Result<bool, AllocError>
    requires { n < length log.now }
    ensures { IfOk result (λ good. good ≡ is_read event.now (front log.now n)) }
{
    match event {
        Event::Get { id, value } => {
            let nearest = nearest_binding(alloc, log, n, *id)?;
            Ok(value.is_same(&nearest))
        }
        _ => Ok(true),
    }
}
