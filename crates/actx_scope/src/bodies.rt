//! The bodies of functions in a file.

ghost use Rattle.actx_scope.specs.Bodies.{body_of};
ghost use Rattle.actx_scope.specs.Places.{Finds};
ghost use Rattle.std.specs.Prelude.{◌≡◌, ◌<◌, ◌≤◌, ◌+◌, ◌==◌, true, drop, length, Some, None, MatchOption};

use crate::places::Places;
use actx_tree::{BodyTree, Unread};
use std::alloc::Global;

/// Bodies of the functions in a file.
#[derive(Clone, Copy)]
pub struct Bodies<'a> {
    /// Where the names in them are kept.
    pub alloc: Global,
    /// The number of tokens of the file.
    pub count: u128,
    /// The bodies.
    pub list: &'a [BodyTree],
    /// How many bodies of the file stand before them.
    pub start: usize,
    /// The places of all bodies of the file.
    pub places: &'a Places,
    ghost placed: { places.now.exact ≡ true → Finds places.now.map start list.now },
    ghost within: { start + length list.now ≤ 18446744073709551615 },
}

/// Whether a body is that of a range, in a file of so many tokens.
fn is_body(body: &BodyTree, range: Unread, count: u128) -> bool
    ensures { result ≡ (body.now.from + range.from == count) }
{
    body.from as u128 + range.from as u128 == count
}

/// A place before which no body is that of a range.
fn place_of(bodies: Bodies<'_>, range: Unread) -> usize
    ensures { body_of bodies.entry.count (drop result bodies.entry.list.now) range ≡ body_of bodies.entry.count bodies.entry.list.now range }
{
    if !bodies.places.exact {
        return 0;
    }
    if bodies.count < range.from as u128 {
        return bodies.list.len();
    }
    let from = bodies.count - range.from as u128;
    match bodies.places.map.get(&from) {
        Some(place) => {
            if *place < bodies.start {
                return bodies.list.len();
            }
            *place - bodies.start
        }
        None => bodies.list.len(),
    }
}

/// The first body of a range, and the bodies behind it. It takes the same time for every range, where
/// no two bodies begin with one token.
pub fn body_of<'a>(bodies: Bodies<'a>, range: Unread) -> Option<(&'a BodyTree, Bodies<'a>)>
    ensures { MatchOption result
        (body_of bodies.entry.count bodies.entry.list.now range ≡ None)
        (λ found. (found.1.count ≡ bodies.entry.count) × (body_of bodies.entry.count bodies.entry.list.now range ≡ Some (found.0.now, found.1.list.now))) }
{
    for i in place_of(bodies, range)..bodies.list.len() {
        let body = &bodies.list[i];
        if is_body(body, range, bodies.count) {
            let behind = Bodies {
                alloc: bodies.alloc,
                count: bodies.count,
                list: &bodies.list[i + 1..],
                start: bodies.start + i + 1,
                places: bodies.places,
            };
            return Some((body, behind));
        }
    }
    None
}
