//! Requests for the arguments of the call whose body asks.

ghost use Rattle.std.specs.Prelude.{◌≡◌, drop, IfOk};
ghost use Rattle.actx_request.specs.Limits.{MeetsAlone, MeetsObjectsAlone};
ghost use Rattle.actx_request.specs.Arguments.{argument, arguments_from};

use crate::given::{Given, go};
use crate::home::Home;
use crate::lists::array;
use actx_objects::Objects;
use actx_value::Value;
use std::alloc::AllocError;

/// An argument by its place, and `undefined` past the last (ECMA-262 §8.6.3).
pub(crate) fn argument(given: &[Value], index: u32) -> Given
    ensures { MeetsAlone (argument given.now index) result }
{
    match given.get(index as usize) {
        Some(v) => go(*v),
        None => go(Value::Undefined),
    }
}

/// The arguments from a place on.
fn from_place(given: &[Value], index: u32) -> &[Value]
    ensures { result.now ≡ drop index given.now }
{
    let place = index as usize;
    if place < given.len() {
        &given[place..]
    } else {
        &[]
    }
}

/// A new array of the arguments from a place on (ECMA-262 §8.6.3).
pub(crate) fn arguments_from(
    home: &Home,
    given: &[Value],
    index: u32,
    objects: &mut Objects,
) -> Result<Given, AllocError>
    ensures { IfOk result (λ g. MeetsObjectsAlone (arguments_from home.now given.now index) objects.old g objects.new) }
{
    Ok(array(home, from_place(given, index), objects)?)
}
