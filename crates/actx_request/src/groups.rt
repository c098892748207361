//! The answers to plain requests by what they touch.

ghost use Rattle.std.specs.Prelude.{◌≡◌, List, IfOk, IsTrue};
ghost use Rattle.actx_value.specs.declared.value.Value.{Value as OneValue};
ghost use Rattle.actx_request.specs.declared.home.Home.{Home as OneHome};
ghost use Rattle.actx_request.specs.Groups.{asks_scopes, asks_operators, asks_members, asks_objects};
ghost use Rattle.actx_request.specs.Limits.{MeetsCells, MeetsTexts, MeetsObjects};
ghost use Rattle.actx_request.specs.Answers.{outcome_of};

use crate::arguments::{argument, arguments_from};
use crate::copies::{copy, rest};
use crate::given::{Given, go};
use crate::home::Home;
use crate::lists::{array, object};
use crate::members::{get, super_get};
use crate::operators::{binary, key, text, unary};
use crate::scopes::{fork, init, load, scope, store};
use crate::writes::{delete, put};
use actx_cells::Cells;
use actx_objects::Objects;
use actx_value::{Request, Texts, Value};
use std::alloc::{AllocError, Global};

/// Requests on scopes and cells.
pub(crate) fn in_scopes(r: Request, cells: &mut Cells) -> Result<Given, AllocError>
    requires { IsTrue (asks_scopes r) }
    ensures { IfOk result (λ g. (list arguments : List OneValue) (home : OneHome) → MeetsCells (outcome_of r list arguments home) cells.old g cells.new) }
{
    match r {
        Request::Scope { parent, count } => Ok(scope(parent, count, cells)?),
        Request::Fork { scope } => Ok(fork(scope, cells)?),
        Request::Init {
            scope,
            hops,
            slot,
            value,
        } => Ok(init(scope, hops, slot, value, cells)),
        Request::Load { scope, hops, slot } => Ok(load(scope, hops, slot, cells)),
        Request::Store {
            scope,
            hops,
            slot,
            value,
        } => Ok(store(scope, hops, slot, value, cells)),
        _ => Ok(go(Value::Undefined)),
    }
}

/// Requests that apply operators and conversions.
pub(crate) fn by_operators(
    alloc: Global,
    r: Request,
    texts: &mut Texts,
) -> Result<Given, AllocError>
    requires { IsTrue (asks_operators r) }
    ensures { IfOk result (λ g. (list arguments : List OneValue) (home : OneHome) → MeetsTexts (outcome_of r list arguments home) texts.old g texts.new) }
{
    match r {
        Request::Unary { op, value } => Ok(unary(alloc, op, value, texts)?),
        Request::Binary { op, left, right } => Ok(binary(alloc, op, left, right, texts)?),
        Request::ToText { value } => Ok(text(alloc, value, texts)?),
        Request::ToKey { value } => Ok(key(alloc, value, texts)?),
        _ => Ok(go(Value::Undefined)),
    }
}

/// Requests on one property.
pub(crate) fn at_members(
    alloc: Global,
    r: Request,
    home: &Home,
    objects: &mut Objects,
    texts: &mut Texts,
) -> Result<Given, AllocError>
    requires { IsTrue (asks_members r) }
    ensures { IfOk result (λ g. (list arguments : List OneValue) → MeetsObjects (outcome_of r list arguments home.now) objects.old texts.old g objects.new texts.new) }
{
    match r {
        Request::Get { object, key } => Ok(get(alloc, object, key, home, objects, texts)?),
        Request::Set { object, key, value } => {
            Ok(put(alloc, false, object, key, value, objects, texts)?)
        }
        Request::Delete { object, key } => Ok(delete(object, key, home, objects, texts)),
        Request::Define { object, key, value } => {
            Ok(put(alloc, false, object, key, value, objects, texts)?)
        }
        Request::DefineMethod { object, key, value } => {
            Ok(put(alloc, true, object, key, value, objects, texts)?)
        }
        Request::SuperGet { home, key, .. } => Ok(super_get(home, key, objects, texts)),
        _ => Ok(go(Value::Undefined)),
    }
}

/// Requests that make or fill an object, and requests for arguments.
pub(crate) fn by_objects(
    alloc: Global,
    r: Request,
    list: &[Value],
    given: &[Value],
    home: &Home,
    objects: &mut Objects,
    texts: &mut Texts,
) -> Result<Given, AllocError>
    requires { IsTrue (asks_objects r) }
    ensures { IfOk result (λ g. MeetsObjects (outcome_of r list.now given.now home.now) objects.old texts.old g objects.new texts.new) }
{
    match r {
        Request::Object => Ok(object(home, objects)?),
        Request::Array => Ok(array(home, list, objects)?),
        Request::Copy { object, from } => Ok(copy(alloc, object, from, objects, texts)?),
        Request::Rest { from } => Ok(rest(alloc, home, from, list, objects, texts)?),
        Request::Arg { index } => Ok(argument(given, index)),
        Request::ArgsFrom { index } => Ok(arguments_from(home, given, index, objects)?),
        _ => Ok(go(Value::Undefined)),
    }
}
