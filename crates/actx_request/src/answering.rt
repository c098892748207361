//! The answer to a plain request.

ghost use Rattle.std.specs.Prelude.{◌≡◌, IfOk, IsTrue};
ghost use Rattle.actx_request.specs.Plain.{is_plain};
ghost use Rattle.actx_request.specs.Outcomes.{stores};
ghost use Rattle.actx_request.specs.Limits.{Meets};
ghost use Rattle.actx_request.specs.Answers.{outcome_of};

use crate::given::{Given, go};
use crate::groups::{at_members, by_objects, by_operators, in_scopes};
use crate::home::Home;
use actx_cells::Cells;
use actx_objects::Objects;
use actx_value::{Request, Texts, Value};
use std::alloc::{AllocError, Global};

/// The answer to a plain request, which changes these objects, texts and cells as it says. `list` is the request's list
/// where it has one, and `given` holds the arguments of the call whose body asks.
///
/// A throw and the end of the profile come exactly where ECMA-262 and the profile say so. A limit comes after these two,
/// exactly where a count of these objects, texts or cells would go above its limit, and names the first of objects,
/// properties, cells and texts that would. After the end of the profile, a limit, or want of memory nothing is said of the
/// objects, texts and cells.
///
/// # Errors
/// Only want of memory.
pub fn answer(
    alloc: Global,
    r: &Request,
    list: &[Value],
    given: &[Value],
    home: &Home,
    objects: &mut Objects,
    texts: &mut Texts,
    cells: &mut Cells,
) -> Result<Given, AllocError>
    requires { IsTrue (is_plain r.now) }
    ensures { IfOk result (λ g. Meets (outcome_of r.now list.now given.now home.now) (stores objects.old texts.old cells.old) g (stores objects.new texts.new cells.new)) }
{
    match *r {
        Request::Scope { .. }
        | Request::Fork { .. }
        | Request::Init { .. }
        | Request::Load { .. }
        | Request::Store { .. } => Ok(in_scopes(*r, cells)?),
        Request::Unary { .. }
        | Request::Binary { .. }
        | Request::ToText { .. }
        | Request::ToKey { .. } => Ok(by_operators(alloc, *r, texts)?),
        Request::Get { .. }
        | Request::Set { .. }
        | Request::Delete { .. }
        | Request::Define { .. }
        | Request::DefineMethod { .. }
        | Request::SuperGet { .. } => Ok(at_members(alloc, *r, home, objects, texts)?),
        Request::Object
        | Request::Array
        | Request::Copy { .. }
        | Request::Rest { .. }
        | Request::Arg { .. }
        | Request::ArgsFrom { .. } => {
            Ok(by_objects(alloc, *r, list, given, home, objects, texts)?)
        }
        _ => Ok(go(Value::Undefined)),
    }
}
