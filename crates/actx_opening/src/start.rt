//! The built-in objects before they have properties.

ghost use Rattle.std.specs.Prelude.{◌≡◌, ◌<◌, ◌^◌, length, OnOk};
ghost use Rattle.std.specs.List.{fold};
ghost use Rattle.actx_opening.specs.Starts.{started, with_its_proto, with_protos};

use actx_objects::{Kind, Objects};
use actx_value::ObjId;
use std::alloc::AllocError;

/// A built-in object before it has properties: its kind, and its prototype.
#[derive(Clone, Copy, Debug)]
pub struct Start(pub Kind, pub Option<ObjId>);

/// Makes one object, without a prototype.
#[tactic(auto, unfolding(crate::specs::Starts::started))]
fn make(objects: &mut Objects, start: Start) -> Result<(), AllocError>
    ensures { OnOk result (objects.new ≡ started objects.old start) }
{
    match objects.make(start.0, None) {
        Ok(_) => Ok(()),
        Err(_) => Err(AllocError),
    }
}

/// Makes the objects of a table, in order.
pub(crate) fn make_all(objects: &mut Objects, table: &[Start]) -> Result<(), AllocError>
    ensures { OnOk result (objects.new ≡ fold started objects.old table.now) }
{
    for start in table {
        make(objects, *start)?;
    }
    Ok(())
}

/// Gives an object its prototype.
#[tactic(auto, unfolding(crate::specs::Starts::with_its_proto))]
fn give_proto(objects: &mut Objects, o: ObjId, start: Start)
    ensures { objects.new ≡ with_its_proto objects.old o start }
{
    match start.1 {
        Some(p) => objects.set_proto(o, p),
        None => {}
    }
}

/// Gives the objects of a table their prototypes.
pub(crate) fn give_protos(objects: &mut Objects, table: &[Start])
    requires { length table.now < 2 ^ 32 }
    ensures { objects.new ≡ with_protos 0 table.now objects.old }
{
    for (o, start) in table.iter().enumerate() {
        give_proto(objects, ObjId(o as u32), *start);
    }
}
