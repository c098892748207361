//! The values of the global names, and the built-in prototypes.

ghost use Rattle.std.specs.Prelude.{◌≡◌, slice_get};
ghost use Rattle.actx_table.specs.Globals.{global_of, kind_path, object_at, prototype_of};
ghost use Rattle.std.specs.Option.{option_and_then};

use crate::built::Proto;
use actx_objects::Kind;
use actx_value::{ErrorKind, ObjId, Value};

/// The value of each global name, by its slot.
const GLOBALS: [Value; 29] = [
    Value::Undefined,
    Value::Object(ObjId(0)),
    Value::Object(ObjId(2)),
    Value::Object(ObjId(4)),
    Value::Object(ObjId(7)),
    Value::Object(ObjId(8)),
    Value::Object(ObjId(9)),
    Value::Object(ObjId(10)),
    Value::Object(ObjId(11)),
    Value::Object(ObjId(12)),
    Value::Object(ObjId(13)),
    Value::Object(ObjId(14)),
    Value::Object(ObjId(15)),
    Value::Object(ObjId(29)),
    Value::Object(ObjId(51)),
    Value::Object(ObjId(63)),
    Value::Object(ObjId(67)),
    Value::Object(ObjId(69)),
    Value::Object(ObjId(76)),
    Value::Object(ObjId(78)),
    Value::Object(ObjId(80)),
    Value::Object(ObjId(82)),
    Value::Object(ObjId(84)),
    Value::Object(ObjId(86)),
    Value::Object(ObjId(94)),
    Value::Object(ObjId(101)),
    Value::Object(ObjId(117)),
    Value::Object(ObjId(126)),
    Value::Object(ObjId(135)),
];

/// What stands at a place of a table, where there is such a place.
fn value_at(table: &[Value], place: u32) -> Option<Value>
    ensures { result ≡ slice_get table.now place }
{
    table.get(place as usize).copied()
}

/// The value of a slot of the global names, and `None` exactly where there is no such slot.
pub fn global(slot: u32) -> Option<Value>
    ensures { result ≡ global_of slot }
{
    value_at(&GLOBALS, slot)
}

/// The prototype of the objects of a kind, where it is built in.
fn kind_prototype(kind: Kind) -> Option<ObjId>
    ensures { result ≡ option_and_then object_at (kind_path kind) }
{
    match kind {
        Kind::Plain => Some(ObjId(24)),
        Kind::Array => Some(ObjId(33)),
        Kind::Function | Kind::Class | Kind::Native => Some(ObjId(25)),
        Kind::Error => Some(ObjId(77)),
        Kind::Map => Some(ObjId(87)),
        Kind::Set => Some(ObjId(95)),
        Kind::Promise => Some(ObjId(109)),
        Kind::Generator => Some(ObjId(113)),
        Kind::Variable => Some(ObjId(119)),
        Kind::Snapshot => Some(ObjId(124)),
        Kind::Storage => Some(ObjId(129)),
        Kind::Resource => Some(ObjId(137)),
        Kind::Hook => Some(ObjId(145)),
        Kind::Timeout | Kind::Immediate | Kind::Iterator => None,
    }
}

/// The built-in object that is this prototype, and `None` exactly where none is.
pub fn prototype(p: Proto) -> Option<ObjId>
    ensures { result ≡ prototype_of p }
{
    match p {
        Proto::Of(kind) => kind_prototype(kind),
        Proto::Error(ErrorKind::TypeError(_)) => Some(ObjId(79)),
        Proto::Error(ErrorKind::RangeError(_)) => Some(ObjId(81)),
        Proto::Error(ErrorKind::ReferenceError(_)) => Some(ObjId(83)),
        Proto::Error(ErrorKind::Error(_)) => Some(ObjId(77)),
        Proto::Text => Some(ObjId(52)),
        Proto::Number => Some(ObjId(66)),
        Proto::Truth => Some(ObjId(68)),
    }
}
