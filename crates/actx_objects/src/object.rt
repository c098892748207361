//! One object.

use crate::entries::Entries;
use crate::kind::Kind;
use crate::props::Props;
use actx_value::ObjId;

/// An object: its kind, its prototype (its slot [[Prototype]], ECMA-262 §10.1), whether it is frozen, its
/// properties, and the entries of a Map or a Set.
#[derive(Drop)]
pub struct Object {
    /// Its kind.
    pub kind: Kind,
    /// Its prototype.
    pub proto: Option<ObjId>,
    /// Whether its properties are frozen.
    pub frozen: bool,
    /// Its properties.
    pub props: Props,
    /// Its entries.
    pub entries: Entries,
}
