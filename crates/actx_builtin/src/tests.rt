//! Names that `require` takes.

use super::*;
use actx_text::{as_units, from_utf8};
use actx_value::ObjId;
use std::alloc::Global;
use std::test::Fail;

// What `require` gives for a name.
fn required(alloc: Global, name: &[u8]) -> Result<Option<ObjId>, Fail> {
    Ok(module(as_units(&from_utf8(alloc, name)?)))
}

#[test]
fn modules_by_name(rt: HostRuntime) -> Result<(), Fail> {
    let a = rt.alloc();
    assert_eq!(rt; required(a, b"events")?, Some(ObjId(151)));
    assert_eq!(rt; required(a, b"node:async_hooks")?, Some(ObjId(143)));
    assert_eq!(rt; required(a, b"node:timers/promises")?, Some(ObjId(158)));
    assert_eq!(rt; required(a, b"timers")?, Some(ObjId(157)));
    assert_eq!(rt; required(a, b"node:node:timers")?, None);
    assert_eq!(rt; required(a, b"fs")?, None);
    assert_eq!(rt; required(a, b"")?, None);
    Ok(())
}
