//! Numbers of built-in objects, counted by hand.

use super::*;
use actx_objects::Kind;
use actx_value::{CallerId, ErrorKind, ObjId, Texts, Value};

#[test]
fn numbers_of_built_ins(rt: HostRuntime) {
    assert_eq!(rt; callable(ObjId(0)), None);
    assert_eq!(rt;
        callable(ObjId(1)),
        Some(Built::Native(NativeId::ConsoleLog))
    );
    assert_eq!(rt;
        callable(ObjId(10)),
        Some(Built::Caller(CallerId::SetImmediate))
    );
    assert_eq!(rt; callable(ObjId(15)), Some(Built::Native(NativeId::Object)));
    assert_eq!(rt; callable(ObjId(32)), Some(Built::Bundled(7)));
    assert_eq!(rt; callable(ObjId(156)), Some(Built::Bundled(22)));
    assert_eq!(rt; callable(ObjId(160)), Some(Built::Bundled(18)));
    assert_eq!(rt; callable(ObjId(161)), None);
    assert_eq!(rt; built_ins(), 161);
}

#[test]
fn globals_and_prototypes(rt: HostRuntime) {
    assert_eq!(rt; global(0), Some(Value::Undefined));
    assert_eq!(rt; global(1), Some(Value::Object(ObjId(0))));
    assert_eq!(rt; global(28), Some(Value::Object(ObjId(135))));
    assert_eq!(rt; global(29), None);
    assert_eq!(rt; prototype(Proto::Of(Kind::Array)), Some(ObjId(33)));
    assert_eq!(rt; prototype(Proto::Of(Kind::Iterator)), None);
    assert_eq!(rt;
        prototype(Proto::Error(ErrorKind::TypeError(3))),
        Some(ObjId(79))
    );
    assert_eq!(rt; prototype(Proto::Text), Some(ObjId(52)));
    let texts = Texts::new(rt.alloc(), 10);
    assert!(rt; word(&texts, &[97]).is_none());
}
