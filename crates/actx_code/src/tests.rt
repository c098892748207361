//! The readers over a code of one body.

use super::*;
use actx_text::{BodyId, as_units, from_units};
use actx_tree::Flow;
use actx_value::Value;
use std::test::Fail;

#[test]
fn readers_give_what_the_code_was_made_of(rt: HostRuntime) -> Result<(), Fail> {
    let body = Body {
        kind: BodyKind::File,
        flow: Flow::Plain,
        name: 0,
        hidden: false,
        cells: 3,
        form: Form::Literal(Value::Null),
    };
    let bodies = vec![in rt.alloc(); body]?;
    let literals = vec![in rt.alloc(); from_units(vec![in rt.alloc(); 97_u16]?)]?;
    let bundled = vec![in rt.alloc(); BodyId(0)]?;
    let code = Code::new(bodies, literals, bundled);
    assert_eq!(rt; code.bundled(0), Some(BodyId(0)));
    assert_eq!(rt; code.bundled(1), None);
    assert_eq!(rt; code.body(BodyId(0)).map(|b| b.cells), Some(3));
    assert_eq!(rt; code.body(BodyId(1)).is_none(), true);
    assert_eq!(rt; code.literal(0).map(|t| as_units(t).len()), Some(1));
    assert_eq!(rt; code.literal(1).is_none(), true);
    Ok(())
}
