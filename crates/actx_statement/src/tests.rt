use super::*;
use actx_cursor::Cursor;
use actx_grammar::Cause;
use actx_lex::tokens;
use actx_text::from_utf8;
use std::test::Fail;

// Items up to a `}`, with their levels; the limit counts.
#[test]
fn items_up_to_a_brace(rt: HostRuntime) -> Result<(), Fail> {
    let alloc = rt.alloc();
    let text = from_utf8(alloc, b"a\nif (b) { c } else d\n}")
        .ok()
        .ok_or("it is UTF-8")?;
    let found = tokens(alloc, &text).ok().ok_or("it has tokens")?;
    let mut cursor = Cursor::new(&found, 0);
    match read_items(alloc, &mut cursor, 201) {
        Ok((items, levels)) => {
            assert_eq!(rt; items.len(), 2);
            assert_eq!(rt; levels, 4);
            assert_eq!(rt; cursor.len(), 1);
        }
        Err(_) => assert!(rt; false, "they are items"),
    }
    let mut cursor = Cursor::new(&found, 0);
    let answer = read_items(alloc, &mut cursor, 3);
    assert!(rt; matches!(answer, Err(Cause::TooNested)));
    Ok(())
}
