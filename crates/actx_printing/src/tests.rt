//! Trees made by hand.

use super::*;
use actx_text::{as_units, from_utf8};
use actx_tree::{Argument, Expr, Stmt, Suffix, Tree};
use sqlite_items::{Boxed, Items};
use std::alloc::Global;
use std::process::Abort;
use std::test::Fail;

/// `console.log` as a member of `first`, called with one argument, with or without `?.` before the
/// bracket.
fn calling(alloc: Global, first: &[u8], is_optional: bool, x: Argument) -> Result<Tree, Fail> {
    let mut arguments = Items::new(alloc);
    arguments.push(x)?;
    let mut suffixes = Items::new(alloc);
    suffixes.push(Suffix::Member(false, from_utf8(alloc, b"log")?))?;
    suffixes.push(Suffix::Call(is_optional, arguments))?;
    let first = Boxed::new(alloc, Expr::Name(from_utf8(alloc, first)?))?;
    let mut items = Items::new(alloc);
    items.push(Stmt::Expr(Expr::Left(first, suffixes)))?;
    let bodies = Items::new(alloc);
    Ok(Tree { items, bodies })
}

/// The tree is that of no printing statements.
fn check_not_built(rt: &(impl Abort + AllocGlobal), tree: &Tree) -> Result<(), Fail> {
    match printing(rt.alloc(), tree) {
        Err(e) => assert_eq!(rt; e, FirstError::NotBuilt),
        Ok(_) => assert!(rt; false, "literals were found"),
    }
    Ok(())
}

#[test]
fn a_text_is_found(rt: HostRuntime) -> Result<(), Fail> {
    let text = Argument::One(Expr::Text(from_utf8(rt.alloc(), b"a")?));
    let tree = calling(rt.alloc(), b"console", false, text)?;
    let found = printing(rt.alloc(), &tree)?;
    assert_eq!(rt; found.len(), 1);
    match found[0].as_slice() {
        [Lit::Text(text)] => assert_eq!(rt; as_units(text), [97].as_slice()),
        _ => assert!(rt; false, "it is one text"),
    }
    Ok(())
}

#[test]
fn other_calls_are_not_built(rt: HostRuntime) -> Result<(), Fail> {
    let alloc = rt.alloc();
    let other_name = calling(alloc, b"consoles", false, Argument::One(Expr::Null))?;
    check_not_built(&rt, &other_name)?;
    let optional = calling(alloc, b"console", true, Argument::One(Expr::Null))?;
    check_not_built(&rt, &optional)?;
    let spread = calling(alloc, b"console", false, Argument::Spread(Expr::Null))?;
    check_not_built(&rt, &spread)?;
    let this = calling(alloc, b"console", false, Argument::One(Expr::This))?;
    check_not_built(&rt, &this)
}
