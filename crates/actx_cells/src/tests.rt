//! Worked values from outside.

use super::*;
use actx_value::{ScopeId, StoreError, Value};
use std::test::Fail;

#[test]
fn scopes_up_to_two(rt: HostRuntime) {
    let mut cells = Cells::new(rt.alloc(), 2);
    assert_eq!(rt; cells.scope(None, 1), Ok(ScopeId(0)));
    assert_eq!(rt; cells.get(ScopeId(0), 0, 0), Err(Uninitialised));
    assert_eq!(rt;
        cells.set(ScopeId(0), 0, 0, Value::Null),
        Err(Uninitialised)
    );
    cells.init(ScopeId(0), 0, Value::Num(5));
    assert_eq!(rt; cells.get(ScopeId(0), 0, 0), Ok(Value::Num(5)));
    assert_eq!(rt; cells.scope(None, 1), Err(StoreError::Full));
    assert_eq!(rt; cells.fork(ScopeId(0)), Err(StoreError::Full));
    assert_eq!(rt; cells.scope(None, 0), Err(StoreError::Full));
}

#[test]
fn hops_and_forks(rt: HostRuntime) -> Result<(), Fail> {
    let mut cells = Cells::new(rt.alloc(), 100);
    let outer = cells.scope(None, 2)?;
    let inner = cells.scope(Some(outer), 1)?;
    assert_eq!(rt; cells.outer(inner, 1), Some(outer));
    assert_eq!(rt; cells.outer(inner, 2), None);
    cells.init(outer, 1, Value::Bool(true));
    cells.init(inner, 0, Value::Num(1));
    assert_eq!(rt; cells.get(inner, 1, 1), Ok(Value::Bool(true)));
    assert_eq!(rt; cells.get(inner, 1, 0), Err(Uninitialised));
    assert_eq!(rt;
        cells.get(inner, 2, 0),
        Err(Uninitialised),
        "past the outermost"
    );
    assert_eq!(rt;
        cells.get(inner, 0, 1),
        Err(Uninitialised),
        "past the last slot"
    );
    assert_eq!(rt; cells.get(ScopeId(9), 0, 0), Err(Uninitialised));

    // A fork has cells of its own and the same parent.
    let fork = cells.fork(inner)?;
    assert_eq!(rt; cells.set(fork, 0, 0, Value::Num(2)), Ok(()));
    assert_eq!(rt; cells.get(inner, 0, 0), Ok(Value::Num(1)));
    assert_eq!(rt; cells.get(fork, 0, 0), Ok(Value::Num(2)));
    assert_eq!(rt; cells.set(fork, 1, 1, Value::Null), Ok(()));
    assert_eq!(rt; cells.get(outer, 0, 1), Ok(Value::Null));

    // Of a scope that isn't there a fork has no cells, and `init` changes nothing.
    let empty = cells.fork(ScopeId(9))?;
    cells.init(empty, 0, Value::Null);
    assert_eq!(rt; cells.get(empty, 0, 0), Err(Uninitialised));
    assert_eq!(rt; cells.get(empty, 1, 1), Err(Uninitialised));
    Ok(())
}

#[test]
fn exactly_at_the_limit(rt: HostRuntime) -> Result<(), Fail> {
    let mut cells = Cells::new(rt.alloc(), 6);
    let first = cells.scope(None, 1)?;
    assert_eq!(rt; cells.scope(None, 4), Err(StoreError::Full));
    let second = cells.scope(Some(first), 0)?;
    assert_eq!(rt; cells.scope(None, 3), Err(StoreError::Full));
    let third = cells.fork(first)?;
    assert_eq!(rt; cells.fork(first), Err(StoreError::Full));
    assert_eq!(rt; cells.fork(second), Ok(ScopeId(3)));
    assert_eq!(rt; cells.scope(None, 0), Err(StoreError::Full));
    cells.init(third, 0, Value::Undefined);
    assert_eq!(rt; cells.get(third, 0, 0), Ok(Value::Undefined));
    Ok(())
}
