//! Requests on scopes and their cells.

ghost use Rattle.std.specs.Prelude.{◌≡◌, IfOk};
ghost use Rattle.actx_request.specs.Limits.{MeetsCells};
ghost use Rattle.actx_request.specs.Scopes.{scope_in, fork_at, init_at, load_at, store_at};

use crate::given::{Given, go};
use actx_cells::Cells;
use actx_value::{ErrorKind, ScopeId, StoreError, Value, Which};
use std::alloc::AllocError;

/// A new scope (NewDeclarativeEnvironment, ECMA-262 §9.1.2.2).
pub(crate) fn scope(parent: ScopeId, count: u32, cells: &mut Cells) -> Result<Given, AllocError>
    ensures { IfOk result (λ g. MeetsCells (scope_in parent count) cells.old g cells.new) }
{
    match cells.scope(Some(parent), count) {
        Ok(id) => Ok(go(Value::Scope(id))),
        Err(StoreError::Full) => Ok(Given::Limit(Which::Cells)),
        Err(StoreError::Memory) => Err(AllocError),
    }
}

/// A copy of a scope (CreatePerIterationEnvironment, ECMA-262 §14.7.4.4).
pub(crate) fn fork(scope: ScopeId, cells: &mut Cells) -> Result<Given, AllocError>
    ensures { IfOk result (λ g. MeetsCells (fork_at scope) cells.old g cells.new) }
{
    match cells.fork(scope) {
        Ok(id) => Ok(go(Value::Scope(id))),
        Err(StoreError::Full) => Ok(Given::Limit(Which::Cells)),
        Err(StoreError::Memory) => Err(AllocError),
    }
}

/// The first value of a cell (InitializeBinding, ECMA-262 §9.1.1.1.4).
pub(crate) fn init(scope: ScopeId, hops: u32, slot: u32, v: Value, cells: &mut Cells) -> Given
    ensures { MeetsCells (init_at scope hops slot v) cells.old result cells.new }
{
    match cells.outer(scope, hops) {
        Some(outer) => cells.init(outer, slot, v),
        None => {}
    }
    go(Value::Undefined)
}

/// The value of a cell (GetBindingValue, ECMA-262 §9.1.1.1.6).
pub(crate) fn load(scope: ScopeId, hops: u32, slot: u32, cells: &Cells) -> Given
    ensures { MeetsCells (load_at scope hops slot) cells.now result cells.now }
{
    match cells.get(scope, hops, slot) {
        Ok(v) => go(v),
        Err(_) => Given::Throw(ErrorKind::NOT_INITIALISED),
    }
}

/// A write to a cell (SetMutableBinding, ECMA-262 §9.1.1.1.5).
pub(crate) fn store(scope: ScopeId, hops: u32, slot: u32, v: Value, cells: &mut Cells) -> Given
    ensures { MeetsCells (store_at scope hops slot v) cells.old result cells.new }
{
    match cells.set(scope, hops, slot, v) {
        Ok(()) => go(Value::Undefined),
        Err(_) => Given::Throw(ErrorKind::NOT_INITIALISED),
    }
}
