//! The scopes of a run and their cells.

ghost use Rattle.std.specs.Prelude.{◌≡◌, ◌↔◌, ◌<◌, ◌≤◌, IsTrue, ◌+◌, ◌++◌, ◌∷◌, [], suc, length, None, IfOk, OnOk, OnErr, IsErr, IsErrOf};
ghost use Rattle.std.specs.Result.{result_ok};
ghost use Rattle.actx_cells.specs.Scopes.{count_of, value_at, with_cell, with_value_at, new_scope, fork_of, outer_of, parents_of};

use crate::span::{Span, outer, place_of, span_of};
use actx_value::{ScopeId, StoreError, Value};
use std::alloc::{AllocError, Global};
use std::marker::Model;

/// That a cell was never initialised, or isn't there.
#[derive(Clone, Copy, Debug, PartialEq, Eq)]
pub struct Uninitialised;

/// The scopes of a run, by number, and the most scopes and cells in all. Contracts see the list of
/// scopes, each with its parent and its cells, and that limit. A scope or a cell that isn't there
/// counts as never initialised.
#[derive(Drop)]
pub struct Cells {
    spans: Vec<Span>,
    cells: Vec<Option<Value>>,
    limit: u64,
}

impl Model for Cells {
    ghost use Rattle.actx_cells.specs.Scopes.{ScopeStore};
    ghost use Rattle.actx_cells.specs.Spans.{scopes_in, IsKept};

    ghost Value = { ScopeStore };

    ghost view = { λ c. record { scopes = scopes_in c.cells.items c.spans.items; limit = c.limit } };

    ghost invariant = { λ c. IsKept c.spans.items c.cells.items c.limit };
}

impl Cells {
    /// No scope, where at most `limit` scopes and cells are made.
    pub fn new(alloc: Global, limit: u64) -> Cells
        requires { limit < 2147483648 }
        ensures { result ≡ record { scopes = []; limit = limit } }
    {
        Cells {
            spans: Vec::new(alloc),
            cells: Vec::new(alloc),
            limit,
        }
    }

    /// Makes a scope with this parent and `n` cells that aren't initialised, and gives the next number
    /// (NewDeclarativeEnvironment, ECMA-262 §9.1.2.2). The parent is kept as it is given.
    ///
    /// # Errors
    /// `Full` exactly where the scopes and cells would be more than the limit. `Memory` where there is
    /// no room. The scopes stay as they were.
    pub fn scope(&mut self, parent: Option<ScopeId>, n: u32) -> Result<ScopeId, StoreError>
        ensures number { IfOk result (λ id. id.0 ≡ length self.old.scopes) }
        ensures ok { OnOk result (self.new ≡ record { scopes = self.old.scopes ++ new_scope parent n ∷ []; limit = self.old.limit }) }
        ensures full { IsErrOf result StoreError.Full ↔ (self.old.limit < count_of self.old.scopes + suc n) }
        ensures err { OnErr result (self.new ≡ self.old) }
    {
        if self.lacks_room(n) {
            return Err(StoreError::Full);
        }
        Ok(self.push_new(parent, n)?)
    }

    /// Makes a scope with the parent of this one and copies of its cells, and gives the next number
    /// (CreatePerIterationEnvironment, ECMA-262 §14.7.4.4). Of a scope that isn't there it makes one
    /// without parent and cells.
    ///
    /// # Errors
    /// `Full` exactly where the scopes and cells would be more than the limit. `Memory` where there is
    /// no room. The scopes stay as they were.
    pub fn fork(&mut self, s: ScopeId) -> Result<ScopeId, StoreError>
        ensures number { IfOk result (λ id. id.0 ≡ length self.old.scopes) }
        ensures ok { OnOk result (self.new ≡ record { scopes = self.old.scopes ++ fork_of self.old.scopes s ∷ []; limit = self.old.limit }) }
        ensures full { IsErrOf result StoreError.Full ↔ (self.old.limit < count_of self.old.scopes + suc (length (fork_of self.old.scopes s).cells)) }
        ensures err { OnErr result (self.new ≡ self.old) }
    {
        if self.lacks_room(self.fork_count(s)) {
            return Err(StoreError::Full);
        }
        Ok(self.push_fork(s)?)
    }

    /// Whether a scope of so many cells would be more than the limit.
    fn lacks_room(&self, cells: u32) -> bool
        ensures { IsTrue result ↔ (self.now.limit < count_of self.now.scopes + suc cells) }
    {
        self.limit < self.spans.len() as u64 + self.cells.len() as u64 + 1 + u64::from(cells)
    }

    /// Puts a new scope at the end.
    fn push_new(&mut self, parent: Option<ScopeId>, n: u32) -> Result<ScopeId, AllocError>
        requires { count_of self.old.scopes + suc n ≤ self.old.limit }
        ensures number { IfOk result (λ id. id.0 ≡ length self.old.scopes) }
        ensures ok { OnOk result (self.new ≡ record { scopes = self.old.scopes ++ new_scope parent n ∷ []; limit = self.old.limit }) }
        ensures err { OnErr result (self.new ≡ self.old) }
    {
        let number = self.spans.len();
        let start = self.cells.len();
        self.spans.reserve(1)?;
        self.cells.resize(start + n as usize, None)?;
        self.spans.push_reserved(Span {
            parent,
            start: start as u32,
            count: n,
        });
        Ok(ScopeId(number as u32))
    }

    /// How many cells a fork of this scope has.
    fn fork_count(&self, s: ScopeId) -> u32
        ensures { result ≡ length (fork_of self.now.scopes s).cells }
    {
        span_of(self.spans.as_slice(), s).count
    }

    /// Puts a fork of this scope at the end.
    fn push_fork(&mut self, s: ScopeId) -> Result<ScopeId, AllocError>
        requires { count_of self.old.scopes + suc (length (fork_of self.old.scopes s).cells) ≤ self.old.limit }
        ensures number { IfOk result (λ id. id.0 ≡ length self.old.scopes) }
        ensures ok { OnOk result (self.new ≡ record { scopes = self.old.scopes ++ fork_of self.old.scopes s ∷ []; limit = self.old.limit }) }
        ensures err { OnErr result (self.new ≡ self.old) }
    {
        let number = self.spans.len();
        let copies = self.cells.len();
        let span = span_of(self.spans.as_slice(), s);
        let first = span.start as usize;
        self.spans.reserve(1)?;
        self.cells
            .extend_from_within(first..first + span.count as usize)?;
        self.spans.push_reserved(Span {
            parent: span.parent,
            start: copies as u32,
            count: span.count,
        });
        Ok(ScopeId(number as u32))
    }

    /// The scope that is `hops` further out, and `None` exactly where a scope on the way isn't there or has no
    /// parent. It takes one step for each hop.
    pub fn outer(&self, s: ScopeId, hops: u32) -> Option<ScopeId>
        ensures { result ≡ outer_of (parents_of self.now.scopes) hops s }
    {
        outer(self.spans.as_slice(), s, hops)
    }

    /// Gives a cell of this scope a value, whether it has one or not (InitializeBinding,
    /// ECMA-262 §9.1.1.1.4). A cell that isn't there changes nothing.
    pub fn init(&mut self, s: ScopeId, slot: u32, v: Value)
        ensures { self.new ≡ record { scopes = with_cell self.old.scopes slot v s; limit = self.old.limit } }
    {
        match place_of(self.spans.as_slice(), s, 0, slot) {
            Some(place) => self.cells[place] = Some(v),
            None => {}
        }
    }

    /// The value of a cell, `hops` scopes further out (GetBindingValue, ECMA-262 §9.1.1.1.6). It takes
    /// one step for each hop.
    ///
    /// # Errors
    /// `Uninitialised` exactly where the cell was never initialised or isn't there.
    pub fn get(&self, s: ScopeId, hops: u32, slot: u32) -> Result<Value, Uninitialised>
        ensures { result_ok result ≡ value_at self.now.scopes s hops slot }
    {
        match place_of(self.spans.as_slice(), s, hops, slot) {
            Some(place) => self.cells[place].ok_or(Uninitialised),
            None => Err(Uninitialised),
        }
    }

    /// Writes to a cell that has a value, `hops` scopes further out (SetMutableBinding,
    /// ECMA-262 §9.1.1.1.5). It takes one step for each hop.
    ///
    /// # Errors
    /// `Uninitialised` exactly where the cell was never initialised or isn't there; nothing changes
    /// then.
    pub fn set(&mut self, s: ScopeId, hops: u32, slot: u32, v: Value) -> Result<(), Uninitialised>
        ensures ok { OnOk result (self.new ≡ record { scopes = with_value_at self.old.scopes s hops slot v; limit = self.old.limit }) }
        ensures uninitialised { IsErr result ↔ (value_at self.old.scopes s hops slot ≡ None) }
        ensures err { OnErr result (self.new ≡ self.old) }
    {
        match place_of(self.spans.as_slice(), s, hops, slot) {
            Some(place) => match self.cells[place] {
                Some(_) => {
                    self.cells[place] = Some(v);
                    Ok(())
                }
                None => Err(Uninitialised),
            },
            None => Err(Uninitialised),
        }
    }
}
