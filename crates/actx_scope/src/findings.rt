//! What a walk over a tree has found so far.

ghost use Rattle.actx_scope.specs.Walks.{with_first, early_at};
ghost use Rattle.actx_scope_rules.specs.Nodes.{listed};
ghost use Rattle.actx_scope_rules.specs.Early.{uses_at};
ghost use Rattle.std.specs.Prelude.{◌≡◌, ◌++◌, [], None, OnOk};

use actx_scope_rules::{Early, EarlyKind, Found, Use};
use sqlite_items::Items;
use std::alloc::{AllocError, Global};

/// How many nodes there were, the first error at them, and the uses of names at them.
#[derive(Drop)]
pub struct Findings {
    pub count: usize,
    pub first: Option<Early>,
    pub uses: Items<Use>,
}

/// Nothing yet.
pub fn nothing(alloc: Global) -> Findings
    ensures { result ≡ record { count = 0; first = None; uses = [] } }
{
    Findings {
        count: 0,
        first: None,
        uses: Items::new(alloc),
    }
}

fn early_at(at: usize, error: Option<EarlyKind>) -> Option<Early>
    ensures { result ≡ early_at at error }
{
    match error {
        Some(kind) => Some(Early { kind, at }),
        None => None,
    }
}

/// Adds the use of a name at a node, if there is one.
fn add_use(uses: &mut Items<Use>, at: usize, name: Option<Found>) -> Result<(), AllocError>
    ensures { OnOk result (uses.new ≡ uses.old ++ uses_at at (listed name)) }
{
    match name {
        Some(name) => {
            uses.push(Use { at, name })?;
            Ok(())
        }
        None => Ok(()),
    }
}

/// The earlier of two errors.
fn or_first(first: Option<Early>, other: Option<Early>) -> Option<Early>
    ensures { result ≡ Rattle.actx_scope.specs.Walks.or_first first other }
{
    match first {
        Some(early) => Some(early),
        None => other,
    }
}

/// Adds a node with its first error and the name that is used there. A file whose nodes can't be
/// counted has no room in memory either.
pub fn add_node(
    findings: &mut Findings,
    error: Option<EarlyKind>,
    name: Option<Found>,
) -> Result<(), AllocError>
    ensures { OnOk result (findings.new ≡ with_first findings.old error (listed name)) }
{
    let at = findings.count;
    let Some(count) = at.checked_add(1) else {
        return Err(AllocError);
    };
    add_use(&mut findings.uses, at, name)?;
    findings.first = or_first(findings.first, early_at(at, error));
    findings.count = count;
    Ok(())
}
