//! Where the cells of a scope stand.

ghost use Rattle.std.specs.Prelude.{◌≡◌, map, slice_get};
ghost use Rattle.actx_cells.specs.Scopes.{held, outer_of};
ghost use Rattle.actx_cells.specs.Spans.{place_in, span_of};

use actx_value::ScopeId;

/// A scope: its parent, and its cells as a range of the cells of all scopes.
#[derive(Clone, Copy)]
pub(crate) struct Span {
    pub(crate) parent: Option<ScopeId>,
    pub(crate) start: u32,
    pub(crate) count: u32,
}

/// The parent of a scope.
fn parent_of(spans: &[Span], s: ScopeId) -> Option<ScopeId>
    ensures { result ≡ held (slice_get (map (λ span. span.parent) spans.now) s.0) }
{
    match spans.get(s.0 as usize) {
        Some(span) => span.parent,
        None => None,
    }
}

/// The scope that is `hops` further out. It takes one step for each hop.
pub(crate) fn outer(spans: &[Span], s: ScopeId, hops: u32) -> Option<ScopeId>
    ensures { result ≡ outer_of (map (λ span. span.parent) spans.now) hops s }
{
    let mut scope = s;
    for hop in 0..hops {
        scope = parent_of(spans, scope)?;
    }
    Some(scope)
}

/// The place of a cell among the cells of all scopes.
pub(crate) fn place_of(spans: &[Span], s: ScopeId, hops: u32, slot: u32) -> Option<usize>
    ensures { result ≡ place_in spans.now hops s slot }
{
    let scope = outer(spans, s, hops)?;
    let span = spans.get(scope.0 as usize)?;
    if slot < span.count {
        Some(span.start as usize + slot as usize)
    } else {
        None
    }
}

/// The range of a scope, and an empty one for a scope that isn't there.
pub(crate) fn span_of(spans: &[Span], s: ScopeId) -> Span
    ensures { result ≡ span_of spans.now s }
{
    match spans.get(s.0 as usize) {
        Some(span) => *span,
        None => Span {
            parent: None,
            start: 0,
            count: 0,
        },
    }
}
