//! Brackets: what stands open between two events.

use crate::event::{AsyncId, SnapId, VarId};

/// What an opening event opens and a closing event closes.
#[derive(Clone, Copy, Debug, PartialEq, Eq)]
pub enum Bracket {
    /// From `before` to `after`: a callback of the resource runs.
    Running(AsyncId),
    /// From `enter` to `leave`: a call runs under the capture.
    Entered(SnapId),
    /// From `bind` to `unbind`: a call runs under a binding of the variable.
    Bound(VarId),
}

/// A bracket that stands open, with what was there before its opener: a place, or a mapping.
#[derive(Clone, Copy, Debug, Drop)]
pub struct Open<P> {
    pub bracket: Bracket,
    pub before: P,
}
