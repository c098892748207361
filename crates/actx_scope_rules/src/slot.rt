//! Slots of scopes, and what a use of a name means.

use actx_text::Units;

/// A slot of a scope: the name that it has, if it has one, and whether an assignment to that name is
/// refused.
#[derive(Drop)]
pub struct Slot {
    pub name: Option<Units>,
    pub is_fixed: bool,
}

/// What a use of a name means: the slot of a scope so many scopes out (0 is the innermost), whether it
/// is a global name, and whether an assignment to it is refused.
#[derive(Clone, Copy, Debug, PartialEq, Eq)]
pub struct Found {
    pub hops: usize,
    pub slot: usize,
    pub is_global: bool,
    pub is_fixed: bool,
}

/// A use of a name at the node of a number.
#[derive(Clone, Copy, Debug, PartialEq, Eq)]
pub struct Use {
    pub at: usize,
    pub name: Found,
}
