//! What a use of a name means.

/// The slot that a use of a name means: how many scopes out its scope is (0 is the innermost), and the
/// place of the slot in that scope, from 0.
#[derive(Clone, Copy, Debug, PartialEq, Eq)]
pub struct Meaning {
    pub hops: u32,
    pub slot: u32,
}
