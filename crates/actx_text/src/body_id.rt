//! The names of function bodies.

/// A function body of a code, by its place in the code's list of bodies, from 0.
#[derive(Clone, Copy, PartialEq, Eq, Debug)]
pub struct BodyId(pub u32);
