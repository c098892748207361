//! Numbers of texts, objects and scopes.

/// A text of a run, by its place in the list of texts, from 0. Number 0 is the empty text, and no
/// other number is.
#[derive(Clone, Copy, Debug, PartialEq, Eq, Hash)]
pub struct TextId(pub u32);

/// An object of a run, by its place in the list of objects, from 0.
#[derive(Clone, Copy, Debug, PartialEq, Eq, Hash)]
pub struct ObjId(pub u32);

/// A scope of a run, by its place in the list of scopes, from 0
/// (a Declarative Environment Record of ECMA-262 §9.1.1.1).
#[derive(Clone, Copy, Debug, PartialEq, Eq, Hash)]
pub struct ScopeId(pub u32);
