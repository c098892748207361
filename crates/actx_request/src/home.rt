//! What requests need to know of the run's built-in objects and texts.

use actx_value::{ObjId, TextId};

/// The prototypes of what requests make and read, and the numbers of two texts.
#[derive(Clone, Copy, Debug, PartialEq, Eq)]
pub struct Home {
    /// The prototype of plain objects (ECMA-262 §20.1.3).
    pub object: ObjId,
    /// The prototype of arrays (§23.1.3).
    pub array: ObjId,
    /// The prototype of texts (§22.1.3).
    pub text: ObjId,
    /// The prototype of numbers (§21.1.3).
    pub number: ObjId,
    /// The prototype of `true` and `false` (§20.3.3).
    pub truth: ObjId,
    /// The text `length`.
    pub length: TextId,
    /// The text `size`.
    pub size: TextId,
}
