//! How a run ends.

use crate::value::Value;

/// Why a run leaves the profile of the language that this runtime executes. No program can catch it.
#[derive(Clone, Copy, Debug, PartialEq, Eq)]
pub enum Reason {
    /// A number that is no safe integer: a fraction, not a number, infinite, −0, or beyond
    /// 9007199254740991 on either side.
    Number,
    /// A conversion of an object to a primitive, or of a value to a number that isn't there.
    Conversion,
    /// An array with a hole.
    Sparse,
    /// A property of an array beside its elements and its length.
    ArrayProperty,
    /// A class that extends a built-in other than those that may be extended.
    Subclass,
}

/// A count of a run that has a limit, in the order in which the limits are looked at.
#[derive(Clone, Copy, Debug, PartialEq, Eq)]
pub enum Which {
    /// Stack items: bodies and open brackets.
    Calls,
    /// Objects that the run made.
    Objects,
    /// Properties and elements that stand, and entries of Maps and Sets.
    Properties,
    /// Scopes and their cells.
    Cells,
    /// Units of texts.
    Text,
    /// Bindings made by run, exit and enterWith.
    Bindings,
    /// Variables and storages.
    Variables,
    /// Resources.
    Resources,
    /// Turns of the loop.
    Turns,
}

/// How a run ends.
#[derive(Clone, Copy, Debug, PartialEq, Eq)]
pub enum End {
    /// Nothing is left to do.
    Finished,
    /// By `process.exit` with this status, from 0 to 63.
    Exited(u8),
    /// By this value, which was thrown and not caught.
    Uncaught(Value),
    /// By leaving the profile.
    OutOfProfile(Reason),
    /// By a count that would go above its limit.
    Limit(Which),
}
