//! What a built-in function is called as, and which prototypes are built in.

use crate::native_id::NativeId;
use actx_objects::Kind;
use actx_value::{CallerId, ErrorKind};

/// What a built-in function is called as.
#[derive(Clone, Copy, Debug, PartialEq, Eq)]
pub enum Built {
    /// A function that reads and writes the store alone.
    Native(NativeId),
    /// A function that the machine itself answers.
    Caller(CallerId),
    /// A function of the bundle, by its place there, from 0.
    Bundled(u32),
}

/// A prototype, by what has it.
#[derive(Clone, Copy, Debug, PartialEq, Eq)]
pub enum Proto {
    /// Objects of this kind.
    Of(Kind),
    /// Errors of this constructor, whatever the number of the message.
    Error(ErrorKind),
    /// Texts.
    Text,
    /// Numbers.
    Number,
    /// The values `true` and `false`.
    Truth,
}
