//! The errors that the runtime throws, by constructor and message.

ghost use Rattle.std.specs.Prelude.{◌≡◌};
ghost use Rattle.std.specs.Option.{option_copied};
ghost use Rattle.actx_value.specs.Messages.{message_of};

/// An error by its constructor (ECMA-262 §20.5.5) and the number of its message, from 0.
#[derive(Clone, Copy, Debug, PartialEq, Eq)]
pub enum ErrorKind {
    /// A TypeError. Its messages have the numbers 0 to 10.
    TypeError(u8),
    /// A RangeError. Its message has the number 0.
    RangeError(u8),
    /// A ReferenceError. Its message has the number 0.
    ReferenceError(u8),
    /// An Error. Its messages have the numbers 0 and 1.
    Error(u8),
}

impl ErrorKind {
    /// A call of what can't be called.
    pub const NOT_A_FUNCTION: ErrorKind = ErrorKind::TypeError(0);
    /// A `new` of what is no constructor.
    pub const NOT_A_CONSTRUCTOR: ErrorKind = ErrorKind::TypeError(1);
    /// A walk over what can't be walked.
    pub const NOT_ITERABLE: ErrorKind = ErrorKind::TypeError(2);
    /// A property of `undefined` or `null`.
    pub const NO_PROPERTY: ErrorKind = ErrorKind::TypeError(3);
    /// A write to a frozen object.
    pub const FROZEN: ErrorKind = ErrorKind::TypeError(4);
    /// A resume of a generator that is executing.
    pub const GENERATOR_RUNNING: ErrorKind = ErrorKind::TypeError(5);
    /// A promise that is resolved with itself.
    pub const RESOLVED_WITH_ITSELF: ErrorKind = ErrorKind::TypeError(6);
    /// A call of a class without `new`.
    pub const CLASS_WITHOUT_NEW: ErrorKind = ErrorKind::TypeError(7);
    /// A receiver of another kind.
    pub const WRONG_RECEIVER: ErrorKind = ErrorKind::TypeError(8);
    /// An argument of another type.
    pub const BAD_ARGUMENT: ErrorKind = ErrorKind::TypeError(9);
    /// A primitive where an object has to be.
    pub const NOT_AN_OBJECT: ErrorKind = ErrorKind::TypeError(10);
    /// A number out of its range.
    pub const OUT_OF_RANGE: ErrorKind = ErrorKind::RangeError(0);
    /// A read or a write of a name before its declaration has run.
    pub const NOT_INITIALISED: ErrorKind = ErrorKind::ReferenceError(0);
    /// A second `emitDestroy`.
    pub const DESTROYED_TWICE: ErrorKind = ErrorKind::Error(0);
    /// A `require` of an unknown name.
    pub const NO_MODULE: ErrorKind = ErrorKind::Error(1);
}

/// The text of an error's message, in ASCII, and `None` exactly where there is no message of this
/// number.
pub fn message(kind: ErrorKind) -> Option<&'static str>
    ensures { option_copied result ≡ message_of kind }
{
    match kind {
        ErrorKind::TypeError(number) => type_error_message(number),
        ErrorKind::RangeError(0) => Some("bad argument"),
        ErrorKind::ReferenceError(0) => Some("not initialised"),
        ErrorKind::Error(0) => Some("destroyed twice"),
        ErrorKind::Error(1) => Some("cannot find module"),
        _ => None,
    }
}

/// The messages of a TypeError.
fn type_error_message(number: u8) -> Option<&'static str>
    ensures { option_copied result ≡ message_of (ErrorKind.TypeError number) }
{
    match number {
        0 => Some("not a function"),
        1 => Some("not a constructor"),
        2 => Some("not iterable"),
        3 => Some("no property of undefined or null"),
        4 => Some("frozen"),
        5 => Some("generator is running"),
        6 => Some("promise resolved with itself"),
        7 => Some("class called without new"),
        8 => Some("wrong receiver"),
        9 => Some("bad argument"),
        10 => Some("not an object"),
        _ => None,
    }
}
