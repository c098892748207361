//! What kind of object an object is.

ghost use Rattle.std.specs.Prelude.{◌≡◌};
ghost use Rattle.actx_objects.specs.Kinds.{is_array, is_collection};

/// What kind of object an object is, from its making on.
#[derive(Clone, Copy, Debug, PartialEq, Eq)]
pub enum Kind {
    /// An ordinary object (ECMA-262 §10.1).
    Plain,
    /// An array (ECMA-262 §10.4.2).
    Array,
    /// A function of the program (ECMA-262 §10.2).
    Function,
    /// A class of the program (ECMA-262 §15.7).
    Class,
    /// A built-in function (ECMA-262 §10.3).
    Native,
    /// An error (ECMA-262 §20.5).
    Error,
    /// A Map (ECMA-262 §24.1).
    Map,
    /// A Set (ECMA-262 §24.2).
    Set,
    /// A promise (ECMA-262 §27.2).
    Promise,
    /// A generator (ECMA-262 §27.5).
    Generator,
    /// What `setTimeout` and `setInterval` give.
    Timeout,
    /// What `setImmediate` gives.
    Immediate,
    /// A variable of `AsyncContext`.
    Variable,
    /// A snapshot of `AsyncContext`.
    Snapshot,
    /// An `AsyncLocalStorage`.
    Storage,
    /// An `AsyncResource`.
    Resource,
    /// What `createHook` gives.
    Hook,
    /// A walk over an array, a text, a Map or a Set (ECMA-262 §27.1).
    Iterator,
}

/// Whether this is the kind of arrays.
pub(crate) fn is_array(kind: Kind) -> bool
    ensures { result ≡ is_array kind }
{
    matches!(kind, Kind::Array)
}

/// Whether objects of this kind have entries: Maps and Sets.
pub(crate) fn is_collection(kind: Kind) -> bool
    ensures { result ≡ is_collection kind }
{
    matches!(kind, Kind::Map | Kind::Set)
}
