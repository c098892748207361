//! Kinds of early errors.

/// What makes a program be refused before it runs, in the order in which several at one node come.
#[derive(Clone, Copy, Debug, PartialEq, Eq)]
pub enum EarlyKind {
    /// A name stands twice in one scope, or twice among parameters, or a name of a body is that of a
    /// parameter (ECMA-262 §14.2.1, §15.1.1, §15.2.1, §16.1.1).
    Redeclared,
    /// A name is in no scope around its use (ECMA-262 §9.1.2.1 finds that out when it runs).
    NotDeclared,
    /// A name that may not change is assigned (ECMA-262 §9.1.1.1.5 finds that out when it runs).
    ConstAssigned,
    /// `break` or `continue` stands outside a loop of its function (ECMA-262 §14.8.1, §14.9.1).
    BadBreak,
    /// `return` stands outside a function (ECMA-262 §14.10).
    BadReturn,
    /// `await` stands outside the body of an async function (ECMA-262 §15.8.1).
    BadAwait,
    /// `yield` stands outside the body of a generator (ECMA-262 §15.5.1).
    BadYield,
    /// `super` stands where there is nothing above (ECMA-262 §13.3.7, §15.7.1).
    BadSuper,
    /// `delete` of anything but a member (ECMA-262 §13.5.1.1).
    BadDelete,
    /// `__proto__` is a key of an object (ECMA-262 §13.2.5.1, §B.3.1).
    BadKey,
    /// A class has two constructors, or one that is async or a generator (ECMA-262 §15.7.1).
    TwoConstructors,
}

/// An early error, and the number of the node where it stands. Nodes are numbered in source order, an
/// outer one before an inner one, from 0; the body of a function stands where the function is.
#[derive(Clone, Copy, Debug, PartialEq, Eq)]
pub struct Early {
    pub kind: EarlyKind,
    pub at: usize,
}
