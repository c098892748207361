//! How a call ends.

/// Why a file is refused before its run. Each kind has its word in the error line.
#[derive(Clone, Copy, Debug, PartialEq, Eq)]
pub enum Refusal {
    /// The bytes aren't UTF-8. The place is that of a byte.
    Utf8,
    /// The text has no token list. The place is that of a unit.
    Token,
    /// The tokens spell no tree of the grammar. The place is about where reading stopped.
    Tree,
    /// The tokens spell no tree in which each node has at most 200 nodes around it, and there are more
    /// than 100 of them. The place is about where reading stopped.
    Nested,
    /// The file has an early error (ECMA-262 §17.1). The place is the number of the node with the first
    /// one: nodes are counted in source order, an outer one before an inner one, from 0.
    Early,
    /// The file needs more of the language than is built. The place is 0.
    NotBuilt,
}

/// How a call ends. Its status and its line on standard error are functions of it.
#[derive(Clone, Copy, Debug, PartialEq, Eq)]
pub enum Answer {
    /// All was done.
    Finished,
    /// The words are no command line.
    Usage,
    /// The named file couldn't be fetched.
    CannotRead,
    /// A file has more than 1,048,576 bytes.
    TooLong,
    /// The file is refused, for this reason and at this place.
    Refused { kind: Refusal, at: usize },
    /// A write to standard output failed.
    WriteFault,
    /// Memory ran out after this many moves of the run.
    Memory { steps: u64 },
}
