//! Why nothing is read.

ghost use Rattle.std.specs.Prelude.{◌≡◌};

use std::alloc::{AllocError, AllocFailed};

/// Why nothing is read. `at` is where reading stopped: the number of units of the text before the token there.
#[derive(Clone, Copy, Debug, PartialEq, Eq)]
pub enum ParseError {
    /// The grammar has no tree there.
    NoTree {
        /// The units of the text before the token where reading stopped.
        at: usize,
    },
    /// The grammar has no tree there in which no node has more than 200 nodes around it.
    TooNested {
        /// The units of the text before the token where reading stopped.
        at: usize,
    },
    /// Memory ran out.
    Memory,
}

/// Why a line of the grammar is not read.
#[derive(Clone, Copy, Debug, PartialEq, Eq)]
pub enum Cause {
    /// The line spells no tree there.
    NoTree,
    /// Each tree that is spelled there has a node too deep, or there is none.
    TooNested,
    /// Memory ran out.
    Memory,
}

impl From<AllocError> for Cause {
    ghost use Rattle.actx_grammar.specs.declared.error.Cause.TheVariants.{Memory};

    ghost from_gives = { λ _ e. e ≡ Memory };

    fn from(_: AllocError) -> Cause {
        Cause::Memory
    }
}

impl<T: Drop> From<AllocFailed<T>> for Cause {
    ghost use Rattle.actx_grammar.specs.declared.error.Cause.TheVariants.{Memory};

    ghost from_gives = { λ _ e. e ≡ Memory };

    fn from(_: AllocFailed<T>) -> Cause {
        Cause::Memory
    }
}
