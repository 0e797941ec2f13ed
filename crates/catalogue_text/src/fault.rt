//! Why bytes are no root.
ghost use Rattle.std.specs.Prelude.{◌≡◌};
ghost use Rattle.catalogue_text.specs.declared.fault.RootFault.TheVariants.{OutOfMemory};

use std::alloc::{AllocError, AllocFailed};

/// Why bytes are the root text of no valid state.
#[derive(Clone, Copy, Debug, PartialEq, Eq)]
pub enum RootFault {
    /// The line of this number can't stand there.
    At {
        /// The number of the first such line, from 1. The end of the text counts as the next line.
        line: u64,
    },
    /// There was no memory for the state.
    OutOfMemory,
}

impl From<AllocError> for RootFault {
    ghost from_gives = { λ _ fault. fault ≡ OutOfMemory };

    fn from(_error: AllocError) -> RootFault {
        RootFault::OutOfMemory
    }
}

impl<T: Drop> From<AllocFailed<T>> for RootFault {
    ghost from_gives = { λ _ fault. fault ≡ OutOfMemory };

    fn from(_error: AllocFailed<T>) -> RootFault {
        RootFault::OutOfMemory
    }
}
