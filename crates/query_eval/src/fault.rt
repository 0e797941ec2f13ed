//! Why a query can't be prepared.

ghost use Rattle.std.specs.Prelude.{◌≡◌};
ghost use Rattle.query_eval.specs.declared.fault.EvalFault.TheVariants.{OutOfMemory};

use std::alloc::{AllocError, AllocFailed};

/// Why a query can't be prepared. Its `~` conditions are counted from 1 in the order of its text; the first that can't be
/// built is told.
#[derive(Clone, Copy, Debug, PartialEq, Eq)]
pub enum EvalFault {
    /// The text of the `~` condition of this number is no pattern, or is nested too deep.
    BadPattern(u64),
    /// The `~` condition of this number was refused for its size.
    PatternTooLarge(u64),
    /// There was no memory.
    OutOfMemory,
}

impl EvalFault {
    /// The same fault once more.
    pub fn copy(&self) -> EvalFault
        ensures { result ≡ self.now }
    {
        *self
    }
}

impl From<AllocError> for EvalFault {
    ghost from_gives = { λ _ e. e ≡ OutOfMemory };

    fn from(_e: AllocError) -> EvalFault {
        EvalFault::OutOfMemory
    }
}

impl<T: Drop> From<AllocFailed<T>> for EvalFault {
    ghost from_gives = { λ _ e. e ≡ OutOfMemory };

    fn from(_e: AllocFailed<T>) -> EvalFault {
        EvalFault::OutOfMemory
    }
}
