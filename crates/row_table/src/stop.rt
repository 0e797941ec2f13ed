//! Why a line has no answer.

use std::alloc::{AllocError, AllocFailed};

/// Why a line has no answer.
#[derive(Debug, Drop)]
pub enum Stop {
    /// The line is none of the calls.
    NoCall,
    /// There was no memory to print the answer.
    OutOfMemory(AllocError),
}

impl From<AllocError> for Stop {
    fn from(error: AllocError) -> Stop {
        Stop::OutOfMemory(error)
    }
}

impl<T: Drop> From<AllocFailed<T>> for Stop {
    fn from(failed: AllocFailed<T>) -> Stop {
        Stop::OutOfMemory(AllocError::from(failed))
    }
}
