//! Why a line isn't played.
use ap_text::TextFault;
use hex::FromHexError;
use std::alloc::{AllocError, AllocFailed};

/// Why a line isn't played.
#[derive(Clone, Copy, Debug, PartialEq, Eq)]
pub(crate) enum Trouble {
    /// The line is none of the language, or can't be played here.
    Line,
    /// There was no memory.
    OutOfMemory,
}

impl From<AllocError> for Trouble {
    fn from(_: AllocError) -> Trouble {
        Trouble::OutOfMemory
    }
}

impl<T: Drop> From<AllocFailed<T>> for Trouble {
    fn from(_: AllocFailed<T>) -> Trouble {
        Trouble::OutOfMemory
    }
}

impl From<TextFault> for Trouble {
    fn from(fault: TextFault) -> Trouble {
        match fault {
            TextFault::OutOfMemory => Trouble::OutOfMemory,
            TextFault::Empty | TextFault::TooLong | TextFault::BadByte(_) => Trouble::Line,
        }
    }
}

impl From<FromHexError> for Trouble {
    fn from(error: FromHexError) -> Trouble {
        match error {
            FromHexError::OutOfMemory => Trouble::OutOfMemory,
            _ => Trouble::Line,
        }
    }
}
