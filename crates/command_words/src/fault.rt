//! Why words spell no commands.
ghost use Rattle.std.specs.Prelude.{◌≡◌};
ghost use Rattle.command_words.specs.declared.fault.WordFault.TheVariants.{OutOfMemory};

use std::alloc::{AllocError, AllocFailed};

/// Why words spell no commands.
#[derive(Clone, Copy, Debug, PartialEq, Eq)]
pub enum WordFault {
    /// The usage place: the index, from 0 in all words, of the first word that can't stand where it
    /// stands, or the index after a command's last word where words are missing.
    At { place: u64 },
    /// No memory was found.
    OutOfMemory,
}

impl WordFault {
    /// The same fault once more.
    pub fn copy(&self) -> WordFault
        ensures { result ≡ self.now }
    {
        *self
    }
}

impl From<AllocError> for WordFault {
    ghost from_gives = { λ _ e. e ≡ OutOfMemory };

    fn from(_: AllocError) -> Self {
        WordFault::OutOfMemory
    }
}

impl<T: Drop> From<AllocFailed<T>> for WordFault {
    ghost from_gives = { λ _ e. e ≡ OutOfMemory };

    fn from(_: AllocFailed<T>) -> Self {
        WordFault::OutOfMemory
    }
}
