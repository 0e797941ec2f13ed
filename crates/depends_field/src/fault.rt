ghost use Rattle.std.specs.Prelude.{◌≡◌};
ghost use Rattle.depends_field.specs.declared.fault.DependsFault.TheVariants.{OutOfMemory};

use std::alloc::{AllocError, AllocFailed};

/// Why a relation field wasn't read.
#[derive(Clone, Copy, Debug, PartialEq, Eq)]
pub enum DependsFault {
    /// The field is no relation field. The place, in bytes from 0, is the start of the first piece that can't stand
    /// where it stands, or the end of the text.
    At {
        /// The place.
        place: u64,
    },
    /// There was no memory for what the field says.
    OutOfMemory,
}

impl DependsFault {
    /// The same fault.
    pub fn copy(&self) -> DependsFault
        ensures { result ≡ self.now }
    {
        *self
    }
}

impl From<AllocError> for DependsFault {
    ghost from_gives = { λ _ e. e ≡ OutOfMemory };

    fn from(_e: AllocError) -> DependsFault {
        DependsFault::OutOfMemory
    }
}

impl<T: Drop> From<AllocFailed<T>> for DependsFault {
    ghost from_gives = { λ _ e. e ≡ OutOfMemory };

    fn from(_e: AllocFailed<T>) -> DependsFault {
        DependsFault::OutOfMemory
    }
}
