//! Why a Release was not read.
ghost use Rattle.std.specs.Prelude.{◌≡◌};
ghost use Rattle.release_file.specs.declared.fault.ReleaseFault.TheVariants.{OutOfMemory};
ghost use Rattle.release_file.specs.Release.{of_lines};

use control_stanza::StanzaFault;
use std::alloc::{AllocError, AllocFailed};

/// Why a Release was not read.
#[derive(Clone, Copy, Debug, PartialEq, Eq)]
pub enum ReleaseFault {
    /// The text is no Release. The line, counted from 1, is the first that can't stand where it stands in a text of
    /// stanzas; where the text is made of stanzas, it is 1.
    At {
        /// The line.
        line: u64,
    },
    /// Memory ran out.
    OutOfMemory,
}

impl ReleaseFault {
    /// The same fault once more.
    pub fn copy(&self) -> ReleaseFault
        ensures { result ≡ self.now }
    {
        *self
    }
}

impl From<AllocError> for ReleaseFault {
    ghost from_gives = { λ _ e. e ≡ OutOfMemory };

    fn from(_: AllocError) -> ReleaseFault {
        ReleaseFault::OutOfMemory
    }
}

impl<T: Drop> From<AllocFailed<T>> for ReleaseFault {
    ghost from_gives = { λ _ e. e ≡ OutOfMemory };

    fn from(_: AllocFailed<T>) -> ReleaseFault {
        ReleaseFault::OutOfMemory
    }
}

impl From<StanzaFault> for ReleaseFault {
    ghost from_gives = { λ fault e. e ≡ of_lines fault };

    fn from(fault: StanzaFault) -> ReleaseFault {
        match fault {
            StanzaFault::At { line, .. } => ReleaseFault::At { line },
            StanzaFault::OutOfMemory => ReleaseFault::OutOfMemory,
        }
    }
}
