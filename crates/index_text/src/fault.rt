//! Why an index was not read.
ghost use Rattle.std.specs.Prelude.{◌≡◌};
ghost use Rattle.index_text.specs.declared.fault.IndexFault.TheVariants.{OutOfMemory};
ghost use Rattle.index_text.specs.Index.{of_lines};

use control_stanza::StanzaFault;
use std::alloc::{AllocError, AllocFailed};

/// Why an index was not read.
#[derive(Clone, Copy, Debug, PartialEq, Eq)]
pub enum IndexFault {
    /// The text is no index. The line, counted from 1, is the first that can't stand where it stands in a text of
    /// stanzas; and where the text is made of stanzas, the first line of the first stanza that is no binary stanza or
    /// has a relation field that can't be read.
    At {
        /// The line.
        line: u64,
    },
    /// Memory ran out.
    OutOfMemory,
}

impl From<AllocError> for IndexFault {
    ghost from_gives = { λ _ e. e ≡ OutOfMemory };

    fn from(_: AllocError) -> IndexFault {
        IndexFault::OutOfMemory
    }
}

impl<T: Drop> From<AllocFailed<T>> for IndexFault {
    ghost from_gives = { λ _ e. e ≡ OutOfMemory };

    fn from(_: AllocFailed<T>) -> IndexFault {
        IndexFault::OutOfMemory
    }
}

impl From<StanzaFault> for IndexFault {
    ghost from_gives = { λ fault e. e ≡ of_lines fault };

    fn from(fault: StanzaFault) -> IndexFault {
        match fault {
            StanzaFault::At { line, .. } => IndexFault::At { line },
            StanzaFault::OutOfMemory => IndexFault::OutOfMemory,
        }
    }
}
