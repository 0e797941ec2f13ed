//! Why a list refuses.
ghost use Rattle.std.specs.Prelude.{◌≡◌, IfOk};
ghost use Rattle.package_list.specs.declared.fault.ListFault.TheVariants.{OutOfMemory};

use control_stanza::Text;
use std::alloc::{AllocError, AllocFailed, Global};

/// Why a list refuses a package or a further list: the first that holds, in this order.
#[derive(Drop)]
pub enum ListFault {
    /// A package has the name, version and architecture of another member and differs from it: its `name_version_arch`.
    Conflict(Text),
    /// The list would have more members than it may have.
    Full,
    /// Memory ran out.
    OutOfMemory,
}

impl ListFault {
    /// The same fault once more. Fails only for want of memory.
    pub fn copy(&self, alloc: Global) -> Result<ListFault, AllocError>
        ensures { IfOk result (λ copy. copy ≡ self.now) }
    {
        match self {
            ListFault::Conflict(triple) => Ok(ListFault::Conflict(triple.copy(alloc)?)),
            ListFault::Full => Ok(ListFault::Full),
            ListFault::OutOfMemory => Ok(ListFault::OutOfMemory),
        }
    }
}

impl From<AllocError> for ListFault {
    ghost from_gives = { λ _ e. e ≡ OutOfMemory };

    fn from(_e: AllocError) -> ListFault {
        ListFault::OutOfMemory
    }
}

impl<T: Drop> From<AllocFailed<T>> for ListFault {
    ghost from_gives = { λ _ e. e ≡ OutOfMemory };

    fn from(_e: AllocFailed<T>) -> ListFault {
        ListFault::OutOfMemory
    }
}
