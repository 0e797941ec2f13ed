//! What arrives of a folder or an archive.
ghost use Rattle.std.specs.Prelude.{◌≡◌, IfOk};
ghost use Rattle.machine_state.specs.declared.arrived.UpdateFault.TheVariants.{OutOfMemory};

use crate::refusal::Refusal;
use control_stanza::Text;
use package_list::PackageList;
use std::alloc::{AllocError, AllocFailed, Global};

/// What was read for a command.
#[derive(Drop)]
pub enum Arrived {
    /// Nothing was to be read.
    Nothing,
    /// These packages arrived.
    List {
        /// The packages, each complete.
        list: PackageList,
        /// The date that an archive states, one line; empty for a folder.
        date: Text,
    },
    /// What was read is refused so.
    Refused(Refusal),
}

impl Arrived {
    /// The same once more. Fails only for want of memory.
    pub fn copy(&self, alloc: Global) -> Result<Arrived, AllocError>
        ensures { IfOk result (λ made. made ≡ self.now) }
    {
        match self {
            Arrived::Nothing => Ok(Arrived::Nothing),
            Arrived::List { list, date } => Ok(Arrived::List {
                list: list.copy(alloc)?,
                date: date.copy(alloc)?,
            }),
            Arrived::Refused(refusal) => Ok(Arrived::Refused(refusal.copy(alloc)?)),
        }
    }
}

/// Why nothing arrived.
#[derive(Drop)]
pub enum UpdateFault {
    /// What was read is refused so.
    Refused(Refusal),
    /// A call of the host failed.
    HostFault,
    /// A call of the inbox failed.
    InboxFault,
    /// Memory was wanting.
    OutOfMemory,
}

impl UpdateFault {
    /// The same once more. Fails only for want of memory.
    pub fn copy(&self, alloc: Global) -> Result<UpdateFault, AllocError>
        ensures { IfOk result (λ made. made ≡ self.now) }
    {
        match self {
            UpdateFault::Refused(refusal) => Ok(UpdateFault::Refused(refusal.copy(alloc)?)),
            UpdateFault::HostFault => Ok(UpdateFault::HostFault),
            UpdateFault::InboxFault => Ok(UpdateFault::InboxFault),
            UpdateFault::OutOfMemory => Ok(UpdateFault::OutOfMemory),
        }
    }
}

impl From<AllocError> for UpdateFault {
    ghost from_gives = { λ _ fault. fault ≡ OutOfMemory };

    fn from(_error: AllocError) -> UpdateFault {
        UpdateFault::OutOfMemory
    }
}

impl<T: Drop> From<AllocFailed<T>> for UpdateFault {
    ghost from_gives = { λ _ fault. fault ≡ OutOfMemory };

    fn from(_error: AllocFailed<T>) -> UpdateFault {
        UpdateFault::OutOfMemory
    }
}
