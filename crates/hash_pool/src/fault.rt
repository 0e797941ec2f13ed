// Why a file was not put into the pool.
ghost use Rattle.std.specs.Prelude.{◌≡◌};
ghost use Rattle.hash_pool.specs.declared.fault.PoolFault.TheVariants.{OutOfMemory};
ghost use Rattle.hash_pool.specs.Faults.{of_host, of_inbox};

use ap_host::{HostErr, InboxErr};
use digest_set::{Digits, What};
use std::alloc::{AllocError, AllocFailed};

/// Why a file was not put into the pool.
#[derive(Drop)]
pub enum PoolFault {
    /// The inbox hasn't the file.
    Absent,
    /// The first fact that was said of the file and found otherwise: as said, and as found.
    Mismatch(What, Digits, Digits),
    /// A call of the host failed.
    HostFault,
    /// A call of the inbox failed.
    InboxFault,
    /// Memory was wanting.
    OutOfMemory,
}

impl From<AllocError> for PoolFault {
    ghost from_gives = { λ _ fault. fault ≡ OutOfMemory };

    fn from(_error: AllocError) -> PoolFault {
        PoolFault::OutOfMemory
    }
}

impl<T: Drop> From<AllocFailed<T>> for PoolFault {
    ghost from_gives = { λ _ fault. fault ≡ OutOfMemory };

    fn from(_error: AllocFailed<T>) -> PoolFault {
        PoolFault::OutOfMemory
    }
}

impl From<HostErr> for PoolFault {
    ghost from_gives = { λ error fault. fault ≡ of_host error };

    fn from(error: HostErr) -> PoolFault {
        match error {
            HostErr::Failed => PoolFault::HostFault,
            HostErr::OutOfMemory => PoolFault::OutOfMemory,
        }
    }
}

impl From<InboxErr> for PoolFault {
    ghost from_gives = { λ error fault. fault ≡ of_inbox error };

    fn from(error: InboxErr) -> PoolFault {
        match error {
            InboxErr::Failed => PoolFault::InboxFault,
            InboxErr::OutOfMemory => PoolFault::OutOfMemory,
        }
    }
}
