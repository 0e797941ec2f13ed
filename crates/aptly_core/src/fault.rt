//! Why a command broke off.
ghost use Rattle.std.specs.Prelude.{◌≡◌};
ghost use Rattle.aptly_core.specs.declared.fault.RunFault.TheVariants.{OutOfMemory};
ghost use Rattle.aptly_core.specs.Runs.{of_host};

use ap_host::HostErr;
use std::alloc::AllocError;

/// Why a command broke off.
#[derive(Clone, Copy, Debug, PartialEq, Eq)]
pub enum RunFault {
    /// A call of the host failed.
    HostFault,
    /// A call of the inbox failed.
    InboxFault,
    /// Memory was wanting.
    OutOfMemory,
}

impl From<AllocError> for RunFault {
    ghost from_gives = { λ _ fault. fault ≡ OutOfMemory };

    fn from(_error: AllocError) -> RunFault {
        RunFault::OutOfMemory
    }
}

impl From<HostErr> for RunFault {
    ghost from_gives = { λ error fault. fault ≡ of_host error };

    fn from(error: HostErr) -> RunFault {
        match error {
            HostErr::Failed => RunFault::HostFault,
            HostErr::OutOfMemory => RunFault::OutOfMemory,
        }
    }
}
