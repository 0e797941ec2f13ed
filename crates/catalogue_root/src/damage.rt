//! What is wrong in a store, and why it gives no state.
ghost use Rattle.std.specs.Prelude.{◌≡◌};
ghost use Rattle.catalogue_root.specs.declared.damage.LoadFault.TheVariants.{OutOfMemory};
ghost use Rattle.catalogue_root.specs.Loads.{of_host};

use ap_host::HostErr;
use ap_text::SafePath;
use std::alloc::AllocError;

/// What is wrong in a store that stands for no state.
#[derive(Drop)]
pub enum Damage {
    /// A file isn't there.
    Missing {
        /// The file's path.
        path: SafePath,
    },
    /// A file has another length than is said of it.
    Size {
        /// The file's path.
        path: SafePath,
        /// The length that is said, in bytes.
        said: u64,
        /// The length that was found, in bytes.
        found: u64,
    },
    /// A file has another SHA-256 than is said of it.
    Digest {
        /// The file's path.
        path: SafePath,
        /// The digest that is said.
        said: [u8; 32],
        /// The digest that was found.
        found: [u8; 32],
    },
    /// A line of a file can't stand where it stands.
    Unreadable {
        /// The file's path.
        path: SafePath,
        /// The number of the first such line, from 1. The end of the file counts as the next line.
        line: u64,
    },
}

/// Why a store gives no state.
#[derive(Drop)]
pub enum LoadFault {
    /// What the store holds stands for no state.
    Damaged(Damage),
    /// A call of the host failed.
    HostFault,
    /// Memory was wanting.
    OutOfMemory,
}

impl From<AllocError> for LoadFault {
    ghost from_gives = { λ _ fault. fault ≡ OutOfMemory };

    fn from(_error: AllocError) -> LoadFault {
        LoadFault::OutOfMemory
    }
}

impl From<HostErr> for LoadFault {
    ghost from_gives = { λ error fault. fault ≡ of_host error };

    fn from(error: HostErr) -> LoadFault {
        match error {
            HostErr::Failed => LoadFault::HostFault,
            HostErr::OutOfMemory => LoadFault::OutOfMemory,
        }
    }
}
