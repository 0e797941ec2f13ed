//! Snapshots.
ghost use Rattle.std.specs.Prelude.{◌≡◌, IfOk};

use crate::copied::Copied;
use crate::named::Named;
use ap_text::Name;
use package_list::PackageList;
use std::alloc::{AllocError, Global};

/// A snapshot: packages that stay as they are.
#[derive(Drop)]
pub struct Snapshot {
    /// Its name.
    pub name: Name,
    /// Its packages.
    pub list: PackageList,
}

impl Snapshot {
    /// An equal snapshot; its packages are shared. Fails only for want of memory.
    pub fn copy(&self, alloc: Global) -> Result<Snapshot, AllocError>
        ensures { IfOk result (λ snapshot. snapshot ≡ self.now) }
    {
        Ok(Snapshot {
            name: self.name.copy(alloc)?,
            list: self.list.copy(alloc)?,
        })
    }
}

impl Named for Snapshot {
    ghost name_of = { λ snapshot. snapshot.name };

    fn name(&self) -> &Name {
        &self.name
    }
}

impl Copied for Snapshot {
    fn copied(&self, alloc: Global) -> Result<Snapshot, AllocError> {
        self.copy(alloc)
    }
}
