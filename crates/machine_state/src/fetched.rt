//! What a mirror has of its archive.
ghost use Rattle.std.specs.Prelude.{◌≡◌, IfOk};

use crate::copied::Copied;
use control_stanza::Text;
use package_list::PackageList;
use std::alloc::{AllocError, Global};

/// What a mirror has of its archive, as it was last read.
#[derive(Drop)]
pub struct Fetched {
    /// The date that the archive states, kept as text: one line of at most 200 bytes, empty where it states none.
    pub date: Text,
    /// The packages.
    pub list: PackageList,
}

impl Fetched {
    /// The same once more; its packages are shared. Fails only for want of memory.
    pub fn copy(&self, alloc: Global) -> Result<Fetched, AllocError>
        ensures { IfOk result (λ made. made ≡ self.now) }
    {
        Ok(Fetched {
            date: self.date.copy(alloc)?,
            list: self.list.copy(alloc)?,
        })
    }
}

impl Copied for Fetched {
    fn copied(&self, alloc: Global) -> Result<Fetched, AllocError> {
        self.copy(alloc)
    }
}
