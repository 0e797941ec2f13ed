//! What is to be read for a command.
ghost use Rattle.std.specs.Prelude.{◌≡◌, IfOk};

use ap_text::{Name, SafePath};
use std::alloc::{AllocError, Global};

/// What is to be read for a command.
#[derive(Drop)]
pub enum Reading {
    /// Nothing.
    Nothing,
    /// The archive of the mirror of this name.
    Mirror(Name),
    /// A folder, for the repository of this name.
    Folder(Name, SafePath),
}

impl Reading {
    /// The same once more. Fails only for want of memory.
    pub fn copy(&self, alloc: Global) -> Result<Reading, AllocError>
        ensures { IfOk result (λ made. made ≡ self.now) }
    {
        match self {
            Reading::Nothing => Ok(Reading::Nothing),
            Reading::Mirror(name) => Ok(Reading::Mirror(name.copy(alloc)?)),
            Reading::Folder(name, path) => {
                Ok(Reading::Folder(name.copy(alloc)?, path.copy(alloc)?))
            }
        }
    }
}
