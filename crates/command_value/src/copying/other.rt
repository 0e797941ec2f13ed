//! Copies of commands of packages and of the store.
ghost use Rattle.std.specs.Prelude.{◌≡◌, IfOk};
ghost use Rattle.command_value.specs.Plain.{plain};

use crate::command::Command;
use std::alloc::{AllocError, Global};

/// A copy of a command of packages or of the store: of the last families, so no other comes.
pub(super) fn copy_other(alloc: Global, command: &Command) -> Result<Command, AllocError>
    ensures { IfOk result (λ made. plain made ≡ plain command.now) }
{
    match command {
        Command::PackageSearch { query } => Ok(Command::PackageSearch {
            query: query.copy(alloc)?,
        }),
        Command::PackageShow { query } => Ok(Command::PackageShow {
            query: query.copy(alloc)?,
        }),
        Command::DbCleanup => Ok(Command::DbCleanup),
        _ => Err(AllocError),
    }
}
