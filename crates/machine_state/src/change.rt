//! What a command changes.
ghost use Rattle.std.specs.Prelude.{◌≡◌, IfOk};
ghost use Rattle.machine_state.specs.declared.change.ChangeFault.TheVariants.{OutOfMemory};

use crate::refusal::Refusal;
use crate::state::State;
use control_stanza::Text;
use std::alloc::{AllocError, AllocFailed, Global};

/// What a command comes to that isn't refused.
#[derive(Drop)]
pub struct Change {
    /// The new state, or none where the state stays as it was.
    pub state: Option<State>,
    /// What is said: whole lines, at least one.
    pub reply: Text,
}

impl Change {
    /// The same once more. Fails only for want of memory.
    pub fn copy(&self, alloc: Global) -> Result<Change, AllocError>
        ensures { IfOk result (λ made. made ≡ self.now) }
    {
        let state = match &self.state {
            None => None,
            Some(state) => Some(state.copy(alloc)?),
        };
        Ok(Change {
            state,
            reply: self.reply.copy(alloc)?,
        })
    }
}

/// Why a command changes nothing.
#[derive(Drop)]
pub enum ChangeFault {
    /// It is refused so.
    Refused(Refusal),
    /// Memory was wanting.
    OutOfMemory,
}

impl ChangeFault {
    /// The same once more. Fails only for want of memory.
    pub fn copy(&self, alloc: Global) -> Result<ChangeFault, AllocError>
        ensures { IfOk result (λ made. made ≡ self.now) }
    {
        match self {
            ChangeFault::Refused(refusal) => Ok(ChangeFault::Refused(refusal.copy(alloc)?)),
            ChangeFault::OutOfMemory => Ok(ChangeFault::OutOfMemory),
        }
    }
}

impl From<AllocError> for ChangeFault {
    ghost from_gives = { λ _ fault. fault ≡ OutOfMemory };

    fn from(_error: AllocError) -> ChangeFault {
        ChangeFault::OutOfMemory
    }
}

impl<T: Drop> From<AllocFailed<T>> for ChangeFault {
    ghost from_gives = { λ _ fault. fault ≡ OutOfMemory };

    fn from(_error: AllocFailed<T>) -> ChangeFault {
        ChangeFault::OutOfMemory
    }
}
