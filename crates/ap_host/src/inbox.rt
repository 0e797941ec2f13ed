// The folder from which input comes.
ghost use Rattle.std.specs.Prelude.{◌≡◌, ◌≤◌, ℕ, length, Option, IfOk, option_map};
ghost use Rattle.std.specs.Option.{ForSome};
ghost use Rattle.ap_host.specs.declared.inbox.InboxErr.TheVariants.{OutOfMemory};
ghost use Rattle.ap_host.specs.Disk.{Files};
ghost use Rattle.ap_host.specs.Calls.{HasInboxCause, Reads};

use ap_text::SafePath;
use std::alloc::{AllocError, AllocFailed};

/// What keeps a call of an inbox from its answer: the folder failed, and the count of faults rose, or memory is wanting.
#[derive(Clone, Copy, Debug, PartialEq, Eq)]
pub enum InboxErr {
    Failed,
    OutOfMemory,
}

impl From<AllocError> for InboxErr {
    ghost from_gives = { λ _ e. e ≡ OutOfMemory };

    fn from(_: AllocError) -> Self {
        InboxErr::OutOfMemory
    }
}

impl<T: Drop> From<AllocFailed<T>> for InboxErr {
    ghost from_gives = { λ _ e. e ≡ OutOfMemory };

    fn from(_: AllocFailed<T>) -> Self {
        InboxErr::OutOfMemory
    }
}

/// The files that can be taken in. No call changes them.
pub trait Inbox {
    /// The files, if the inbox tells them.
    ghost map: { Self → Option Files };

    /// How often a call has failed. It never falls.
    ghost faults: { Self → ℕ };

    /// The length of a file in bytes, none where there is no file.
    fn length(&mut self, path: &SafePath) -> Result<Option<u64>, InboxErr>
        ensures length { IfOk result (λ n. ForSome (map self.old) (λ f. n ≡ option_map length (f path.now))) }
        ensures map { map self.new ≡ map self.old }
        ensures cause { HasInboxCause (faults self.old) (faults self.new) result };

    /// Reads bytes from a place on, at least one where the file has one and there is room for it; says how many.
    fn read_at(&mut self, path: &SafePath, at: u64, out: &mut [u8]) -> Result<usize, InboxErr>
        ensures bound { IfOk result (λ n. n ≤ length out.new) }
        ensures read { IfOk result (λ n. ForSome (map self.old) (λ f. Reads (f path.now) at out.new n)) }
        ensures map { map self.new ≡ map self.old }
        ensures cause { HasInboxCause (faults self.old) (faults self.new) result };
}
