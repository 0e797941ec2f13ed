// The store's folder and the output are one object, so that file operations and replies stand in one log.
ghost use Rattle.std.specs.Prelude.{◌≡◌, ◌<◌, ◌≤◌, ℕ, [], ◌∷◌, length, take, drop, Option, IsSome, IfOk, OnErr, option_map};
ghost use Rattle.std.specs.Option.{ForSome};
ghost use Rattle.ap_host.specs.declared.host.HostErr.TheVariants.{OutOfMemory};
ghost use Rattle.ap_host.specs.declared.host.Op.TheVariants.{Create, Append, Sync, Rename, Remove, Barrier, Say, Claim};
ghost use Rattle.ap_host.specs.Disk.{Log, live_of};
ghost use Rattle.ap_host.specs.Names.{NamesOf};
ghost use Rattle.ap_host.specs.Calls.{Added, Does, HasCause, Reads};

use crate::bytes::Bytes;
use ap_text::SafePath;
use std::alloc::{AllocError, AllocFailed};

/// What keeps a call of a host from its answer.
#[derive(Clone, Copy, Debug, PartialEq, Eq)]
pub enum HostErr {
    /// The folder or the output failed, and the count of faults rose.
    Failed,
    OutOfMemory,
}

impl From<AllocError> for HostErr {
    ghost from_gives = { λ _ e. e ≡ OutOfMemory };

    fn from(_: AllocError) -> Self {
        HostErr::OutOfMemory
    }
}

impl<T: Drop> From<AllocFailed<T>> for HostErr {
    ghost from_gives = { λ _ e. e ≡ OutOfMemory };

    fn from(_: AllocFailed<T>) -> Self {
        HostErr::OutOfMemory
    }
}

/// One thing that is done to the store's folder or its output.
#[derive(Drop)]
pub enum Op {
    /// An empty file is there, whether or not there was one.
    Create(SafePath),
    /// These bytes are added at the file's end.
    Append(SafePath, Bytes),
    /// What the file holds is made sure, but not that it is there.
    Sync(SafePath),
    /// The first file has the second path, in place of what was there.
    Rename(SafePath, SafePath),
    /// The file is gone.
    Remove(SafePath),
    /// Everything that reads give is made sure.
    Barrier,
    /// These bytes are written to the output.
    Say(Bytes),
    /// Whether this run has the store for itself.
    Claim(bool),
}

/// The store's folder and the output, as one object. A host that tells its log is the model that statements about stops
/// speak of; on a host that tells none, as a real disk, they are premises.
///
/// `Failed` comes only where the count of faults rose in the call, or stands at its end, 2^64 - 1. A failed call may have
/// done its operation, of an append or a say also a first part of its bytes; a failed claim, sync or barrier did nothing.
/// A call that finds no memory did nothing.
pub trait Host {
    /// What was there at first, and all operations since, if the host tells.
    ghost log: { Self → Option Log };

    /// How often a call has failed. It never falls.
    ghost faults: { Self → ℕ };

    /// Takes the store for this run, if no other run has it; says whether it did.
    fn claim(&mut self) -> Result<bool, HostErr>
        ensures log { IfOk result (λ got. Added (Claim got ∷ []) (log self.old) (log self.new)) }
        ensures err { OnErr result (Added [] (log self.old) (log self.new)) }
        ensures cause { HasCause (faults self.old) (faults self.new) result };

    /// The length of a file in bytes, none where there is no file.
    fn length(&mut self, path: &SafePath) -> Result<Option<u64>, HostErr>
        ensures length { IfOk result (λ n. ForSome (log self.old) (λ l. n ≡ option_map length (live_of l path.now))) }
        ensures log { log self.new ≡ log self.old }
        ensures cause { HasCause (faults self.old) (faults self.new) result };

    /// Reads bytes from a place on, at least one where the file has one and there is room for it; says how many. It gives 0
    /// where there is no file, or the place is at its end or behind it.
    fn read_at(&mut self, path: &SafePath, at: u64, out: &mut [u8]) -> Result<usize, HostErr>
        ensures bound { IfOk result (λ n. n ≤ length out.new) }
        ensures read { IfOk result (λ n. ForSome (log self.old) (λ l. Reads (live_of l path.now) at out.new n)) }
        ensures log { log self.new ≡ log self.old }
        ensures cause { HasCause (faults self.old) (faults self.new) result };

    /// All files below a folder, at any depth, in the order of their paths' bytes.
    fn names(&mut self, folder: &SafePath) -> Result<Vec<SafePath>, HostErr>
        ensures names { IfOk result (λ v. ForSome (log self.old) (λ l. NamesOf folder.now (live_of l) v.items)) }
        ensures log { log self.new ≡ log self.old }
        ensures cause { HasCause (faults self.old) (faults self.new) result };

    /// Makes an empty file, whether or not there was one.
    fn create(&mut self, path: &SafePath) -> Result<(), HostErr>
        ensures log { Does (Create path.now) result (log self.old) (log self.new) }
        ensures cause { HasCause (faults self.old) (faults self.new) result };

    /// Adds bytes at the end of a file, which is there.
    fn append(&mut self, path: &SafePath, bytes: &[u8]) -> Result<(), HostErr>
        requires { ForSome (log self.old) (λ l. IsSome (live_of l path.now)) }
        ensures log { Does (Append path.now bytes.now) result (log self.old) (log self.new) }
        ensures cause { HasCause (faults self.old) (faults self.new) result };

    /// Makes sure what a file, which is there, holds; a stop may still take the file away.
    fn sync(&mut self, path: &SafePath) -> Result<(), HostErr>
        requires { ForSome (log self.old) (λ l. IsSome (live_of l path.now)) }
        ensures log { Does (Sync path.now) result (log self.old) (log self.new) }
        ensures cause { HasCause (faults self.old) (faults self.new) result };

    /// Gives a file, which is there, another path, in place of what was there.
    fn rename(&mut self, from: &SafePath, to: &SafePath) -> Result<(), HostErr>
        requires { ForSome (log self.old) (λ l. IsSome (live_of l from.now)) }
        ensures log { Does (Rename from.now to.now) result (log self.old) (log self.new) }
        ensures cause { HasCause (faults self.old) (faults self.new) result };

    /// Takes a file, which is there, away.
    fn remove(&mut self, path: &SafePath) -> Result<(), HostErr>
        requires { ForSome (log self.old) (λ l. IsSome (live_of l path.now)) }
        ensures log { Does (Remove path.now) result (log self.old) (log self.new) }
        ensures cause { HasCause (faults self.old) (faults self.new) result };

    /// Makes sure all that reads give: after it a stop changes nothing.
    fn barrier(&mut self) -> Result<(), HostErr>
        ensures log { Does Barrier result (log self.old) (log self.new) }
        ensures cause { HasCause (faults self.old) (faults self.new) result };

    /// Writes bytes to the output.
    fn say(&mut self, bytes: &[u8]) -> Result<(), HostErr>
        ensures log { Does (Say bytes.now) result (log self.old) (log self.new) }
        ensures cause { HasCause (faults self.old) (faults self.new) result };
}
