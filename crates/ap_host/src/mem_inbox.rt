// An inbox in memory.
ghost use Rattle.std.specs.Prelude.{◌≡◌, ◌≤◌, length, Some, IfOk, IsErrOf, option_map};
ghost use Rattle.ap_host.specs.declared.inbox.InboxErr.TheVariants.{Failed, OutOfMemory};
ghost use Rattle.ap_host.specs.Calls.{HasInboxCause, Reads};
ghost use Rattle.ap_host.specs.Table.{files_of, IsOnce};
ghost use Rattle.ap_host.specs.Ordinals.{FailsInTurn};
ghost use Rattle.ap_host.specs.Mem.{waited};

use crate::bytes::Bytes;
use crate::inbox::{Inbox, InboxErr};
use crate::ordinals::Ordinals;
use crate::table::{length_of, read_file};
use ap_text::SafePath;
use std::marker::Model;

/// An inbox in memory. It tells its files; the calls at given ordinals fail, as those of a real disk may.
#[derive(Drop)]
pub struct MemInbox {
    files: Vec<(SafePath, Bytes)>,
    calls: Ordinals,
}

impl Model for MemInbox {
    ghost use Rattle.ap_host.specs.Mem.{InboxState};
    ghost use Rattle.ap_host.specs.Table.{IsOnce};

    ghost Value = { InboxState };

    ghost view = { λ m. record { files = m.files.items; calls = m.calls } };

    ghost invariant = { λ m. IsOnce m.files.items };
}

impl MemInbox {
    /// An inbox with these files, each path once. The calls whose ordinals are in `failing`, counted from 0 over all
    /// calls, fail.
    pub fn new(files: Vec<(SafePath, Bytes)>, failing: Vec<u64>) -> MemInbox
        requires { IsOnce files.items }
        ensures { result ≡ record { files = files.items; calls = record { failing = failing.items; next = 0; faults = 0 } } }
    {
        MemInbox {
            files,
            calls: Ordinals::new(failing),
        }
    }

    /// How many calls have failed so far.
    pub fn faults(&self) -> u64
        ensures { result ≡ self.now.calls.faults }
    {
        self.calls.faults()
    }
}

impl Inbox for MemInbox {
    ghost map = { λ m. Some (files_of m.files) };

    ghost faults = { λ m. m.calls.faults };

    fn length(&mut self, path: &SafePath) -> Result<Option<u64>, InboxErr>
        ensures length { IfOk result (λ n. n ≡ option_map length (files_of self.old.files path.now)) }
        ensures cause { HasInboxCause self.old.calls.faults self.new.calls.faults result }
        ensures turn { FailsInTurn Failed result self.old.calls }
        ensures state { self.new ≡ waited self.old }
        ensures memory { IsErrOf result OutOfMemory → ⊥ }
    {
        if self.calls.fails() {
            return Err(InboxErr::Failed);
        }
        Ok(length_of(&self.files, path))
    }

    fn read_at(&mut self, path: &SafePath, at: u64, out: &mut [u8]) -> Result<usize, InboxErr>
        ensures bound { IfOk result (λ n. n ≤ length out.new) }
        ensures read { IfOk result (λ n. Reads (files_of self.old.files path.now) at out.new n) }
        ensures cause { HasInboxCause self.old.calls.faults self.new.calls.faults result }
        ensures turn { FailsInTurn Failed result self.old.calls }
        ensures state { self.new ≡ waited self.old }
        ensures memory { IsErrOf result OutOfMemory → ⊥ }
    {
        if self.calls.fails() {
            return Err(InboxErr::Failed);
        }
        Ok(read_file(&self.files, path, at, out))
    }
}
