// A folder of the file system as the inbox.
ghost use Rattle.std.specs.Prelude.{◌≡◌, ◌≤◌, None};
ghost use Rattle.ap_host.specs.Calls.{Rose};

use crate::folder::Folder;
use ap_host::{Inbox, InboxErr};
use ap_text::SafePath;
use std::alloc::AllocError;
use std::fs::File;
use std::io;
use std::io::ErrorKind;
use std::rt::Files;

/// A folder of the file system from which files are taken in, but for what lies in a store, below `aptly-store`. It tells
/// nothing of what it holds, and counts each call that fails.
#[derive(Drop)]
pub struct FolderInbox<'r, R: Files + AllocGlobal> {
    folder: Folder<'r, R>,
    faults: u64,
}

/// Whether the path is that of a store, or lies in it.
fn is_in_store(path: &SafePath) -> bool {
    match path.as_str().split_once('/') {
        Some((first, _)) => first == "aptly-store",
        None => path.as_str() == "aptly-store",
    }
}

impl<'r, R: Files<File = File> + AllocGlobal + Clone + Drop> FolderInbox<'r, R> {
    /// The files of this folder.
    pub fn new(rt: &'r R, folder: &str) -> Result<FolderInbox<'r, R>, AllocError> {
        Ok(FolderInbox {
            folder: Folder::new(rt, folder)?,
            faults: 0,
        })
    }

    /// Counts a fault.
    fn fault(&mut self, error: io::Error) -> InboxErr
        ensures later { self.old.faults ≤ self.new.faults }
        ensures rose { Rose self.old.faults self.new.faults }
    {
        self.faults = self.faults.saturating_add(1);
        match error.kind() {
            ErrorKind::OutOfMemory => InboxErr::OutOfMemory,
            _ => InboxErr::Failed,
        }
    }
}

impl<'r, R: Files<File = File> + AllocGlobal + Clone + Drop> Inbox for FolderInbox<'r, R> {
    ghost map = { λ i. None };

    ghost faults = { λ i. i.faults };

    fn length(&mut self, path: &SafePath) -> Result<Option<u64>, InboxErr> {
        if is_in_store(path) {
            return Ok(None);
        }
        match self.folder.length(path.as_str()) {
            Ok(length) => Ok(length),
            Err(error) => Err(self.fault(error)),
        }
    }

    fn read_at(&mut self, path: &SafePath, at: u64, out: &mut [u8]) -> Result<usize, InboxErr> {
        if is_in_store(path) {
            return Ok(0);
        }
        match self.folder.read_at(path.as_str(), at, out) {
            Ok(count) => Ok(count),
            Err(error) => Err(self.fault(error)),
        }
    }
}
