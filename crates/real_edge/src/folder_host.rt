// The store's folder and standard output as a host.
ghost use Rattle.std.specs.Prelude.{◌≡◌, ◌≤◌, None};
ghost use Rattle.ap_host.specs.Calls.{Rose};

use crate::store::Store;
use ap_host::{Host, HostErr};
use ap_text::SafePath;
use std::alloc::AllocError;
use std::fs::File;
use std::io;
use std::io::ErrorKind;
use std::rt::Files;

/// A store in a folder of the file system, with standard output for what is said. It tells nothing of what it holds: that
/// a real disk behaves as the disk model does is a premise. It counts each call that fails.
#[derive(Drop)]
pub struct FolderHost<'r, R: Files + Print + AllocGlobal> {
    store: Store<'r, R>,
    faults: u64,
}

impl<'r, R: Files<File = File> + Print + AllocGlobal + Clone + Drop> FolderHost<'r, R> {
    /// A store in this folder, which is made when the store is claimed.
    pub fn new(rt: &'r R, folder: &str) -> Result<FolderHost<'r, R>, AllocError> {
        Ok(FolderHost {
            store: Store::new(rt, folder)?,
            faults: 0,
        })
    }

    /// Counts a fault.
    fn fault(&mut self, error: io::Error) -> HostErr
        ensures later { self.old.faults ≤ self.new.faults }
        ensures rose { Rose self.old.faults self.new.faults }
    {
        self.faults = self.faults.saturating_add(1);
        match error.kind() {
            ErrorKind::OutOfMemory => HostErr::OutOfMemory,
            _ => HostErr::Failed,
        }
    }
}

impl<'r, R: Files<File = File> + Print + AllocGlobal + Clone + Drop> Host for FolderHost<'r, R> {
    ghost log = { λ h. None };

    ghost faults = { λ h. h.faults };

    fn claim(&mut self) -> Result<bool, HostErr> {
        match self.store.claim() {
            Ok(got) => Ok(got),
            Err(error) => Err(self.fault(error)),
        }
    }

    fn length(&mut self, path: &SafePath) -> Result<Option<u64>, HostErr> {
        match self.store.length(path) {
            Ok(length) => Ok(length),
            Err(error) => Err(self.fault(error)),
        }
    }

    fn read_at(&mut self, path: &SafePath, at: u64, out: &mut [u8]) -> Result<usize, HostErr> {
        match self.store.read_at(path, at, out) {
            Ok(count) => Ok(count),
            Err(error) => Err(self.fault(error)),
        }
    }

    fn names(&mut self, folder: &SafePath) -> Result<Vec<SafePath>, HostErr> {
        match self.store.names(folder) {
            Ok(names) => Ok(names),
            Err(error) => Err(self.fault(error)),
        }
    }

    fn create(&mut self, path: &SafePath) -> Result<(), HostErr> {
        match self.store.create(path) {
            Ok(()) => Ok(()),
            Err(error) => Err(self.fault(error)),
        }
    }

    fn append(&mut self, path: &SafePath, bytes: &[u8]) -> Result<(), HostErr> {
        match self.store.append(path, bytes) {
            Ok(()) => Ok(()),
            Err(error) => Err(self.fault(error)),
        }
    }

    fn sync(&mut self, path: &SafePath) -> Result<(), HostErr> {
        match self.store.sync(path) {
            Ok(()) => Ok(()),
            Err(error) => Err(self.fault(error)),
        }
    }

    fn rename(&mut self, from: &SafePath, to: &SafePath) -> Result<(), HostErr> {
        match self.store.rename(from, to) {
            Ok(()) => Ok(()),
            Err(error) => Err(self.fault(error)),
        }
    }

    fn remove(&mut self, path: &SafePath) -> Result<(), HostErr> {
        match self.store.remove(path) {
            Ok(()) => Ok(()),
            Err(error) => Err(self.fault(error)),
        }
    }

    fn barrier(&mut self) -> Result<(), HostErr> {
        match self.store.barrier() {
            Ok(()) => Ok(()),
            Err(error) => Err(self.fault(error)),
        }
    }

    fn say(&mut self, bytes: &[u8]) -> Result<(), HostErr> {
        match self.store.say(bytes) {
            Ok(()) => Ok(()),
            Err(error) => Err(self.fault(error)),
        }
    }
}
