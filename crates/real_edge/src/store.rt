// A store in a folder of the file system, and standard output.
ghost use Rattle.std.specs.Prelude.{◌≤◌, length, IfOk};

use crate::changes::Changes;
use crate::folder::{Folder, is_absent};
use ap_text::{SafePath, TextFault};
use std::alloc::AllocError;
use std::fs::{File, OpenOptions, TryLockError};
use std::io::{ErrorKind, Write};
use std::rt::Files;
use std::{fs, io};

/// A store. Each call leaves its mark on what the next barrier has to make sure.
#[derive(Drop)]
pub struct Store<'r, R: Files + Print + AllocGlobal> {
    folder: Folder<'r, R>,
    lock: Option<File>,
    changes: Changes,
}

/// The folder above one.
fn folder_above(path: &str) -> &str {
    match path.rsplit_once('/') {
        Some((folder, _)) if folder.is_empty() => "/",
        Some((folder, _)) => folder,
        None => ".",
    }
}

impl<'r, R: Files<File = File> + Print + AllocGlobal + Clone + Drop> Store<'r, R> {
    pub fn new(rt: &'r R, folder: &str) -> Result<Store<'r, R>, AllocError> {
        Ok(Store {
            folder: Folder::new(rt, folder)?,
            lock: None,
            changes: Changes::new(rt.alloc()),
        })
    }

    pub fn length(&self, path: &SafePath) -> io::Result<Option<u64>> {
        self.folder.length(path.as_str())
    }

    pub fn read_at(&self, path: &SafePath, at: u64, out: &mut [u8]) -> io::Result<usize>
        ensures { IfOk result (λ n. n ≤ length out.new) }
    {
        self.folder.read_at(path.as_str(), at, out)
    }

    /// Takes the lock of the store, a file that belongs to no map, for as long as this value lives.
    pub fn claim(&mut self) -> io::Result<bool> {
        if self.lock.is_some() {
            return Ok(true);
        }
        let rt = self.folder.runtime();
        fs::create_dir_all(rt, self.folder.path())?;
        let path = self.folder.below("lock")?;
        let file = OpenOptions::new()
            .read(true)
            .write(true)
            .create(true)
            .open(rt, path.as_str())?;
        match file.try_lock() {
            Ok(()) => {
                self.lock = Some(file);
                Ok(true)
            }
            Err(TryLockError::WouldBlock) => Ok(false),
            Err(TryLockError::Error(error)) => Err(error),
        }
    }

    /// Marks a path of the store, and gives it whole.
    fn mark(&mut self, path: &SafePath) -> Result<String, AllocError> {
        let path = self.folder.below(path.as_str())?;
        self.changes.mark(path.as_str())?;
        Ok(path)
    }

    pub fn create(&mut self, path: &SafePath) -> io::Result<()> {
        let path = self.mark(path)?;
        let rt = self.folder.runtime();
        fs::create_dir_all(rt, folder_above(path.as_str()))?;
        let _file = fs::create(rt, path.as_str())?;
        Ok(())
    }

    pub fn append(&mut self, path: &SafePath, bytes: &[u8]) -> io::Result<()> {
        let path = self.mark(path)?;
        let mut file = OpenOptions::new()
            .append(true)
            .open(self.folder.runtime(), path.as_str())?;
        file.write_all(bytes)
    }

    pub fn sync(&mut self, path: &SafePath) -> io::Result<()> {
        let path = self.folder.below(path.as_str())?;
        fs::open(self.folder.runtime(), path.as_str())?.sync_all()
    }

    pub fn rename(&mut self, from: &SafePath, to: &SafePath) -> io::Result<()> {
        let from = self.mark(from)?;
        let to = self.mark(to)?;
        let rt = self.folder.runtime();
        fs::create_dir_all(rt, folder_above(to.as_str()))?;
        fs::rename(rt, from.as_str(), to.as_str())
    }

    pub fn remove(&mut self, path: &SafePath) -> io::Result<()> {
        let path = self.mark(path)?;
        fs::remove_file(self.folder.runtime(), path.as_str())
    }

    /// The safe paths of all files below a folder, by bytes.
    pub fn names(&self, folder: &SafePath) -> io::Result<Vec<SafePath>> {
        let alloc = self.folder.runtime().alloc();
        let mut files = self.folder.walk(self.folder.below(folder.as_str())?)?.files;
        files.sort()?;
        let mut names = Vec::new(alloc);
        for file in &files {
            if let Some(name) = file.as_str().get(self.folder.path().len() + 1..) {
                match SafePath::new(alloc, name) {
                    Ok(name) => names.push(name)?,
                    Err(TextFault::OutOfMemory) => return Err(io::Error::from(AllocError)),
                    Err(_) => {}
                }
            }
        }
        Ok(names)
    }

    /// Makes a file or a folder sure, if it is there.
    fn make_sure(&self, path: &str) -> io::Result<()> {
        match fs::open(self.folder.runtime(), path) {
            Ok(file) => file.sync_all(),
            Err(error) if is_absent(&error) => Ok(()),
            Err(error) => Err(error),
        }
    }

    fn make_all_sure(&self, paths: &[String]) -> io::Result<()> {
        for path in paths {
            self.make_sure(path.as_str())?;
        }
        Ok(())
    }

    /// Makes sure all that is there, and that the store's own folder is.
    fn make_whole_sure(&self) -> io::Result<()> {
        let root = String::from_str(self.folder.runtime().alloc(), self.folder.path())?;
        let found = self.folder.walk(root)?;
        self.make_all_sure(&found.files)?;
        self.make_all_sure(&found.folders)?;
        self.make_sure(folder_above(self.folder.path()))
    }

    fn make_changes_sure(&self) -> io::Result<()> {
        let touched = self.changes.touched(self.folder.path())?;
        self.make_all_sure(&touched)
    }

    /// Makes sure what was changed since the last barrier; at the first one all that is there.
    pub fn barrier(&mut self) -> io::Result<()> {
        if self.changes.are_known() {
            self.make_changes_sure()?;
        } else {
            self.make_whole_sure()?;
        }
        self.changes.clear();
        Ok(())
    }

    pub fn say(&mut self, bytes: &[u8]) -> io::Result<()> {
        let mut out = io::writer(self.folder.runtime());
        out.write_all(bytes)?;
        out.flush()
    }
}
