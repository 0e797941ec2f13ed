// A folder of the file system, and how its files are read.
ghost use Rattle.std.specs.Prelude.{◌≤◌, length, IfOk};

use std::alloc::AllocError;
use std::fs::File;
use std::io::{ErrorKind, Read, Seek, SeekFrom};
use std::rt::Files;
use std::{fs, io};

/// A folder, by its path.
#[derive(Drop)]
pub struct Folder<'r, R: Files + AllocGlobal> {
    rt: &'r R,
    path: String,
}

/// All that lies below a folder, at any depth, by whole paths.
#[derive(Drop)]
pub struct Found {
    pub files: Vec<String>,
    pub folders: Vec<String>,
}

/// Whether there is nothing of that path.
pub fn is_absent(error: &io::Error) -> bool {
    match error.kind() {
        ErrorKind::NotFound | ErrorKind::NotADirectory => true,
        _ => false,
    }
}

impl<'r, R: Files<File = File> + AllocGlobal + Clone + Drop> Folder<'r, R> {
    pub fn new(rt: &'r R, path: &str) -> Result<Folder<'r, R>, AllocError> {
        Ok(Folder {
            rt,
            path: String::from_str(rt.alloc(), path)?,
        })
    }

    pub fn runtime(&self) -> &'r R {
        self.rt
    }

    pub fn path(&self) -> &str {
        self.path.as_str()
    }

    /// The whole path of what lies in the folder.
    pub fn below(&self, path: &str) -> Result<String, AllocError> {
        format!(in self.rt.alloc(); "{}/{}", self.path.as_str(), path)
    }

    /// The length of a file in bytes, none where there is none.
    pub fn length(&self, path: &str) -> io::Result<Option<u64>> {
        let path = self.below(path)?;
        match fs::metadata(self.rt, path.as_str()) {
            Ok(found) if found.is_file() => Ok(Some(found.len())),
            Ok(_) => Ok(None),
            Err(error) if is_absent(&error) => Ok(None),
            Err(error) => Err(error),
        }
    }

    /// Reads bytes from a place of a file on; says how many.
    pub fn read_at(&self, path: &str, at: u64, out: &mut [u8]) -> io::Result<usize>
        ensures { IfOk result (λ n. n ≤ length out.new) }
    {
        let path = self.below(path)?;
        let mut file = match fs::open(self.rt, path.as_str()) {
            Ok(file) => file,
            Err(error) if is_absent(&error) => return Ok(0),
            Err(error) => return Err(error),
        };
        file.seek(SeekFrom::Start(at))?;
        file.read(out)
    }

    /// Adds what lies in one folder to what was found. A name that is no text is left out.
    fn look_into(&self, folder: &str, found: &mut Found) -> io::Result<()> {
        let entries = match fs::read_dir(self.rt, folder) {
            Ok(entries) => entries,
            Err(error) if is_absent(&error) => return Ok(()),
            Err(error) => return Err(error),
        };
        for entry in entries {
            let entry = match entry {
                Ok(entry) => entry,
                Err(error) if error.kind() == ErrorKind::InvalidFilename => continue,
                Err(error) => return Err(error),
            };
            let path = format!(in self.rt.alloc(); "{}/{}", folder, entry.file_name())?;
            if entry.file_type()?.is_dir() {
                found.folders.push(path)?;
            } else {
                found.files.push(path)?;
            }
        }
        Ok(())
    }

    /// All that lies below a folder of this one, or below this one itself.
    pub fn walk(&self, start: String) -> io::Result<Found> {
        let alloc = self.rt.alloc();
        let mut found = Found {
            files: Vec::new(alloc),
            folders: Vec::new(alloc),
        };
        found.folders.push(start)?;
        for next in 0..usize::MAX {
            if next >= found.folders.len() {
                break;
            }
            let folder = String::from_str(alloc, found.folders[next].as_str())?;
            self.look_into(folder.as_str(), &mut found)?;
        }
        Ok(found)
    }
}
