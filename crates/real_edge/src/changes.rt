// Which files and folders a barrier has to make sure.
use std::alloc::{AllocError, Global};

/// The files that were changed since the last barrier, by whole paths. Before the first barrier of a run it isn't known
/// which were.
#[derive(Drop)]
pub struct Changes {
    alloc: Global,
    files: Vec<String>,
    is_known: bool,
}

impl Changes {
    pub fn new(alloc: Global) -> Changes {
        Changes {
            alloc,
            files: Vec::new(alloc),
            is_known: false,
        }
    }

    /// Whether these are all changes since the last barrier.
    pub fn are_known(&self) -> bool {
        self.is_known
    }

    /// Marks a file. A file that is appended to piece by piece is marked once.
    pub fn mark(&mut self, file: &str) -> Result<(), AllocError> {
        if let Some(last) = self.files.last() {
            if last.as_str() == file {
                return Ok(());
            }
        }
        self.files.push(String::from_str(self.alloc, file)?)?;
        Ok(())
    }

    /// Everything is sure now.
    pub fn clear(&mut self) {
        self.files.clear();
        self.is_known = true;
    }

    /// The changed files, and the folders above them down from `root`, each once.
    pub fn touched(&self, root: &str) -> Result<Vec<String>, AllocError> {
        let mut paths = Vec::new(self.alloc);
        paths.push(String::from_str(self.alloc, root)?)?;
        for file in &self.files {
            push_with_folders(self.alloc, &mut paths, file.as_str(), root)?;
        }
        paths.sort()?;
        paths.dedup();
        Ok(paths)
    }
}

/// Adds a path and each folder above it that lies below `root`.
fn push_with_folders(
    alloc: Global,
    paths: &mut Vec<String>,
    file: &str,
    root: &str,
) -> Result<(), AllocError> {
    let mut path = file;
    for _ in 0..file.len() {
        if path.len() <= root.len() {
            break;
        }
        paths.push(String::from_str(alloc, path)?)?;
        match path.rsplit_once('/') {
            Some((folder, _)) => path = folder,
            None => break,
        }
    }
    Ok(())
}
