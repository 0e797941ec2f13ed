//! What an index describes.

use crate::answers::Answer;
use crate::packages::put_triple;
use ap_text::SafePath;
use index_text::IndexFault;
use package_core::Package;
use row_table::{put, put_at};
use std::alloc::AllocError;

/// How many packages there are, and each with its path in a line.
impl Answer for Vec<(Package, SafePath)> {
    fn put(&self, out: &mut String) -> Result<(), AllocError> {
        put_at(out, "packages ", self.len() as u64)?;
        for (package, path) in self.iter() {
            put(out, &["\n"])?;
            put_triple(out, package)?;
            put(
                out,
                &[" at ", path.as_str(), ", file ", package.file.as_str()],
            )?;
        }
        Ok(())
    }
}

impl Answer for IndexFault {
    fn put(&self, out: &mut String) -> Result<(), AllocError> {
        match self {
            IndexFault::At { line } => put_at(out, "line ", *line),
            IndexFault::OutOfMemory => out.push_str("out of memory"),
        }
    }
}
