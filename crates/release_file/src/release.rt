//! What a Release says.
ghost use Rattle.std.specs.Prelude.{◌≡◌, IfOk};

use crate::listing::Listed;
use ap_text::Name;
use control_stanza::Text;
use std::alloc::{AllocError, Global};
use std::marker::Model;

/// What a Release says of an archive (the Debian repository format). Contracts see its lists as lists.
#[derive(Drop)]
pub struct Release {
    /// The field Date, kept as text: one line of at most 200 bytes, empty where there is none.
    pub date: Text,
    /// The components, each without what stands before its last slash, in the order of their bytes, none twice.
    pub components: Vec<Name>,
    /// The architectures, without `all` and `source`, in the order of their bytes, none twice.
    pub architectures: Vec<Name>,
    /// The files of the field SHA256 in its order, no path twice.
    pub files: Vec<Listed>,
}

impl Model for Release {
    ghost use Rattle.release_file.specs.Release.{ReleaseView};

    ghost Value = { ReleaseView };

    ghost view = { λ r. record { date = r.date; components = r.components.items; architectures = r.architectures.items; files = r.files.items } };
}

fn copy_names(alloc: Global, names: &[Name]) -> Result<Vec<Name>, AllocError>
    ensures { IfOk result (λ v. v.items ≡ names.now) }
{
    let mut copies = Vec::with_capacity(alloc, names.len())?;
    for name in names {
        copies.push(name.copy(alloc)?)?;
    }
    Ok(copies)
}

fn copy_files(alloc: Global, files: &[Listed]) -> Result<Vec<Listed>, AllocError>
    ensures { IfOk result (λ v. v.items ≡ files.now) }
{
    let mut copies = Vec::with_capacity(alloc, files.len())?;
    for file in files {
        copies.push(file.copy(alloc)?)?;
    }
    Ok(copies)
}

impl Release {
    /// The same once more. Fails only for want of memory.
    pub fn copy(&self, alloc: Global) -> Result<Release, AllocError>
        ensures { IfOk result (λ release. release ≡ self.now) }
    {
        Ok(Release {
            date: self.date.copy(alloc)?,
            components: copy_names(alloc, &self.components)?,
            architectures: copy_names(alloc, &self.architectures)?,
            files: copy_files(alloc, &self.files)?,
        })
    }
}
