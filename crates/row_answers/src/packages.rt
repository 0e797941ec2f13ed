//! Packages, and why a stanza is none.

use crate::answers::Answer;
use crate::digests::put_difference;
use ap_text::SafePath;
use package_core::{CompleteFault, Package, PackageFault, Required};
use row_table::put;
use std::alloc::AllocError;

fn required_text(field: Required) -> &'static str {
    match field {
        Required::NameField => "missing Package",
        Required::VersionField => "missing Version",
        Required::ArchitectureField => "missing Architecture",
        Required::FilenameField => "missing Filename",
        Required::SizeField => "missing Size",
        Required::Sha256Field => "missing SHA256",
    }
}

fn fault_text(fault: PackageFault) -> &'static str {
    match fault {
        PackageFault::Missing(field) => required_text(field),
        PackageFault::BadName => "bad name",
        PackageFault::BadVersion => "bad version",
        PackageFault::BadArchitecture => "bad architecture",
        PackageFault::BadSource => "bad source",
        PackageFault::BadPath => "bad path",
        PackageFault::BadNumber => "bad number",
        PackageFault::BadDigest => "bad digest",
        PackageFault::OutOfMemory => "out of memory",
    }
}

impl Answer for PackageFault {
    fn put(&self, out: &mut String) -> Result<(), AllocError> {
        out.push_str(fault_text(*self))
    }
}

/// `name_version_arch`, the path, the file's name, and the source.
impl Answer for (Package, SafePath) {
    fn put(&self, out: &mut String) -> Result<(), AllocError> {
        put_triple(out, &self.0)?;
        let (source, version) = self.0.source();
        put(
            out,
            &[" at ", self.1.as_str(), ", file ", self.0.file.as_str()],
        )?;
        put(out, &[", source ", source, " ", version])
    }
}

/// `name_version_arch`.
pub fn put_triple(out: &mut String, package: &Package) -> Result<(), AllocError> {
    let triple = package.triple(*out.allocator())?;
    out.push_str(triple.as_str())
}

/// The package that is held last.
pub fn put_held(out: &mut String, packages: &[Package]) -> Result<(), AllocError> {
    put(out, &["held "])?;
    match packages.last() {
        Some(package) => put_triple(out, package),
        None => Ok(()),
    }
}

impl Answer for CompleteFault {
    fn put(&self, out: &mut String) -> Result<(), AllocError> {
        match self {
            CompleteFault::Differs(what, said, found) => put_difference(out, *what, said, found),
            CompleteFault::OutOfMemory => out.push_str("out of memory"),
        }
    }
}

/// Puts the text of a package as it is stored.
pub fn put_text(out: &mut String, package: &Package) -> Result<(), AllocError> {
    let text = package.text(*out.allocator())?;
    out.push_str(text.as_str())
}
