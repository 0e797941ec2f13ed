//! Why a stanza is no package, and why a file is not the package's.
ghost use Rattle.std.specs.Prelude.{◌≡◌, IfOk};
ghost use Rattle.package_core.specs.declared.fault.PackageFault.TheVariants as package_faults;
ghost use Rattle.package_core.specs.declared.fault.CompleteFault.TheVariants as complete_faults;

use digest_set::{Digits, What};
use std::alloc::{AllocError, Global};

/// A field that each binary stanza has, in the order in which they are looked for.
#[derive(Clone, Copy, Debug, PartialEq, Eq)]
pub enum Required {
    /// `Package`.
    NameField,
    /// `Version`.
    VersionField,
    /// `Architecture`.
    ArchitectureField,
    /// `Filename`.
    FilenameField,
    /// `Size`.
    SizeField,
    /// `SHA256`.
    Sha256Field,
}

/// Why a stanza is no binary stanza: the first that holds, in this order.
#[derive(Clone, Copy, Debug, PartialEq, Eq)]
pub enum PackageFault {
    /// The field isn't there. One that is there and empty has one of the other faults.
    Missing(Required),
    /// `Package` is no package name.
    BadName,
    /// `Version` is no version.
    BadVersion,
    /// `Architecture` is no name, or is `source`.
    BadArchitecture,
    /// `Source` is there, and is neither a package name nor one with a version in parentheses behind it.
    BadSource,
    /// `Filename`, without `./` in front, is no safe path of at most 700 bytes.
    BadPath,
    /// `Size` is no decimal number below 2^64 without leading zeros.
    BadNumber,
    /// `SHA256` hasn't 64 hexadecimal digits, or `SHA1` is there and hasn't 40, or `MD5sum` is there and hasn't 32.
    BadDigest,
    /// Memory ran out.
    OutOfMemory,
}

/// Why a package was not completed.
#[derive(Drop)]
pub enum CompleteFault {
    /// The first fact that was said of the file and found otherwise: as said, and as found.
    Differs(What, Digits, Digits),
    /// Memory ran out.
    OutOfMemory,
}

impl Required {
    /// The same field once more.
    pub fn copy(&self) -> Required
        ensures { result ≡ self.now }
    {
        *self
    }
}

impl PackageFault {
    /// The same fault once more.
    pub fn copy(&self) -> PackageFault
        ensures { result ≡ self.now }
    {
        *self
    }
}

impl CompleteFault {
    /// The same fault once more. Fails only for want of memory.
    pub fn copy(&self, alloc: Global) -> Result<CompleteFault, AllocError>
        ensures { IfOk result (λ fault. fault ≡ self.now) }
    {
        match self {
            CompleteFault::Differs(what, said, found) => Ok(CompleteFault::Differs(
                *what,
                said.copy(alloc)?,
                found.copy(alloc)?,
            )),
            CompleteFault::OutOfMemory => Ok(CompleteFault::OutOfMemory),
        }
    }
}

impl From<AllocError> for PackageFault {
    ghost from_gives = { λ _ e. e ≡ package_faults.OutOfMemory };

    fn from(_: AllocError) -> PackageFault {
        PackageFault::OutOfMemory
    }
}

impl From<AllocError> for CompleteFault {
    ghost from_gives = { λ _ e. e ≡ complete_faults.OutOfMemory };

    fn from(_: AllocError) -> CompleteFault {
        CompleteFault::OutOfMemory
    }
}
