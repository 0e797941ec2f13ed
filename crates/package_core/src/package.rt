//! A package.
ghost use Rattle.std.specs.Prelude.{◌≡◌, None, Some, IfOk, IfErr, IfSome, OnOk, OnErr};
ghost use Rattle.digest_set.specs.Difference.{difference};
ghost use Rattle.package_core.specs.Answers.{IsDifference};
ghost use Rattle.package_core.specs.Card.{Card, IsPackage, card_of, path_in, completed, source_of, triple as triple_of, package_text};
ghost use Rattle.package_core.specs.Faults.{fault_of, FaultIs};
ghost use Rattle.package_core.specs.Whole.{IsSaid, IsWhole, IsTextOf};

use crate::fault::{CompleteFault, PackageFault};
use crate::reading::read_package;
use crate::sizes::as_said;
use crate::source::parts;
use crate::stored::package_of;
use crate::text::text_of;
use ap_text::{Name, SafePath};
use control_stanza::{Stanza, Text};
use deb_version::Version;
use digest_set::{Digests, Said, mismatch};
use std::alloc::{AllocError, Global};

/// A binary package, with what is said of its file in place of the file's bytes.
///
/// `Package::from_stanza` makes one whose fields agree with its stanza.
#[derive(Drop)]
pub struct Package {
    /// The name (Debian Policy 5.6.7).
    pub name: Name,
    /// The version, as it was written (Debian Policy 5.6.12).
    pub version: Version,
    /// The architecture, of which `all` is one (Debian Policy 5.6.8).
    pub arch: Name,
    /// The stanza without the fields Filename, Size, MD5sum, SHA1, SHA256 and SHA512.
    pub stanza: Stanza,
    /// The name of the file, a path of one segment.
    pub file: SafePath,
    /// What is said of the file. A package is complete where all four facts are.
    pub said: Said,
}

impl Package {
    /// The package that a binary stanza describes, and the path of its file, which is below the folder that the index
    /// speaks of and stands without `./` in front.
    ///
    /// `Package` is a package name, `Version` a version, `Architecture` a name other than `source`; `Source`, where it is
    /// there, a package name, maybe with a version in parentheses. `Filename` is a safe path of at most 700 bytes, `Size`
    /// a decimal number below 2^64 without leading zeros, and `SHA256`, `SHA1` and `MD5sum`, of which the last two may be
    /// absent, are digests in hexadecimal digits of either case (Debian Policy 5.3, and the Packages index of the Debian
    /// repository format). The first fault in the order of [`PackageFault`] is told.
    pub fn from_stanza(alloc: Global, stanza: &Stanza) -> Result<(Package, SafePath), PackageFault>
        ensures value { IfOk result (λ made. (made.0 ≡ card_of stanza.now) × (made.1 ≡ path_in stanza.now)) }
        ensures package { IfOk result (λ made. IsPackage made.0) }
        // Where all four facts are said, the package is whole.
        ensures said { IfOk result (λ made. IsSaid made.0.said) }
        ensures good { IfOk result (λ made. fault_of stanza.now ≡ None) }
        ensures fault { IfErr result (FaultIs (fault_of stanza.now)) }
    {
        read_package(alloc, stanza)
    }

    /// Fills in what was found of the file, where it agrees with all that is said of it. The first difference, in the
    /// order of [`What`](digest_set::What), is told, and the package then stays as it was.
    pub fn complete(&mut self, alloc: Global, found: &Digests) -> Result<(), CompleteFault>
        ensures ok { OnOk result (self.new ≡ completed self.old found.now) }
        ensures agrees { OnOk result (difference self.old.said found.now ≡ None) }
        ensures differs { IfErr result (IsDifference (difference self.old.said found.now)) }
        ensures err { OnErr result (self.new ≡ self.old) }
        // What a stanza describes is whole then.
        ensures whole { OnOk result (IsPackage self.old → IsWhole self.new) }
    {
        if let Some((what, said, found)) = mismatch(alloc, &self.said, found)? {
            return Err(CompleteFault::Differs(what, said, found));
        }
        self.said = as_said(found);
        Ok(())
    }

    /// The name and the version of the source that the package was built from (Debian Policy 5.6.1).
    #[tactic(auto, unfolding(crate::specs::Card::source_of))]
    pub fn source(&self) -> (&str, &str)
        ensures name { result.0.now ≡ (source_of self.now).0 }
        ensures version { result.1.now ≡ (source_of self.now).1 }
    {
        match self.stanza.get("Source") {
            None => self.own_source(),
            Some(text) => match parts(text) {
                None => self.own_source(),
                Some((name, version)) => (name, version.unwrap_or(self.version.as_str())),
            },
        }
    }

    fn own_source(&self) -> (&str, &str)
        ensures name { result.0.now ≡ self.now.name }
        ensures version { result.1.now ≡ self.now.version }
    {
        (self.name.as_str(), self.version.as_str())
    }

    /// `name_version_arch`, by which a package is known in references and replies. Fails only for want of memory.
    #[tactic(auto, unfolding(crate::specs::Card::triple))]
    pub fn triple(&self, alloc: Global) -> Result<Text, AllocError>
        ensures { IfOk result (λ text. text ≡ triple_of self.now) }
    {
        let text = format!(in alloc;
            "{}_{}_{}",
            self.name.as_str(),
            self.version.as_str(),
            self.arch.as_str()
        )?;
        Text::new(alloc, text.as_str())
    }

    /// The text by which a store keeps a package: its stanza, and then `Filename`, `Size`, `MD5sum`, `SHA1` and `SHA256`.
    /// It is meant for complete packages: a digest that isn't known has a line without digits. Fails only for want of
    /// memory.
    pub fn text(&self, alloc: Global) -> Result<Text, AllocError>
        ensures { IfOk result (λ text. text ≡ package_text self.now) }
    {
        text_of(alloc, self)
    }

    /// The package whose text these bytes are, as [`text`](Package::text) gives it of a complete package; `None` where
    /// they are the text of none. They have no bound. Fails only for want of memory.
    pub fn read_text(alloc: Global, bytes: &[u8]) -> Result<Option<Package>, AllocError>
        // What is read has this text.
        ensures found { IfOk result (λ found. IfSome found (IsTextOf bytes.now)) }
        // What has this text is read.
        ensures only { (p : Card) → IsTextOf bytes.now p → IfOk result (λ found. found ≡ Some p) }
    {
        package_of(alloc, bytes)
    }

    /// The same package once more. Fails only for want of memory.
    pub fn copy(&self, alloc: Global) -> Result<Package, AllocError>
        ensures { IfOk result (λ made. made ≡ self.now) }
    {
        Ok(Package {
            name: self.name.copy(alloc)?,
            version: self.version.copy(alloc)?,
            arch: self.arch.copy(alloc)?,
            stanza: self.stanza.copy(alloc)?,
            file: self.file.copy(alloc)?,
            said: self.said.copy(),
        })
    }
}
