//! The text of a version.

ghost use Rattle.std.specs.Prelude.{◌≡◌, ◌⊎◌, ◌↔◌, Option, IfOk, IfErr, IsTrue};
ghost use Rattle.std.specs.Ordering.{nat_cmp};
ghost use Rattle.std.specs.Cmp.Lexicographic.{slice_cmp};
ghost use Rattle.deb_version.specs.VersionText.{fault_of, is_version as version_text};

use crate::parts;
use std::alloc::{AllocError, Global};
use std::cmp::Ordering;
use std::marker::Model;

/// Why a text is no version.
///
/// The first of the causes, in this order, is told.
#[derive(Clone, Copy, Debug, PartialEq, Eq)]
pub enum VersionFault {
    /// There is a colon, and what stands before the first one isn't one or more digits of value at most 2147483647.
    BadEpoch,
    /// The upstream version is empty, or there is a hyphen and nothing after the last one.
    Empty,
    /// The place of the first byte, counted from 0, that may not stand in its part.
    BadByte(u64),
    /// The text is a version, and there was no memory to keep it.
    OutOfMemory,
}

impl VersionFault {
    /// The same fault once more.
    pub fn copy(&self) -> VersionFault
        ensures { result ≡ self.now }
    {
        *self
    }
}

/// Whether a text is a version, `[epoch:]upstream[-revision]` (Debian Policy 5.6.12): whether [`Version::parse`] reads it.
/// It takes no memory.
#[tactic(auto, unfolding(crate::specs::VersionText::is_version))]
pub fn is_version(text: &str) -> bool
    ensures { result ≡ version_text text.now }
{
    parts::fault(text.as_bytes()).is_none()
}

/// A version, `[epoch:]upstream[-revision]` (Debian Policy 5.6.12), as it was written.
///
/// Two versions may differ as texts and yet be equal in the order of versions, as `1.0` and `1.00`.
#[derive(Drop)]
pub struct Version {
    text: String,
}

impl Model for Version {
    ghost use Rattle.std.specs.Prelude.{ℕ, List, IsTrue, string_bytes};
    ghost use Rattle.deb_version.specs.VersionText.{is_version};

    ghost Value = { List ℕ };

    ghost view = { λ v. string_bytes v.text };

    ghost invariant = { λ v. IsTrue (is_version (string_bytes v.text)) };
}

impl Version {
    /// Reads a version.
    ///
    /// Letters, digits and `. + - ~` may stand in the upstream version, and colons where an epoch is written;
    /// letters, digits and `. + ~` in the revision, which follows the last hyphen.
    #[tactic(auto, unfolding(crate::specs::VersionText::is_version))]
    pub fn parse(alloc: Global, text: &str) -> Result<Version, VersionFault>
        ensures reads { IfOk result (λ version. (version ≡ text.now) × (fault_of text.now ≡ Option.None)) }
        ensures refuses { IfErr result (λ e. (fault_of text.now ≡ Option.Some e) ⊎ ((fault_of text.now ≡ Option.None) × (e ≡ VersionFault.OutOfMemory))) }
        ensures refused { (e : VersionFault) → fault_of text.now ≡ Option.Some e → result ≡ Err e }
    {
        match parts::fault(text.as_bytes()) {
            Some(fault) => Err(fault),
            None => match String::from_str(alloc, text) {
                Ok(text) => Ok(Version { text }),
                Err(_) => Err(VersionFault::OutOfMemory),
            },
        }
    }

    /// The version as it was written.
    pub fn as_str(&self) -> &str
        ensures text { result.now ≡ self.now }
        ensures version { IsTrue (version_text self.now) }
    {
        self.text.as_str()
    }

    /// The same version once more.
    pub fn copy(&self, alloc: Global) -> Result<Version, AllocError>
        ensures { IfOk result (λ version. version ≡ self.now) }
    {
        let text = String::from_str(alloc, self.text.as_str())?;
        Ok(Version { text })
    }

    /// Whether the two are written alike, byte by byte.
    pub fn is(&self, other: &Version) -> bool
        ensures { IsTrue result ↔ (self.now ≡ other.now) }
    {
        self.text.as_str() == other.text.as_str()
    }

    /// The order of the two texts by bytes, which isn't the order of versions: that is [`compare`](crate::compare). Equal
    /// in it are only the versions that are written alike.
    pub fn text_order(&self, other: &Version) -> Ordering
        ensures { result ≡ slice_cmp nat_cmp self.now other.now }
    {
        self.text.as_str().cmp(other.text.as_str())
    }
}
