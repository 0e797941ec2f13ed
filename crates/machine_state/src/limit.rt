//! Kinds of named things, and what is limited.
ghost use Rattle.std.specs.Prelude.{◌≡◌};
ghost use Rattle.machine_state.specs.Limits.{limit_number};

use package_list::{MOST_KNOWN, MOST_MEMBERS};

/// A kind of thing that has a name.
#[derive(Clone, Copy, Debug, PartialEq, Eq)]
pub enum Kind {
    /// A mirror of an archive.
    Mirror,
    /// A local repository.
    Repo,
    /// A snapshot.
    Snapshot,
    /// A component of a publication.
    Component,
}

impl Kind {
    /// The same once more.
    pub fn copy(&self) -> Kind
        ensures { result ≡ self.now }
    {
        *self
    }
}

/// What is limited.
#[derive(Clone, Copy, Debug, PartialEq, Eq)]
pub enum Limit {
    /// The count of mirrors.
    Mirrors,
    /// The count of repositories.
    Repos,
    /// The count of snapshots.
    Snapshots,
    /// The count of publications.
    Publications,
    /// The count of packages in one list.
    Packages,
    /// The count of known packages.
    Known,
    /// The sum of the lengths of the known package texts, in bytes.
    Catalogue,
    /// The length of one index that is read or published, in bytes.
    Index,
    /// The length of one Release that is read, in bytes.
    ReleaseBytes,
    /// The sum of the lengths of the indexes of one generation, in bytes.
    Generation,
    /// The size of a package file, in bytes.
    File,
    /// The serial of a publication.
    Serial,
    /// The greatest moment of a publication, in seconds since 1970.
    Date,
}

impl Limit {
    /// The same once more.
    pub fn copy(&self) -> Limit
        ensures { result ≡ self.now }
    {
        *self
    }

    /// The number that may not be passed.
    pub fn number(&self) -> u64
        ensures { result ≡ limit_number self.now }
    {
        match self {
            Limit::Mirrors | Limit::Repos | Limit::Snapshots | Limit::Publications => 10_000,
            Limit::Packages => MOST_MEMBERS as u64,
            Limit::Known => MOST_KNOWN as u64,
            Limit::Catalogue | Limit::Generation => 1_073_741_824,
            Limit::Index => 134_217_728,
            Limit::ReleaseBytes => 4_194_304,
            Limit::File => 268_435_456,
            Limit::Serial => 4_294_967_295,
            Limit::Date => 253_402_300_799,
        }
    }
}
