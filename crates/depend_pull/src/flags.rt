//! What a pull is asked for, and what it gives.
ghost use Rattle.std.specs.Prelude.{◌≡◌};

use package_list::PackageList;

/// What a pull is asked for.
#[derive(Clone, Copy, Debug, PartialEq, Eq)]
pub struct PullFlags {
    /// What the seeds depend on is taken too.
    pub deps: bool,
    /// What comes takes the place of the base's packages of its names and architectures.
    pub remove: bool,
    /// Every match is a seed, not only the greatest version of each name and architecture.
    pub all_matches: bool,
    /// `Recommends` is followed too.
    pub recommends: bool,
    /// `Suggests` is followed too.
    pub suggests: bool,
}

impl PullFlags {
    /// The same flags.
    pub fn copy(&self) -> PullFlags
        ensures { result ≡ self.now }
    {
        *self
    }
}

/// What a pull gives.
#[derive(Drop)]
pub struct Pulled {
    /// What the base becomes.
    pub list: PackageList,
    /// The packages of it that the base hasn't.
    pub added: PackageList,
    /// The packages of the base that it hasn't.
    pub removed: PackageList,
}
