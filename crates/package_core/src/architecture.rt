//! For which architectures a package is.
ghost use Rattle.std.specs.Prelude.{◌≡◌};
ghost use Rattle.package_core.specs.Architecture.{is_for as for_arch};

use crate::package::Package;
use ap_text::Name;

impl Package {
    /// Whether the package is for an architecture: whether its own is this one or `all` (Debian Policy 5.6.8). It takes no
    /// memory.
    #[tactic(auto, unfolding(crate::specs::Architecture::is_for))]
    pub fn is_for(&self, arch: &Name) -> bool
        ensures { result ≡ for_arch self.now arch.now }
    {
        self.arch.as_str() == arch.as_str() || self.arch.as_str() == "all"
    }
}
