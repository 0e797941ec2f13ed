//! A package that is looked up by its place in the order of packages.
ghost use Rattle.std.specs.Prelude.{◌≡◌};

use package_core::{Package, compare_packages};
use std::cmp::Ordering;
use std::marker::Model;
use std::rc::Rc;

/// A package, seen as itself, by the order of packages.
#[derive(Drop)]
pub struct ByPackage {
    held: Rc<Package>,
}

impl Model for ByPackage {
    ghost use Rattle.std.specs.Rc.{rc_value};
    ghost use Rattle.package_core.specs.declared.package.Package.{Package};

    ghost Value = { Package };

    ghost view = { λ a. rc_value a.held };
}

impl ByPackage {
    pub fn new(held: Rc<Package>) -> ByPackage
        ensures { result ≡ held.value }
    {
        ByPackage { held }
    }

    fn package(&self) -> &Package
        ensures { result.now ≡ self.now }
    {
        self.held.as_ref()
    }
}

impl PartialEq for ByPackage {
    ghost use Rattle.std.specs.Ordering.{eq_by_cmp};
    ghost use Rattle.std.specs.Cmp.{partial_equiv_from_equiv};
    ghost use Rattle.std.proofs.lemmas.Cmp.{eq_by_cmp_equiv};
    ghost use Rattle.package_core.specs.Order.{package_cmp};
    ghost use Rattle.package_core.proofs.OrderLaws.{package_total};

    ghost eq = { eq_by_cmp package_cmp };

    ghost laws = { partial_equiv_from_equiv (eq_by_cmp_equiv package_total) };

    fn eq(&self, other: &ByPackage) -> bool {
        self.cmp(other).is_eq()
    }
}

impl Eq for ByPackage {
    ghost use Rattle.std.proofs.lemmas.Cmp.{eq_by_cmp_equiv};
    ghost use Rattle.package_core.proofs.OrderLaws.{package_total};

    ghost laws = { eq_by_cmp_equiv package_total };
}

impl PartialOrd for ByPackage {
    ghost use Rattle.std.specs.Prelude.{Some, refl};
    ghost use Rattle.std.specs.Cmp.{po};
    ghost use Rattle.package_core.specs.Order.{package_cmp};
    ghost use Rattle.package_core.proofs.OrderLaws.{package_total};

    ghost partial_cmp = { λ a b. Some (package_cmp a b) };

    ghost laws = { po package_total (λ a b. refl) };

    fn partial_cmp(&self, other: &ByPackage) -> Option<Ordering> {
        Some(self.cmp(other))
    }
}

impl Ord for ByPackage {
    ghost use Rattle.std.specs.Prelude.{refl};
    ghost use Rattle.package_core.specs.Order.{package_cmp};
    ghost use Rattle.package_core.proofs.OrderLaws.{package_total};

    ghost cmp = { package_cmp };

    ghost total = { package_total };

    ghost matches_partial_cmp = { λ a b. refl };

    ghost matches_eq = { λ a b. refl };

    fn cmp(&self, other: &ByPackage) -> Ordering {
        compare_packages(self.package(), other.package())
    }
}
