//! A package that is looked up by its name, architecture and version.
ghost use Rattle.std.specs.Prelude.{◌≡◌};

use package_core::{Package, compare_packages, has_same_triple};
use std::cmp::Ordering;
use std::marker::Model;
use std::rc::Rc;

/// A package, seen as itself, of which a set has one for each triple of name, architecture and version.
#[derive(Drop)]
pub(crate) struct ByTriple {
    held: Rc<Package>,
}

impl Model for ByTriple {
    ghost use Rattle.std.specs.Rc.{rc_value};
    ghost use Rattle.package_core.specs.declared.package.Package.{Package};

    ghost Value = { Package };

    ghost view = { λ a. rc_value a.held };
}

impl ByTriple {
    pub(crate) fn new(held: Rc<Package>) -> ByTriple
        ensures { result ≡ held.value }
    {
        ByTriple { held }
    }

    pub(crate) fn package(&self) -> &Package
        ensures { result.now ≡ self.now }
    {
        self.held.as_ref()
    }

    pub(crate) fn into_held(self) -> Rc<Package>
        ensures { result.value ≡ self }
    {
        self.held
    }
}

impl PartialEq for ByTriple {
    ghost use Rattle.std.specs.Ordering.{eq_by_cmp};
    ghost use Rattle.std.specs.Cmp.{partial_equiv_from_equiv};
    ghost use Rattle.std.proofs.lemmas.Cmp.{eq_by_cmp_equiv};
    ghost use Rattle.package_core.specs.Order.{triple_cmp};
    ghost use Rattle.package_core.proofs.OrderLaws.{triple_total};

    ghost eq = { eq_by_cmp triple_cmp };

    ghost laws = { partial_equiv_from_equiv (eq_by_cmp_equiv triple_total) };

    fn eq(&self, other: &ByTriple) -> bool {
        self.cmp(other).is_eq()
    }
}

impl Eq for ByTriple {
    ghost use Rattle.std.proofs.lemmas.Cmp.{eq_by_cmp_equiv};
    ghost use Rattle.package_core.proofs.OrderLaws.{triple_total};

    ghost laws = { eq_by_cmp_equiv triple_total };
}

impl PartialOrd for ByTriple {
    ghost use Rattle.std.specs.Prelude.{Some, refl};
    ghost use Rattle.std.specs.Cmp.{po};
    ghost use Rattle.package_core.specs.Order.{triple_cmp};
    ghost use Rattle.package_core.proofs.OrderLaws.{triple_total};

    ghost partial_cmp = { λ a b. Some (triple_cmp a b) };

    ghost laws = { po triple_total (λ a b. refl) };

    fn partial_cmp(&self, other: &ByTriple) -> Option<Ordering> {
        Some(self.cmp(other))
    }
}

impl Ord for ByTriple {
    ghost use Rattle.std.specs.Prelude.{refl};
    ghost use Rattle.package_core.specs.Order.{triple_cmp};
    ghost use Rattle.package_core.proofs.OrderLaws.{triple_total};

    ghost cmp = { triple_cmp };

    ghost total = { triple_total };

    ghost matches_partial_cmp = { λ a b. refl };

    ghost matches_eq = { λ a b. refl };

    /// By name, architecture and version: the order of packages without what it asks of equal triples.
    fn cmp(&self, other: &ByTriple) -> Ordering {
        let (one, two) = (self.package(), other.package());
        if has_same_triple(one, two) {
            Ordering::Equal
        } else {
            compare_packages(one, two)
        }
    }
}
