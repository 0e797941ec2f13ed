//! A package in the order of seeds.
ghost use Rattle.std.specs.Prelude.{◌≡◌};
ghost use Rattle.depend_pull.specs.Seeds.{seed_cmp};

use package_core::Package;
use package_relations::compare_by_version;
use std::cmp::Ordering;
use std::marker::Model;

/// A package, seen as itself, in the order of seeds: by name, and then the greatest version first.
#[derive(Drop)]
pub(crate) struct BySeed<'a> {
    package: &'a Package,
}

impl<'a> Model for BySeed<'a> {
    ghost use Rattle.package_core.specs.declared.package.Package.{Package};

    ghost Value = { Package };

    ghost view = { λ a. a.package.now };
}

impl<'a> BySeed<'a> {
    pub(crate) fn new(member: &'a Package) -> BySeed<'a>
        ensures { result ≡ member.now }
    {
        BySeed { package: member }
    }

    pub(crate) fn package(&self) -> &'a Package
        ensures { result.now ≡ self.now }
    {
        self.package
    }
}

/// The order of seeds.
#[tactic(auto, unfolding(crate::specs::Seeds::seed_cmp))]
fn compare(a: &Package, b: &Package) -> Ordering
    ensures { result ≡ seed_cmp a.now b.now }
{
    let order = a.name.order(&b.name);
    if order.is_ne() {
        return order;
    }
    compare_by_version(b, a)
}

impl<'a> PartialEq for BySeed<'a> {
    ghost use Rattle.std.specs.Ordering.{eq_by_cmp};
    ghost use Rattle.std.specs.Cmp.{partial_equiv_from_equiv};
    ghost use Rattle.std.proofs.lemmas.Cmp.{eq_by_cmp_equiv};
    ghost use Rattle.depend_pull.specs.Seeds.{seed_cmp};
    ghost use Rattle.depend_pull.specs.SeedOrder.{seed_total};

    ghost eq = { eq_by_cmp seed_cmp };

    ghost laws = { partial_equiv_from_equiv (eq_by_cmp_equiv seed_total) };

    fn eq(&self, other: &BySeed<'a>) -> bool {
        self.cmp(other).is_eq()
    }
}

impl<'a> Eq for BySeed<'a> {
    ghost use Rattle.std.proofs.lemmas.Cmp.{eq_by_cmp_equiv};
    ghost use Rattle.depend_pull.specs.SeedOrder.{seed_total};

    ghost laws = { eq_by_cmp_equiv seed_total };
}

impl<'a> PartialOrd for BySeed<'a> {
    ghost use Rattle.std.specs.Prelude.{Some, refl};
    ghost use Rattle.std.specs.Cmp.{po};
    ghost use Rattle.depend_pull.specs.Seeds.{seed_cmp};
    ghost use Rattle.depend_pull.specs.SeedOrder.{seed_total};

    ghost partial_cmp = { λ a b. Some (seed_cmp a b) };

    ghost laws = { po seed_total (λ a b. refl) };

    fn partial_cmp(&self, other: &BySeed<'a>) -> Option<Ordering> {
        Some(self.cmp(other))
    }
}

impl<'a> Ord for BySeed<'a> {
    ghost use Rattle.std.specs.Prelude.{refl};
    ghost use Rattle.depend_pull.specs.Seeds.{seed_cmp};
    ghost use Rattle.depend_pull.specs.SeedOrder.{seed_total};

    ghost cmp = { seed_cmp };

    ghost total = { seed_total };

    ghost matches_partial_cmp = { λ a b. refl };

    ghost matches_eq = { λ a b. refl };

    fn cmp(&self, other: &BySeed<'a>) -> Ordering {
        compare(self.package, other.package)
    }
}
