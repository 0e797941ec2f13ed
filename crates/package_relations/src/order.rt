//! Which of some packages is the greatest.
ghost use Rattle.std.specs.Prelude.{◌≡◌};
ghost use Rattle.package_relations.specs.Order.{by_version_cmp};

use package_core::{Package, compare_packages};
use std::cmp::Ordering;

/// The order by version (Debian Policy 5.6.12) and then by the order of packages, by which the greatest of those that
/// satisfy a relation is told, whatever their names. It takes no memory.
#[tactic(auto, unfolding(crate::specs::Order::by_version_cmp))]
pub fn compare_by_version(a: &Package, b: &Package) -> Ordering
    ensures { result ≡ by_version_cmp a.now b.now }
{
    let order = deb_version::compare(&a.version, &b.version);
    if order.is_ne() {
        return order;
    }
    compare_packages(a, b)
}
