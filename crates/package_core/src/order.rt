//! The order of packages.
ghost use Rattle.std.specs.Prelude.{◌≡◌};
ghost use Rattle.package_core.specs.Order.{triple_cmp, body_cmp, package_cmp, same_triple};

use crate::bytes::compare_stanzas;
use crate::package::Package;
use std::cmp::Ordering;

#[tactic(auto, unfolding(crate::specs::Order::triple_cmp))]
fn compare_triples(a: &Package, b: &Package) -> Ordering
    ensures { result ≡ triple_cmp a.now b.now }
{
    let order = a.name.order(&b.name);
    if order.is_ne() {
        return order;
    }
    let order = a.arch.order(&b.arch);
    if order.is_ne() {
        return order;
    }
    let order = deb_version::compare(&a.version, &b.version);
    if order.is_ne() {
        return order;
    }
    a.version.text_order(&b.version)
}

#[tactic(auto, unfolding(crate::specs::Order::body_cmp))]
fn compare_bodies(a: &Package, b: &Package) -> Ordering
    ensures { result ≡ body_cmp a.now b.now }
{
    let order = compare_stanzas(&a.stanza, &b.stanza);
    if order.is_ne() {
        return order;
    }
    let order = a.file.order(&b.file);
    if order.is_ne() {
        return order;
    }
    a.said.sha256.cmp(&b.said.sha256)
}

/// The order of packages: by name, architecture, the order of versions (Debian Policy 5.6.12), then by the bytes of the
/// version, of the stanza's text, of the file's name and of its SHA-256. It takes no memory.
#[tactic(auto, unfolding(crate::specs::Order::package_cmp))]
pub fn compare_packages(a: &Package, b: &Package) -> Ordering
    ensures { result ≡ package_cmp a.now b.now }
{
    let order = compare_triples(a, b);
    if order.is_ne() {
        return order;
    }
    compare_bodies(a, b)
}

/// Whether the two have one name, version text and architecture. Two packages that do and differ clash.
#[tactic(auto, unfolding(crate::specs::Order::same_triple))]
pub fn has_same_triple(a: &Package, b: &Package) -> bool
    ensures { result ≡ same_triple a.now b.now }
{
    a.name.as_str() == b.name.as_str()
        && a.version.as_str() == b.version.as_str()
        && a.arch.as_str() == b.arch.as_str()
}
