//! Where a package stands in a list, or would stand, found by halves.
ghost use Rattle.std.specs.Prelude.{◌≡◌, ◌≤◌, ◌<◌, ◌+◌, length, [], ◌∷◌, MatchOption, map, option_map, take, drop, remove, true, false};
ghost use Rattle.std.specs.Rc.{rc_value};
ghost use Rattle.package_core.specs.Order.{package_cmp, same_triple};
ghost use Rattle.std.specs.Option.{option_copied};
ghost use Rattle.package_list.specs.Sorted.{IsAscending, AllLess, StartsAt, first_is, last_is, equal_of};
ghost use Rattle.package_list.specs.Lists.{has_member, clashes, without};

use crate::shared::{SharedPackage, package_of};
use package_core::{Package, compare_packages, has_same_triple};
use std::rc::Rc;

/// The first place whose member isn't less than the package.
pub(crate) fn place_of(items: &[Rc<SharedPackage>], wanted: &Package) -> usize
    requires { IsAscending package_cmp (map rc_value items.now) }
    ensures inside { result ≤ length items.now }
    ensures before { AllLess package_cmp (take result (map rc_value items.now)) wanted.now }
    ensures behind { StartsAt package_cmp (drop result (map rc_value items.now)) wanted.now }
{
    let mut low = 0;
    let mut high = items.len();
    while low < high {
        let middle = low + (high - low) / 2;
        if compare_packages(package_of(&items[middle]), wanted).is_lt() {
            low = middle + 1;
        } else {
            high = middle;
        }
    }
    low
}

/// The member at a place, as it is shared.
fn shared_at(items: &[Rc<SharedPackage>], place: usize) -> Option<&Rc<SharedPackage>>
    ensures { MatchOption result (drop place (map rc_value items.now) ≡ []) (λ p. drop place (map rc_value items.now) ≡ rc_value p.now ∷ drop (place + 1) (map rc_value items.now)) }
{
    if place < items.len() {
        Some(&items[place])
    } else {
        None
    }
}

/// The member at a place.
fn member_at(items: &[Rc<SharedPackage>], place: usize) -> Option<&Package>
    ensures { MatchOption result (drop place (map rc_value items.now) ≡ []) (λ p. drop place (map rc_value items.now) ≡ p.now ∷ drop (place + 1) (map rc_value items.now)) }
{
    match shared_at(items, place) {
        Some(member) => Some(package_of(member)),
        None => None,
    }
}

/// Whether an equal stands at the place of the package.
pub(crate) fn is_at(items: &[Rc<SharedPackage>], place: usize, wanted: &Package) -> bool
    requires ascending { IsAscending package_cmp (map rc_value items.now) }
    requires before { AllLess package_cmp (take place (map rc_value items.now)) wanted.now }
    requires behind { StartsAt package_cmp (drop place (map rc_value items.now)) wanted.now }
    ensures { result ≡ has_member (map rc_value items.now) wanted.now }
{
    match member_at(items, place) {
        Some(member) => compare_packages(member, wanted).is_eq(),
        None => false,
    }
}

/// The place of the package's equal.
pub(crate) fn found_at(items: &[Rc<SharedPackage>], wanted: &Package) -> Option<usize>
    requires { IsAscending package_cmp (map rc_value items.now) }
    ensures inside { MatchOption result (Unit {0}) (λ place. place < length items.now) }
    ensures found { MatchOption result (has_member (map rc_value items.now) wanted.now ≡ false) (λ place. has_member (map rc_value items.now) wanted.now ≡ true) }
    ensures others { MatchOption result (without (map rc_value items.now) (wanted.now ∷ []) ≡ map rc_value items.now) (λ place. without (map rc_value items.now) (wanted.now ∷ []) ≡ map rc_value (remove items.now place)) }
{
    let place = place_of(items, wanted);
    if is_at(items, place, wanted) {
        Some(place)
    } else {
        None
    }
}

/// The member that is equal to the package, as it is shared.
pub(crate) fn shared_in<'a>(
    items: &'a [Rc<SharedPackage>],
    wanted: &Package,
) -> Option<&'a Rc<SharedPackage>>
    requires { IsAscending package_cmp (map rc_value items.now) }
    ensures { option_map rc_value (option_copied result) ≡ equal_of package_cmp (map rc_value items.now) wanted.now }
{
    let place = place_of(items, wanted);
    match shared_at(items, place) {
        Some(member) => {
            if compare_packages(package_of(member), wanted).is_eq() {
                Some(member)
            } else {
                None
            }
        }
        None => None,
    }
}

/// Whether a member clashes with a package that has no equal. Those of its triple stand beside its place.
pub(crate) fn clashes_at(items: &[Rc<SharedPackage>], place: usize, wanted: &Package) -> bool
    requires inside { place ≤ length items.now }
    requires ascending { IsAscending package_cmp (map rc_value items.now) }
    requires before { AllLess package_cmp (take place (map rc_value items.now)) wanted.now }
    requires behind { StartsAt package_cmp (drop place (map rc_value items.now)) wanted.now }
    requires new { has_member (map rc_value items.now) wanted.now ≡ false }
    ensures { result ≡ clashes (map rc_value items.now) wanted.now }
{
    last_has_triple(items, place, wanted) || first_has_triple(items, place, wanted)
}

pub(crate) fn first_has_triple(items: &[Rc<SharedPackage>], place: usize, wanted: &Package) -> bool
    ensures { result ≡ first_is (λ q. same_triple q wanted.now) (drop place (map rc_value items.now)) }
{
    match member_at(items, place) {
        Some(member) => has_same_triple(member, wanted),
        None => false,
    }
}

pub(crate) fn last_has_triple(items: &[Rc<SharedPackage>], place: usize, wanted: &Package) -> bool
    requires { place ≤ length items.now }
    ensures { result ≡ last_is (λ q. same_triple q wanted.now) (take place (map rc_value items.now)) }
{
    if place == 0 {
        return false;
    }
    match member_at(items, place - 1) {
        Some(member) => has_same_triple(member, wanted),
        None => false,
    }
}
