//! Which place is open, and what it takes.
ghost use Rattle.std.specs.Prelude.{◌≡◌, find};
ghost use Rattle.std.specs.List.{list_any};
ghost use Rattle.std.specs.Option.{option_and_then, option_copied};
ghost use Rattle.package_relations.specs.Satisfies.{satisfies};
ghost use Rattle.depend_pull.specs.Places.{first_satisfied as first_satisfied_of, greater_of, greatest_of, is_open as stands_open, picked as picked_by, satisfiers};

use crate::places::Place;
use ap_text::Name;
use depends_field::{Alternative, Group};
use package_core::Package;
use package_relations::{Offer, compare_by_version, is_satisfied};

/// Whether nothing of the base and of what was taken satisfies the place, and something of the source does.
pub(crate) fn is_open(
    base: &[Offer<'_>],
    source: &[Offer<'_>],
    taken: &[Offer<'_>],
    place: &Place,
) -> bool
    ensures { result ≡ stands_open base.now source.now taken.now place.now }
{
    !(is_satisfied(base, &place.group, &place.arch)
        || is_satisfied(taken, &place.group, &place.arch))
        && is_satisfied(source, &place.group, &place.arch)
}

/// The greater of two, by version and then by the order of packages.
fn greater<'a>(one: &'a Package, other: &'a Package) -> &'a Package
    ensures { result.now ≡ greater_of one.now other.now }
{
    if compare_by_version(one, other).is_lt() {
        other
    } else {
        one
    }
}

/// The greatest of those that satisfy an alternative.
fn greatest_satisfier<'a>(
    source: &[Offer<'a>],
    alternative: &Alternative,
    arch: &Name,
) -> Option<&'a Package>
    ensures { option_copied result ≡ greatest_of (satisfiers source.now arch.now alternative.now) }
{
    let mut best: Option<&'a Package> = None;
    for offer in source {
        if offer.satisfies(alternative, arch) {
            best = match best {
                Some(one) => Some(greater(one, offer.package())),
                None => Some(offer.package()),
            };
        }
    }
    best
}

fn is_satisfiable(source: &[Offer<'_>], alternative: &Alternative, arch: &Name) -> bool
    ensures { result ≡ list_any (λ p. satisfies p alternative.now arch.now) source.now }
{
    source
        .iter()
        .any(|offer| offer.satisfies(alternative, arch))
}

/// The first alternative of a group that some package satisfies.
fn first_satisfied<'g>(
    source: &[Offer<'_>],
    group: &'g Group,
    arch: &Name,
) -> Option<&'g Alternative>
    ensures { option_copied result ≡ first_satisfied_of source.now arch.now group.now }
{
    group
        .alternatives
        .iter()
        .find(|alternative| is_satisfiable(source, alternative, arch))
}

/// What a place takes: the greatest of those that satisfy its first alternative that any satisfies.
fn picked<'a>(source: &[Offer<'a>], place: &Place) -> Option<&'a Package>
    ensures { option_copied result ≡ picked_by source.now place.now }
{
    match first_satisfied(source, &place.group, &place.arch) {
        Some(alternative) => greatest_satisfier(source, alternative, &place.arch),
        None => None,
    }
}

/// The first place that is open.
fn open_place<'p>(
    base: &[Offer<'_>],
    source: &[Offer<'_>],
    taken: &[Offer<'_>],
    places: &'p [Place],
) -> Option<&'p Place>
    ensures { option_copied result ≡ find (stands_open base.now source.now taken.now) places.now }
{
    places
        .iter()
        .find(|place| is_open(base, source, taken, place))
}

/// What is taken next, sought from the first place on.
pub(crate) fn next<'a>(
    base: &[Offer<'_>],
    source: &[Offer<'a>],
    taken: &[Offer<'_>],
    places: &[Place],
) -> Option<&'a Package>
    ensures { option_copied result ≡ option_and_then (picked_by source.now) (find (stands_open base.now source.now taken.now) places.now) }
{
    match open_place(base, source, taken, places) {
        Some(place) => picked(source, place),
        None => None,
    }
}
