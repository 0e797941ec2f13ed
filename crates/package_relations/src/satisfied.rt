//! Whether packages satisfy what is asked for (Debian Policy 7.1, 7.5).
ghost use Rattle.std.specs.Prelude.{◌≡◌, IfOk};
ghost use Rattle.package_relations.specs.Satisfies.{satisfies as satisfied, is_satisfied as any_satisfies};

use crate::offer::Offer;
use ap_text::Name;
use depends_field::{Alternative, Group};
use package_core::Package;
use std::alloc::{AllocError, Global};

/// Whether a package satisfies an alternative for an architecture, as [`Offer::satisfies`] tells it of one that is asked
/// more than once. A field Provides that isn't readable counts as empty. Fails only for want of memory.
pub fn satisfies(
    alloc: Global,
    candidate: &Package,
    alternative: &Alternative,
    arch: &Name,
) -> Result<bool, AllocError>
    ensures { IfOk result (λ b. b ≡ satisfied candidate.now alternative.now arch.now) }
{
    let offer = Offer::new(alloc, candidate)?;
    Ok(offer.satisfies(alternative, arch))
}

/// Whether one of the packages satisfies an alternative of the group for an architecture. It takes no memory.
pub fn is_satisfied(offers: &[Offer<'_>], group: &Group, arch: &Name) -> bool
    ensures { result ≡ any_satisfies offers.now group.now arch.now }
{
    offers
        .iter()
        .any(|offer| offer.satisfies_group(group, arch))
}
