//! The rounds of a pull.
ghost use Rattle.std.specs.Prelude.{◌≡◌, ◌++◌, ◌∷◌, [], IfOk, OnOk, length};
ghost use Rattle.depend_pull.specs.Places.{places as places_in, places_of};
ghost use Rattle.depend_pull.specs.Pull.{grown};

use crate::by_seed::BySeed;
use crate::flags::PullFlags;
use crate::places::{Place, push_places};
use crate::satisfier::next;
use ap_text::Name;
use package_core::Package;
use package_list::PackageList;
use package_relations::Offer;
use std::alloc::{AllocError, Global};

/// The members of a list, each with what it provides.
pub(crate) fn offers_of<'a>(
    alloc: Global,
    list: &'a PackageList,
) -> Result<Vec<Offer<'a>>, AllocError>
    ensures { IfOk result (λ offers. offers.items ≡ list.now) }
{
    let mut offers = Vec::with_capacity(alloc, list.len())?;
    for member in list.as_slice() {
        offers.push(Offer::new(alloc, member.package())?)?;
    }
    Ok(offers)
}

/// Takes a package behind those that were taken, with its places behind theirs.
fn take_one<'a>(
    alloc: Global,
    taken: &mut Vec<Offer<'a>>,
    places: &mut Vec<Place>,
    member: &'a Package,
    flags: &PullFlags,
    archs: &[Name],
) -> Result<(), AllocError>
    ensures taken { OnOk result (taken.new.items ≡ taken.old.items ++ member.now ∷ []) }
    ensures places { OnOk result (places.new.items ≡ places.old.items ++ places_of flags.now archs.now member.now) }
{
    push_places(alloc, places, member, flags, archs)?;
    taken.push(Offer::new(alloc, member)?)?;
    Ok(())
}

/// Takes the seeds.
fn take_seeds<'a>(
    alloc: Global,
    taken: &mut Vec<Offer<'a>>,
    places: &mut Vec<Place>,
    seeds: &[BySeed<'a>],
    flags: &PullFlags,
    archs: &[Name],
) -> Result<(), AllocError>
    ensures taken { OnOk result (taken.new.items ≡ taken.old.items ++ seeds.now) }
    ensures places { OnOk result (places.new.items ≡ places.old.items ++ places_in flags.now archs.now seeds.now) }
{
    for seed in seeds {
        take_one(alloc, taken, places, seed.package(), flags, archs)?;
    }
    Ok(())
}

/// In each round takes what the first open place takes. There are at most as many rounds as the source has members, since each takes
/// one that wasn't taken.
fn take_rounds<'a>(
    alloc: Global,
    base: &[Offer<'_>],
    source: &[Offer<'a>],
    taken: &mut Vec<Offer<'a>>,
    places: &mut Vec<Place>,
    flags: &PullFlags,
    archs: &[Name],
) -> Result<(), AllocError>
    requires { places.old.items ≡ places_in flags.now archs.now taken.old.items }
    ensures { OnOk result (taken.new.items ≡ grown flags.now archs.now base.now source.now (length source.now) taken.old.items) }
{
    for _offer in source {
        let Some(member) = next(base, source, taken, places) else {
            return Ok(());
        };
        take_one(alloc, taken, places, member, flags, archs)?;
    }
    Ok(())
}

/// What is taken: the seeds, and what the rounds take behind them.
pub(crate) fn grow<'a>(
    alloc: Global,
    base: &[Offer<'_>],
    source: &[Offer<'a>],
    seeds: &[BySeed<'a>],
    flags: &PullFlags,
    archs: &[Name],
) -> Result<Vec<Offer<'a>>, AllocError>
    ensures { IfOk result (λ taken. taken.items ≡ grown flags.now archs.now base.now source.now (length source.now) seeds.now) }
{
    let mut taken = Vec::new(alloc);
    let mut places = Vec::new(alloc);
    take_seeds(alloc, &mut taken, &mut places, seeds, flags, archs)?;
    take_rounds(alloc, base, source, &mut taken, &mut places, flags, archs)?;
    Ok(taken)
}
