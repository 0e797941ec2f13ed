//! Pulls of a source onto a base.
ghost use Rattle.std.specs.Prelude.{◌≡◌, IfOk, IfErr, OnOk, Ok, filter, [], length};
ghost use Rattle.package_list.specs.Answers.{FaultIs};
ghost use Rattle.package_list.specs.Lists.{has_member, without};
ghost use Rattle.package_list.specs.Sorted.{has, union};
ghost use Rattle.depend_pull.specs.Pull.{grown, grown_whole, pull_answer, pulled as pulled_of, taken as taken_of, with_what_it_needs};
ghost use Rattle.package_list.specs.declared.fault.ListFault.TheVariants.{OutOfMemory};
ghost use Rattle.depend_pull.specs.Seeds.{seed_cmp};

use crate::by_seed::BySeed;
use crate::flags::{PullFlags, Pulled};
use crate::grow::{grow, offers_of};
use crate::seeds::{gathered, in_order_of_seeds, seeds_of};
use ap_text::Name;
use package_core::Package;
use package_list::{ListFault, PackageList, without_of};
use package_relations::Offer;
use query_eval::Prepared;
use std::alloc::{AllocError, Global};
use std::collections::BTreeSet;

/// The packages in a set.
fn set_of<'a>(alloc: Global, taken: &[Offer<'a>]) -> Result<BTreeSet<BySeed<'a>>, AllocError>
    ensures { IfOk result (λ set. set.keys ≡ union seed_cmp [] taken.now) }
{
    let mut set = BTreeSet::new(alloc);
    for offer in taken {
        set.insert(BySeed::new(offer.package()))?;
    }
    Ok(set)
}

/// Whether the package is in the set.
fn is_in<'a>(set: &BTreeSet<BySeed<'a>>, candidate: &'a Package) -> bool
    ensures { result ≡ has seed_cmp set.now.keys candidate.now }
{
    set.contains(&BySeed::new(candidate))
}

/// The members of the source that are in the set.
fn those_in<'a>(
    alloc: Global,
    source: &'a PackageList,
    set: &BTreeSet<BySeed<'a>>,
) -> Result<PackageList, AllocError>
    ensures { IfOk result (λ list. list ≡ filter (has seed_cmp set.now.keys) source.now) }
{
    source.members_ascend();
    let mut found = Vec::new(alloc);
    for candidate in source.as_slice() {
        if is_in(set, candidate.package()) {
            found.push(candidate.clone()?)?;
        }
    }
    Ok(PackageList::from_ascending(found))
}

/// The members of the source that were taken.
fn those_taken<'a>(
    alloc: Global,
    source: &'a PackageList,
    taken: &[Offer<'a>],
) -> Result<PackageList, AllocError>
    ensures { IfOk result (λ list. list ≡ filter (has_member taken.now) source.now) }
{
    let set = set_of(alloc, taken)?;
    those_in(alloc, source, &set)
}

/// The members of the source that are seeds.
fn those_of_seeds<'a>(
    alloc: Global,
    source: &'a PackageList,
    seeds: &'a PackageList,
) -> Result<PackageList, AllocError>
    ensures { IfOk result (λ list. list ≡ filter (has_member (union seed_cmp [] seeds.now)) source.now) }
{
    let set = gathered(alloc, seeds)?;
    those_in(alloc, source, &set)
}

/// The members of the source that the rounds take, with these to begin with.
fn grown_from<'a>(
    alloc: Global,
    base: &PackageList,
    source: &'a PackageList,
    seeds: &'a PackageList,
    flags: &PullFlags,
    archs: &[Name],
) -> Result<PackageList, AllocError>
    ensures { IfOk result (λ list. list ≡ filter (has_member (grown flags.now archs.now base.now source.now (length source.now) (union seed_cmp [] seeds.now))) source.now) }
{
    let base = offers_of(alloc, base)?;
    let offers = offers_of(alloc, source)?;
    let seeds = in_order_of_seeds(alloc, seeds)?;
    let taken = grow(alloc, &base, &offers, &seeds, flags, archs)?;
    those_taken(alloc, source, &taken)
}

/// The members of the source that are taken where these are the seeds.
fn taken_with<'a>(
    alloc: Global,
    base: &PackageList,
    source: &'a PackageList,
    seeds: &'a PackageList,
    flags: &PullFlags,
    archs: &[Name],
) -> Result<PackageList, AllocError>
    ensures { IfOk result (λ list. list ≡ filter (has_member (grown_whole flags.now archs.now base.now source.now flags.now.deps (union seed_cmp [] seeds.now))) source.now) }
{
    if flags.deps {
        return grown_from(alloc, base, source, seeds, flags, archs);
    }
    those_of_seeds(alloc, source, seeds)
}

/// The members of the source that a pull takes.
#[tactic(auto, unfolding(crate::specs::Pull::taken_in_turn))]
fn taken_from(
    alloc: Global,
    base: &PackageList,
    source: &PackageList,
    queries: &[Prepared],
    flags: &PullFlags,
    archs: &[Name],
) -> Result<PackageList, AllocError>
    ensures { IfOk result (λ list. list ≡ taken_of flags.now archs.now base.now source.now queries.now) }
{
    let seeds = seeds_of(alloc, source, queries, flags.all_matches, archs)?;
    taken_with(alloc, base, source, &seeds, flags, archs)
}

/// The base once these came.
fn joined(
    alloc: Global,
    base: &PackageList,
    more: &PackageList,
    remove: bool,
) -> Result<PackageList, ListFault>
    ensures same { IfOk result (λ list. list ≡ pulled_of remove base.now more.now) }
    ensures good { OnOk result (pull_answer remove base.now more.now ≡ Ok tt) }
    ensures fault { IfErr result (λ e. FaultIs e (pull_answer remove base.now more.now)) }
{
    let mut list = base.copy(alloc)?;
    if remove {
        list.merge_from(alloc, more)?;
    } else {
        list.append_from(alloc, more)?;
    }
    Ok(list)
}

/// The base once what is taken of the source came, what it has then and hadn't, and what it had and hasn't. `Full` where it would
/// have more than 200,000 members; without `remove`, `Conflict` at the first that has the name, version and architecture of another
/// member and isn't equal to it.
pub fn pull_set(
    alloc: Global,
    base: &PackageList,
    source: &PackageList,
    queries: &[Prepared],
    flags: &PullFlags,
    archs: &[Name],
) -> Result<Pulled, ListFault>
    ensures list { IfOk result (λ made. made.list ≡ pulled_of flags.now.remove base.now (taken_of flags.now archs.now base.now source.now queries.now)) }
    ensures added { IfOk result (λ made. made.added ≡ without made.list base.now) }
    ensures removed { IfOk result (λ made. made.removed ≡ without base.now made.list) }
    ensures good { OnOk result (pull_answer flags.now.remove base.now (taken_of flags.now archs.now base.now source.now queries.now) ≡ Ok tt) }
    ensures fault { IfErr result (λ e. FaultIs e (pull_answer flags.now.remove base.now (taken_of flags.now archs.now base.now source.now queries.now))) }
{
    let more = taken_from(alloc, base, source, queries, flags, archs)?;
    let list = joined(alloc, base, &more, flags.remove)?;
    let added = without_of(alloc, &list, base)?;
    let removed = without_of(alloc, base, &list)?;
    Ok(Pulled {
        list,
        added,
        removed,
    })
}

/// What the queries choose of the source, with what that depends on: what a pull onto nothing takes where every match is a seed.
/// Fails only for want of memory.
pub fn with_deps(
    alloc: Global,
    source: &PackageList,
    queries: &[Prepared],
    flags: &PullFlags,
    archs: &[Name],
) -> Result<PackageList, ListFault>
    ensures list { IfOk result (λ list. list ≡ with_what_it_needs flags.now archs.now source.now queries.now) }
    ensures fault { IfErr result (λ e. e ≡ OutOfMemory) }
{
    let following = PullFlags {
        deps: true,
        all_matches: true,
        ..flags.copy()
    };
    let nothing = PackageList::new(alloc);
    Ok(taken_from(alloc, &nothing, source, queries, &following, archs)?)
}
