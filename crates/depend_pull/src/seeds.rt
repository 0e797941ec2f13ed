//! The packages that a pull begins with.
ghost use Rattle.std.specs.Prelude.{◌≡◌, IfOk, [], bytes_eq};
ghost use Rattle.std.specs.List.{list_any};
ghost use Rattle.package_list.specs.Sorted.{union};
ghost use Rattle.depend_pull.specs.Seeds.{asked_for as asked_for_of, is_for_some as for_some, is_of_all as of_all, of_each as of_each_of, seed_cmp};

use crate::by_seed::BySeed;
use ap_text::Name;
use package_core::Package;
use package_list::{PackageList, greatest_in};
use query_eval::{Prepared, is_any_true};
use std::alloc::{AllocError, Global};
use std::collections::BTreeSet;

/// Whether the package is for every architecture.
pub(crate) fn is_of_all(candidate: &Package) -> bool
    ensures { result ≡ of_all candidate.now }
{
    candidate.arch.as_str() == "all"
}

/// Whether the package's architecture is one of these.
fn is_of_one(archs: &[Name], candidate: &Package) -> bool
    ensures { result ≡ list_any (λ arch. bytes_eq candidate.now.arch arch) archs.now }
{
    archs
        .iter()
        .any(|arch| candidate.arch.as_str() == arch.as_str())
}

/// Whether the package's architecture is `all` or one of these.
fn is_for_some(archs: &[Name], candidate: &Package) -> bool
    ensures { result ≡ for_some archs.now candidate.now }
{
    is_of_all(candidate) || is_of_one(archs, candidate)
}

/// The members that are asked for and of these architectures.
fn asked_for(
    alloc: Global,
    source: &PackageList,
    queries: &[Prepared],
    archs: &[Name],
) -> Result<PackageList, AllocError>
    ensures { IfOk result (λ found. found ≡ asked_for_of queries.now archs.now source.now) }
{
    source.members_ascend();
    let mut found = Vec::new(alloc);
    for candidate in source.as_slice() {
        if is_any_true(alloc, queries, candidate.package())?
            && is_for_some(archs, candidate.package())
        {
            found.push(candidate.clone()?)?;
        }
    }
    Ok(PackageList::from_ascending(found))
}

/// All of them, or of each name and architecture the greatest alone.
fn of_each(alloc: Global, all_matches: bool, list: PackageList) -> Result<PackageList, AllocError>
    ensures { IfOk result (λ kept. kept ≡ of_each_of all_matches list) }
{
    if all_matches {
        return Ok(list);
    }
    greatest_in(alloc, &list)
}

/// The members that a pull begins with, in the order of packages.
pub(crate) fn seeds_of(
    alloc: Global,
    source: &PackageList,
    queries: &[Prepared],
    all_matches: bool,
    archs: &[Name],
) -> Result<PackageList, AllocError>
    ensures { IfOk result (λ kept. kept ≡ of_each_of all_matches (asked_for_of queries.now archs.now source.now)) }
{
    let found = asked_for(alloc, source, queries, archs)?;
    of_each(alloc, all_matches, found)
}

/// The packages in a set, each once.
pub(crate) fn gathered<'a>(
    alloc: Global,
    list: &'a PackageList,
) -> Result<BTreeSet<BySeed<'a>>, AllocError>
    ensures { IfOk result (λ set. set.keys ≡ union seed_cmp [] list.now) }
{
    let mut set = BTreeSet::new(alloc);
    for member in list.as_slice() {
        set.insert(BySeed::new(member.package()))?;
    }
    Ok(set)
}

/// The members in the order of seeds: by name, and then the greatest first.
pub(crate) fn in_order_of_seeds<'a>(
    alloc: Global,
    list: &'a PackageList,
) -> Result<Vec<BySeed<'a>>, AllocError>
    ensures { IfOk result (λ made. made.items ≡ union seed_cmp [] list.now) }
{
    let set = gathered(alloc, list)?;
    let mut made = Vec::with_capacity(alloc, set.len())?;
    for member in set {
        made.push(member)?;
    }
    Ok(made)
}
