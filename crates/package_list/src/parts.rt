//! Lists that are a part of another one.
ghost use Rattle.std.specs.Prelude.{◌≡◌, IfOk};
ghost use Rattle.package_list.specs.Lists.{greatest, without};

use crate::list::PackageList;
use crate::reduce::greatest_of;
use std::alloc::{AllocError, Global};

/// The members that the other list hasn't, in their order, by a search by halves for each. Fails only for want of memory.
pub fn without_of(
    alloc: Global,
    list: &PackageList,
    gone: &PackageList,
) -> Result<PackageList, AllocError>
    ensures { IfOk result (λ left. left ≡ without list.now gone.now) }
{
    list.members_ascend();
    let mut left = Vec::new(alloc);
    for candidate in list.as_slice() {
        if !gone.has(candidate.package()) {
            left.push(candidate.clone()?)?;
        }
    }
    Ok(PackageList::from_ascending(left))
}

/// The greatest member of each name and architecture, in their order. Fails only for want of memory.
pub fn greatest_in(alloc: Global, list: &PackageList) -> Result<PackageList, AllocError>
    ensures { IfOk result (λ kept. kept ≡ greatest list.now) }
{
    list.members_ascend();
    let kept = greatest_of(alloc, list.as_slice())?;
    Ok(PackageList::from_ascending(kept))
}
