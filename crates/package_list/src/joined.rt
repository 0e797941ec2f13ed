//! Packages that were joined, before they are shared.
ghost use Rattle.std.specs.Prelude.{◌≡◌, IfOk, length, map};
ghost use Rattle.std.specs.Rc.{rc_value};
ghost use Rattle.package_core.specs.Order.{package_cmp};
ghost use Rattle.package_list.specs.Sorted.{IsAscending};
ghost use Rattle.package_list.specs.Answers.{Answers, join_answer};

use crate::fault::ListFault;
use crate::gather::{gathered, items_of};
use crate::list::PackageList;
use crate::shared::{SharedPackage, share};
use package_core::Package;
use std::alloc::{AllocError, Global};
use std::marker::Model;
use std::rc::Rc;

/// Packages that were joined, seen as the list of them: they stand in the order of packages, no two of them equal. They have no ids
/// yet, so that none is found for a package that changes before it is shared.
#[derive(Drop)]
pub struct JoinedPackages {
    items: Vec<Rc<Package>>,
}

impl Model for JoinedPackages {
    ghost use Rattle.std.specs.Prelude.{List, map};
    ghost use Rattle.std.specs.Rc.{rc_value};
    ghost use Rattle.package_core.specs.declared.package.Package.{Package};

    ghost Value = { List Package };

    ghost use Rattle.package_core.specs.Order.{package_cmp};
    ghost use Rattle.package_list.specs.Sorted.{IsAscending};

    ghost view = { λ a. map rc_value a.items.items };

    ghost invariant = { λ a. IsAscending package_cmp (map rc_value a.items.items) };
}

impl JoinedPackages {
    /// The packages joined in the order in which they stand; of equal ones the first stays. The first that can't join those
    /// before it decides the fault: `Conflict` where none of those is its equal and one of them has its triple; else `Full`
    /// where it would be the 200,001st. It takes n log n comparisons, and copies no package.
    pub fn new(alloc: Global, packages: &[Rc<Package>]) -> Result<JoinedPackages, ListFault>
        ensures { Answers result (join_answer (map rc_value packages.now)) }
    {
        let members = gathered(alloc, packages)?;
        Ok(JoinedPackages {
            items: items_of(alloc, members)?,
        })
    }

    /// How many they are.
    pub fn len(&self) -> usize
        ensures { result ≡ length self.now }
    {
        self.items.len()
    }

    /// All of them in their order, for a loop over them.
    pub fn as_slice(&self) -> &[Rc<Package>]
        ensures { map rc_value result.now ≡ self.now }
    {
        self.items.as_slice()
    }

    /// The list of them, shared: the id of each is found now. A package that is held elsewhere too is copied. Fails only for
    /// want of memory.
    pub fn share(self, alloc: Global) -> Result<PackageList, AllocError>
        ensures { IfOk result (λ list. list ≡ self) }
    {
        let shared = share_all(alloc, self.items)?;
        Ok(PackageList::from_ascending(shared))
    }
}

/// The package, shared. It is moved where nothing else holds it.
fn share_held(alloc: Global, held: Rc<Package>) -> Result<Rc<SharedPackage>, AllocError>
    ensures { IfOk result (λ made. rc_value made ≡ held.value) }
{
    match Rc::try_unwrap(held) {
        Ok(package) => share(alloc, package),
        Err(held) => share(alloc, held.as_ref().copy(alloc)?),
    }
}

/// The same packages, shared.
fn share_all(
    alloc: Global,
    packages: Vec<Rc<Package>>,
) -> Result<Vec<Rc<SharedPackage>>, AllocError>
    ensures { IfOk result (λ v. map rc_value v.items ≡ map rc_value packages.items) }
{
    let mut shared = Vec::with_capacity(alloc, packages.len())?;
    for held in packages {
        shared.push(share_held(alloc, held)?)?;
    }
    Ok(shared)
}
