//! Packages in any order, joined into a list one after the other.
ghost use Rattle.std.specs.Prelude.{◌≡◌, IfOk, OnOk, MatchResult, Ok, Err, if◌then◌else◌, map, false};
ghost use Rattle.std.specs.Ordering.{is_eq};
ghost use Rattle.std.specs.Rc.{rc_value};
ghost use Rattle.package_core.specs.Card.{triple};
ghost use Rattle.package_core.specs.Order.{package_cmp};
ghost use Rattle.package_list.specs.declared.fault.ListFault.TheVariants.{Conflict};
ghost use Rattle.package_list.specs.Sorted.{put};
ghost use Rattle.package_list.specs.Answers.{Answers, FaultIs, insert_answer, join_answer};

use crate::by_triple::ByTriple;
use crate::fault::ListFault;
use crate::list::MOST_MEMBERS;
use package_core::{Package, compare_packages};
use std::alloc::{AllocError, Global};
use std::collections::BTreeSet;
use std::rc::Rc;

/// The same packages, each held by a counted pointer.
pub(crate) fn hold_all(
    alloc: Global,
    packages: Vec<Package>,
) -> Result<Vec<Rc<Package>>, AllocError>
    ensures { IfOk result (λ v. map rc_value v.items ≡ packages.items) }
{
    let mut held = Vec::with_capacity(alloc, packages.len())?;
    for package in packages {
        held.push(Rc::new(alloc, package)?)?;
    }
    Ok(held)
}

/// The members that the packages come to, put in one after the other.
pub(crate) fn gathered(
    alloc: Global,
    packages: &[Rc<Package>],
) -> Result<BTreeSet<ByTriple>, ListFault>
    ensures { MatchResult result (λ members. join_answer (map rc_value packages.now) ≡ Ok members.keys) (λ e. FaultIs e (join_answer (map rc_value packages.now))) }
{
    let mut members = BTreeSet::new(alloc);
    for package in packages {
        gather_one(alloc, &mut members, ByTriple::new(package.clone()?))?;
    }
    Ok(members)
}

/// Puts one package among those before it, of which no two have one triple.
fn gather_one(
    alloc: Global,
    members: &mut BTreeSet<ByTriple>,
    new: ByTriple,
) -> Result<bool, ListFault>
    ensures answer { Answers result (insert_answer members.old.keys new) }
    ensures ok { OnOk result (members.new.keys ≡ put package_cmp members.old.keys new) }
{
    let is_full = members.len() >= MOST_MEMBERS;
    if let Some(member) = members.get(&new) {
        return check_equal(alloc, member.package(), new.package());
    }
    if is_full {
        return Err(ListFault::Full);
    }
    members.insert(new)?;
    Ok(true)
}

/// Whether the member of the package's triple is its equal; false, since then it isn't put in.
fn check_equal(alloc: Global, member: &Package, new: &Package) -> Result<bool, ListFault>
    ensures { Answers result (if is_eq (package_cmp member.now new.now) then Ok false else Err (Conflict (triple new.now))) }
{
    if compare_packages(member, new).is_eq() {
        return Ok(false);
    }
    Err(ListFault::Conflict(new.triple(alloc)?))
}

/// The members in their order.
pub(crate) fn items_of(
    alloc: Global,
    members: BTreeSet<ByTriple>,
) -> Result<Vec<Rc<Package>>, AllocError>
    ensures { IfOk result (λ v. map rc_value v.items ≡ members.keys) }
{
    let mut items = Vec::with_capacity(alloc, members.len())?;
    for member in members {
        items.push(member.into_held())?;
    }
    Ok(items)
}
