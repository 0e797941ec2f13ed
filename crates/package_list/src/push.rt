//! One more package behind all members.
ghost use Rattle.std.specs.Prelude.{◌≡◌, ◌<◌, ◌↔◌, ◌++◌, ◌∷◌, [], IfOk, OnErr, IsTrue, IsFalse, MatchOption, length, map, drop, slice_get, Some, if◌then◌else◌};
ghost use Rattle.std.specs.Rc.{rc_value};
ghost use Rattle.package_core.specs.Order.{package_cmp, same_triple};
ghost use Rattle.package_list.specs.Sorted.{IsAscending, AllLess, last_is};
ghost use Rattle.package_list.specs.Lists.{clashes};

use crate::shared::{SharedPackage, package_of};
use package_core::{Package, compare_packages, has_same_triple};
use std::alloc::AllocError;
use std::rc::Rc;

/// Whether each member is less than the package: whether the last is.
fn is_behind(items: &[Rc<SharedPackage>], new: &Package) -> bool
    requires { IsAscending package_cmp (map rc_value items.now) }
    ensures { IsTrue result ↔ AllLess package_cmp (map rc_value items.now) new.now }
{
    match items.split_last() {
        None => true,
        Some((last, _)) => compare_packages(package_of(last), new).is_lt(),
    }
}

/// Whether the last member has the package's name, version and architecture.
fn last_has_triple(items: &[Rc<SharedPackage>], new: &Package) -> bool
    ensures { result ≡ last_is (λ q. same_triple q new.now) (map rc_value items.now) }
{
    match items.split_last() {
        None => false,
        Some((last, _)) => has_same_triple(package_of(last), new),
    }
}

/// Whether the package may stand behind all members: each is less, and none has its name, version and architecture.
fn may_follow(items: &[Rc<SharedPackage>], new: &Package) -> bool
    requires { IsAscending package_cmp (map rc_value items.now) }
    ensures { IsTrue result ↔ (AllLess package_cmp (map rc_value items.now) new.now × IsFalse (clashes (map rc_value items.now) new.now)) }
{
    is_behind(items, new) && !last_has_triple(items, new)
}

pub(crate) fn push_onto(
    items: &mut Vec<Rc<SharedPackage>>,
    new: Rc<SharedPackage>,
) -> Result<bool, AllocError>
    requires { IsAscending package_cmp (map rc_value items.old.items) }
    ensures answer { IfOk result (λ done. IsTrue done ↔ AllLess package_cmp (map rc_value items.old.items) new.value) }
    ensures list { IfOk result (λ done. map rc_value items.new.items ≡ (if done then map rc_value items.old.items ++ new.value ∷ [] else map rc_value items.old.items)) }
    ensures err { OnErr result (map rc_value items.new.items ≡ map rc_value items.old.items) }
    ensures ascending { IsAscending package_cmp (map rc_value items.new.items) }
{
    if !is_behind(items, package_of(&new)) {
        return Ok(false);
    }
    items.push(new)?;
    Ok(true)
}

fn shared(item: &Rc<SharedPackage>) -> Result<Rc<SharedPackage>, AllocError>
    ensures { IfOk result (λ copy. rc_value copy ≡ item.now.value) }
{
    item.clone()
}

pub(crate) fn push_apart(
    items: &mut Vec<Rc<SharedPackage>>,
    new: &Rc<SharedPackage>,
) -> Result<bool, AllocError>
    requires { IsAscending package_cmp (map rc_value items.old.items) }
    ensures answer { IfOk result (λ done. IsTrue done ↔ (AllLess package_cmp (map rc_value items.old.items) new.now.value × IsFalse (clashes (map rc_value items.old.items) new.now.value))) }
    ensures list { IfOk result (λ done. map rc_value items.new.items ≡ (if done then map rc_value items.old.items ++ new.now.value ∷ [] else map rc_value items.old.items)) }
    ensures err { OnErr result (map rc_value items.new.items ≡ map rc_value items.old.items) }
    ensures ascending { IsAscending package_cmp (map rc_value items.new.items) }
{
    if !may_follow(items, package_of(new)) {
        return Ok(false);
    }
    let copy = shared(new)?;
    items.push(copy)?;
    Ok(true)
}
