//! Lists without what another list replaces, and the greatest of each name and architecture.
ghost use Rattle.std.specs.Prelude.{◌≡◌, ◌∷◌, IfOk, map, not, filter};
ghost use Rattle.std.specs.Rc.{rc_value};
ghost use Rattle.package_core.specs.Order.{package_cmp};
ghost use Rattle.package_list.specs.Sorted.{IsAscending};
ghost use Rattle.package_list.specs.Order.{key_cmp};
ghost use Rattle.package_list.specs.Lists.{has_key, has_greater, greatest, merged, latest};

use crate::join::{append_items, first_and_rest, one_pass, push_copy, union_of};
use crate::shared::{SharedPackage, package_of};
use package_core::Package;
use std::alloc::{AllocError, Global};
use std::cmp::Ordering;
use std::rc::Rc;

/// The order by name and then architecture, by which the order of packages begins.
#[tactic(auto, unfolding(crate::specs::Order::key_cmp))]
fn compare_keys(a: &Package, b: &Package) -> Ordering
    ensures { result ≡ key_cmp a.now b.now }
{
    let order = a.name.order(&b.name);
    if order.is_ne() {
        return order;
    }
    a.arch.order(&b.arch)
}

/// The members whose name and architecture no member of the other list has, shared. One pass over both.
pub(crate) fn without_keys(
    alloc: Global,
    xs: &[Rc<SharedPackage>],
    ys: &[Rc<SharedPackage>],
) -> Result<Vec<Rc<SharedPackage>>, AllocError>
    requires first { IsAscending package_cmp (map rc_value xs.now) }
    requires second { IsAscending package_cmp (map rc_value ys.now) }
    ensures { IfOk result (λ v. map rc_value v.items ≡ filter (λ x. not (has_key (map rc_value ys.now) x)) (map rc_value xs.now)) }
{
    let mut kept = Vec::new(alloc);
    let mut left = xs;
    let mut right = ys;
    while let Some((y, ys)) = first_and_rest(right) {
        match first_and_rest(left) {
            None => {
                return Ok(kept);
            }
            Some((x, xs)) => match compare_keys(package_of(x), package_of(y)) {
                Ordering::Less => {
                    push_copy(&mut kept, x)?;
                    left = xs;
                }
                Ordering::Equal => {
                    left = xs;
                }
                Ordering::Greater => {
                    right = ys;
                }
            },
        }
    }
    append_items(&mut kept, left)?;
    Ok(kept)
}

/// The members than which none of the same name and architecture is greater: the last of each such group. Shared.
pub(crate) fn greatest_of(
    alloc: Global,
    xs: &[Rc<SharedPackage>],
) -> Result<Vec<Rc<SharedPackage>>, AllocError>
    requires { IsAscending package_cmp (map rc_value xs.now) }
    ensures { IfOk result (λ v. map rc_value v.items ≡ greatest (map rc_value xs.now)) }
{
    let mut kept = Vec::new(alloc);
    let mut left = xs;
    while let Some((x, xs)) = first_and_rest(left) {
        if goes_on(package_of(x), xs) {
            left = xs;
        } else {
            push_copy(&mut kept, x)?;
            left = xs;
        }
    }
    Ok(kept)
}

/// Whether the first of the following members has the package's name and architecture.
fn goes_on(one: &Package, following: &[Rc<SharedPackage>]) -> bool
    requires { IsAscending package_cmp (one.now ∷ map rc_value following.now) }
    ensures { result ≡ has_greater (one.now ∷ map rc_value following.now) one.now }
{
    match first_and_rest(following) {
        Some((next, _)) => compare_keys(package_of(next), one).is_eq(),
        None => false,
    }
}

/// All of the second list, and of the first the members whose name and architecture the second hasn't.
pub(crate) fn merge_of(
    alloc: Global,
    xs: &[Rc<SharedPackage>],
    ys: &[Rc<SharedPackage>],
) -> Result<Vec<Rc<SharedPackage>>, AllocError>
    requires first { IsAscending package_cmp (map rc_value xs.now) }
    requires second { IsAscending package_cmp (map rc_value ys.now) }
    ensures members { IfOk result (λ v. map rc_value v.items ≡ merged (map rc_value xs.now) (map rc_value ys.now)) }
    ensures ascending { IfOk result (λ v. IsAscending package_cmp (map rc_value v.items)) }
{
    let kept = without_keys(alloc, xs, ys)?;
    let all = one_pass(alloc, &kept, ys)?;
    Ok(all)
}

/// The greatest member of the union for each name and architecture.
pub(crate) fn latest_of(
    alloc: Global,
    xs: &[Rc<SharedPackage>],
    ys: &[Rc<SharedPackage>],
) -> Result<Vec<Rc<SharedPackage>>, AllocError>
    requires first { IsAscending package_cmp (map rc_value xs.now) }
    requires second { IsAscending package_cmp (map rc_value ys.now) }
    ensures members { IfOk result (λ v. map rc_value v.items ≡ latest (map rc_value xs.now) (map rc_value ys.now)) }
    ensures ascending { IfOk result (λ v. IsAscending package_cmp (map rc_value v.items)) }
{
    let all = union_of(alloc, xs, ys)?;
    let kept = greatest_of(alloc, &all)?;
    Ok(kept)
}
