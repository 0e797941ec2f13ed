//! Two lists joined in one pass over both, unless a member of the second clashes in the union.
ghost use Rattle.std.specs.Prelude.{◌≡◌, MatchResult, Result, Ok, Err, None, if◌then◌else◌, ◌||◌, map};
ghost use Rattle.std.specs.Rc.{rc_value};
ghost use Rattle.package_core.specs.Card.{triple};
ghost use Rattle.package_core.specs.Order.{package_cmp};
ghost use Rattle.package_list.specs.declared.fault.ListFault.{ListFault};
ghost use Rattle.package_list.specs.declared.fault.ListFault.TheVariants.{Conflict};
ghost use Rattle.package_list.specs.Sorted.{IsAscending, IsBelow, AllLess, IsBetween};
ghost use Rattle.package_list.specs.Lists.{union, clashes};
ghost use Rattle.package_list.specs.Answers.{Answers, FaultIs, first_clash, conflict_or};

use crate::fault::ListFault;
use crate::join::{append_items, first_and_rest, push_copy};
use crate::place::{first_has_triple, last_has_triple};
use crate::shared::{SharedPackage, package_of};
use package_core::{Package, compare_packages};
use std::alloc::Global;
use std::cmp::Ordering;
use std::rc::Rc;

/// All of both lists, shared; of two equals the one of the first list. It ends at the first member of the second list that
/// clashes with a member of the union.
pub(crate) fn apart_union_of(
    alloc: Global,
    xs: &[Rc<SharedPackage>],
    ys: &[Rc<SharedPackage>],
) -> Result<Vec<Rc<SharedPackage>>, ListFault>
    requires first { IsAscending package_cmp (map rc_value xs.now) }
    requires second { IsAscending package_cmp (map rc_value ys.now) }
    ensures { MatchResult result (λ v. (first_clash (union (map rc_value xs.now) (map rc_value ys.now)) (map rc_value ys.now) ≡ None) × (map rc_value v.items ≡ union (map rc_value xs.now) (map rc_value ys.now))) (λ e. (answer : Result (Unit {0}) ListFault) → FaultIs e (conflict_or (first_clash (union (map rc_value xs.now) (map rc_value ys.now)) (map rc_value ys.now)) answer)) }
{
    let mut all = Vec::new(alloc);
    let mut left = xs;
    let mut right = ys;
    while let Some((y, ys)) = first_and_rest(right) {
        match first_and_rest(left) {
            None => {
                check_apart(alloc, &all, left, ys, package_of(y))?;
                push_copy(&mut all, y)?;
                right = ys;
            }
            Some((x, xs)) => match compare_packages(package_of(x), package_of(y)) {
                Ordering::Less => {
                    push_copy(&mut all, x)?;
                    left = xs;
                }
                Ordering::Equal => {
                    check_apart(alloc, &all, xs, ys, package_of(y))?;
                    right = ys;
                }
                Ordering::Greater => {
                    check_apart(alloc, &all, left, ys, package_of(y))?;
                    push_copy(&mut all, y)?;
                    right = ys;
                }
            },
        }
    }
    append_items(&mut all, left)?;
    Ok(all)
}

/// A conflict where the package clashes with a member of the three lists: the one before it and the two behind it.
fn check_apart(
    alloc: Global,
    before: &[Rc<SharedPackage>],
    left: &[Rc<SharedPackage>],
    right: &[Rc<SharedPackage>],
    one: &Package,
) -> Result<(), ListFault>
    requires { IsBetween package_cmp (map rc_value before.now) (map rc_value left.now) (map rc_value right.now) one.now }
    ensures { Answers result (if clashes (map rc_value before.now) one.now || (clashes (map rc_value left.now) one.now || clashes (map rc_value right.now) one.now) then Err (Conflict (triple one.now)) else Ok tt) }
{
    if clashes_beside(before, left, right, one) {
        return Err(ListFault::Conflict(one.triple(alloc)?));
    }
    Ok(())
}

/// Whether the package clashes: then the last of the list before it, or the first of one behind it, has its triple.
fn clashes_beside(
    before: &[Rc<SharedPackage>],
    left: &[Rc<SharedPackage>],
    right: &[Rc<SharedPackage>],
    one: &Package,
) -> bool
    requires { IsBetween package_cmp (map rc_value before.now) (map rc_value left.now) (map rc_value right.now) one.now }
    ensures { result ≡ (clashes (map rc_value before.now) one.now || (clashes (map rc_value left.now) one.now || clashes (map rc_value right.now) one.now)) }
{
    ends_in_clash(before, one) || begins_in_clash(left, one) || begins_in_clash(right, one)
}

fn ends_in_clash(before: &[Rc<SharedPackage>], one: &Package) -> bool
    requires ascending { IsAscending package_cmp (map rc_value before.now) }
    requires less { AllLess package_cmp (map rc_value before.now) one.now }
    ensures { result ≡ clashes (map rc_value before.now) one.now }
{
    last_has_triple(before, before.len(), one)
}

fn begins_in_clash(behind: &[Rc<SharedPackage>], one: &Package) -> bool
    requires ascending { IsAscending package_cmp (map rc_value behind.now) }
    requires above { IsBelow package_cmp one.now (map rc_value behind.now) }
    ensures { result ≡ clashes (map rc_value behind.now) one.now }
{
    first_has_triple(behind, 0, one)
}
