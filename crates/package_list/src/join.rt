//! Two lists joined in one pass over both.
ghost use Rattle.std.specs.Prelude.{◌≡◌, IfOk, OnOk, [], MatchOption, map, ◌++◌, ◌∷◌};
ghost use Rattle.std.specs.Rc.{rc_value};
ghost use Rattle.package_core.specs.Order.{package_cmp};
ghost use Rattle.package_list.specs.Sorted.{IsAscending};
ghost use Rattle.package_list.specs.Lists.{union};

use crate::shared::{SharedPackage, package_of};
use package_core::compare_packages;
use std::alloc::{AllocError, Global};
use std::cmp::Ordering;
use std::rc::Rc;

/// All of both lists, shared; of two equals the one of the first list.
pub(crate) fn union_of(
    alloc: Global,
    xs: &[Rc<SharedPackage>],
    ys: &[Rc<SharedPackage>],
) -> Result<Vec<Rc<SharedPackage>>, AllocError>
    requires first { IsAscending package_cmp (map rc_value xs.now) }
    requires second { IsAscending package_cmp (map rc_value ys.now) }
    ensures members { IfOk result (λ v. map rc_value v.items ≡ union (map rc_value xs.now) (map rc_value ys.now)) }
    ensures ascending { IfOk result (λ v. IsAscending package_cmp (map rc_value v.items)) }
{
    let all = one_pass(alloc, xs, ys)?;
    Ok(all)
}

/// The union by one cursor in each list. The first list's order isn't needed for what it gives.
pub(crate) fn one_pass(
    alloc: Global,
    xs: &[Rc<SharedPackage>],
    ys: &[Rc<SharedPackage>],
) -> Result<Vec<Rc<SharedPackage>>, AllocError>
    requires { IsAscending package_cmp (map rc_value ys.now) }
    ensures { IfOk result (λ v. map rc_value v.items ≡ union (map rc_value xs.now) (map rc_value ys.now)) }
{
    let mut all = Vec::new(alloc);
    let mut left = xs;
    let mut right = ys;
    while let Some((y, ys)) = first_and_rest(right) {
        match first_and_rest(left) {
            None => {
                push_copy(&mut all, y)?;
                right = ys;
            }
            Some((x, xs)) => match compare_packages(package_of(x), package_of(y)) {
                Ordering::Less => {
                    push_copy(&mut all, x)?;
                    left = xs;
                }
                Ordering::Equal => {
                    right = ys;
                }
                Ordering::Greater => {
                    push_copy(&mut all, y)?;
                    right = ys;
                }
            },
        }
    }
    append_items(&mut all, left)?;
    Ok(all)
}

/// The same members, shared, in a vector without room for more.
pub(crate) fn copy_items(
    alloc: Global,
    items: &[Rc<SharedPackage>],
) -> Result<Vec<Rc<SharedPackage>>, AllocError>
    ensures { IfOk result (λ v. map rc_value v.items ≡ map rc_value items.now) }
{
    let mut copies = Vec::with_capacity(alloc, items.len())?;
    for item in items {
        copies.push(item.clone()?)?;
    }
    Ok(copies)
}

pub(crate) fn push_copy(
    all: &mut Vec<Rc<SharedPackage>>,
    item: &Rc<SharedPackage>,
) -> Result<(), AllocError>
    ensures { OnOk result (map rc_value all.new.items ≡ map rc_value all.old.items ++ item.now.value ∷ []) }
{
    all.push(item.clone()?)?;
    Ok(())
}

pub(crate) fn append_items(
    all: &mut Vec<Rc<SharedPackage>>,
    items: &[Rc<SharedPackage>],
) -> Result<(), AllocError>
    ensures { OnOk result (map rc_value all.new.items ≡ map rc_value all.old.items ++ map rc_value items.now) }
{
    for item in items {
        push_copy(all, item)?;
    }
    Ok(())
}

/// The first element and those behind it.
pub(crate) fn first_and_rest<T>(xs: &[T]) -> Option<(&T, &[T])>
    ensures { MatchOption result (xs.now ≡ []) (λ p. xs.now ≡ p.0.now ∷ p.1.now) }
{
    xs.split_first()
}
