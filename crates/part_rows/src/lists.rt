//! Calls of package_list.

use crate::packages::package_of;
use package_core::Package;
use package_list::{ListFault, PackageList};
use row_answers::{put_last, reply};
use row_table::{Desk, Stop, first_word, number_of, put, put_at, yes_or_no};
use std::alloc::{AllocError, Global};

pub fn play(desk: &mut Desk, out: &mut String, call: &str, rest: &str) -> Result<(), Stop> {
    match call {
        "insert" => insert(desk, out),
        "joined" => joined(desk, out),
        "merge" | "latest" | "append" | "known" => combine(desk, out, call, rest),
        "equal" => equal(desk, out, rest),
        "remove" => remove(desk, out, rest),
        _ => Err(Stop::NoCall),
    }
}

/// Keeps a list that was made, and prints it with its number.
fn keep(
    lists: &mut Vec<PackageList>,
    out: &mut String,
    made: Result<PackageList, ListFault>,
) -> Result<(), Stop> {
    match made {
        Ok(list) => {
            lists.push(list)?;
            Ok(put_last(out, lists)?)
        }
        Err(fault) => reply(out, fault),
    }
}

fn inserted(alloc: Global, packages: &[Package]) -> Result<PackageList, ListFault> {
    let mut list = PackageList::new(alloc);
    for package in packages {
        list.insert(alloc, package.copy(alloc)?)?;
    }
    Ok(list)
}

/// The held packages, inserted one after the other.
fn insert(desk: &mut Desk, out: &mut String) -> Result<(), Stop> {
    let made = inserted(desk.alloc, &desk.packages);
    keep(&mut desk.lists, out, made)
}

fn copies(alloc: Global, packages: &[Package]) -> Result<Vec<Package>, AllocError> {
    let mut made = Vec::new(alloc);
    for package in packages {
        made.push(package.copy(alloc)?)?;
    }
    Ok(made)
}

/// The held packages, joined at once.
fn joined(desk: &mut Desk, out: &mut String) -> Result<(), Stop> {
    let packages = copies(desk.alloc, &desk.packages)?;
    let made = PackageList::from_packages(desk.alloc, packages);
    keep(&mut desk.lists, out, made)
}

fn list_at<'a>(lists: &'a [PackageList], raw: &str) -> Result<&'a PackageList, Stop> {
    let number = number_of(raw)?;
    match lists.get(number as usize) {
        Some(list) => Ok(list),
        None => Err(Stop::NoCall),
    }
}

/// The later list comes to the list, as the call says.
fn combine_into(
    alloc: Global,
    call: &str,
    list: &mut PackageList,
    later: &PackageList,
) -> Result<(), ListFault> {
    match call {
        "merge" => list.merge_from(alloc, later),
        "latest" => list.latest_from(alloc, later),
        "append" => list.append_from(alloc, later),
        _ => list.join_known(alloc, later),
    }
}

/// A copy of the list, to which the later one came.
fn combined(
    alloc: Global,
    call: &str,
    list: &PackageList,
    later: &PackageList,
) -> Result<PackageList, ListFault> {
    let mut made = list.copy(alloc)?;
    combine_into(alloc, call, &mut made, later)?;
    Ok(made)
}

fn combine(desk: &mut Desk, out: &mut String, call: &str, rest: &str) -> Result<(), Stop> {
    let (list, later) = first_word(rest)?;
    let list = list_at(&desk.lists, list)?;
    let later = list_at(&desk.lists, later)?;
    let made = combined(desk.alloc, call, list, later);
    keep(&mut desk.lists, out, made)
}

/// Whether a list has a package, and the size of the equal member's file.
fn put_equal(out: &mut String, list: &PackageList, wanted: &Package) -> Result<(), AllocError> {
    put(out, &[yes_or_no(list.has(wanted))])?;
    match list.equal_of(wanted) {
        Some(member) => put_at(out, " ", member.said.size),
        None => Ok(()),
    }
}

/// The same of a list and the package of a text.
fn equal(desk: &Desk, out: &mut String, rest: &str) -> Result<(), Stop> {
    let (list, rest) = first_word(rest)?;
    let list = list_at(&desk.lists, list)?;
    let wanted = package_of(desk, rest)?;
    let done = put_equal(out, list, &wanted);
    drop(wanted);
    Ok(done?)
}

/// Takes the package of a text out of a list; whether it was there.
fn take_out(desk: &Desk, out: &mut String, list: &mut PackageList, rest: &str) -> Result<(), Stop> {
    let gone = package_of(desk, rest)?;
    let was_there = list.remove(&gone);
    drop(gone);
    Ok(put(out, &[yes_or_no(was_there), " "])?)
}

/// A copy of a list without a package, and whether it had it.
fn remove(desk: &mut Desk, out: &mut String, rest: &str) -> Result<(), Stop> {
    let (list, rest) = first_word(rest)?;
    let mut made = list_at(&desk.lists, list)?.copy(desk.alloc)?;
    take_out(desk, out, &mut made, rest)?;
    keep(&mut desk.lists, out, Ok(made))
}
