//! Lists of packages.

use crate::answers::Answer;
use crate::packages::put_triple;
use package_list::{ListFault, PackageList};
use row_table::{put, put_at};
use std::alloc::AllocError;

/// Each member with the size of its file.
fn put_members(out: &mut String, list: &PackageList) -> Result<(), AllocError> {
    for member in list.as_slice() {
        let of = member.package();
        put(out, &[" "])?;
        put_triple(out, of)?;
        put_at(out, "/", of.said.size)?;
    }
    Ok(())
}

impl Answer for ListFault {
    fn put(&self, out: &mut String) -> Result<(), AllocError> {
        match self {
            ListFault::Conflict(triple) => put(out, &["conflict ", triple.as_str()]),
            ListFault::Full => out.push_str("full"),
            ListFault::OutOfMemory => out.push_str("out of memory"),
        }
    }
}

/// The number of the last list, and its members.
pub fn put_last(out: &mut String, lists: &[PackageList]) -> Result<(), AllocError> {
    match lists.split_last() {
        Some((list, earlier)) => {
            put_at(out, "list ", earlier.len() as u64)?;
            put(out, &[":"])?;
            put_members(out, list)
        }
        None => Ok(()),
    }
}
