// A table of files, each path once.
ghost use Rattle.std.specs.Prelude.{◌≡◌, ◌≢◌, ◌<◌, ◌≤◌, IfOk, ℕ, List, [], ◌∷◌, ◌++◌, length, Some, None, IsOk, IfSome, IfNone, OnOk, OnErr, IsSome, option_map, slice_get, vec_len};
ghost use Rattle.std.specs.Option.{option_copied};
ghost use Rattle.ap_host.specs.Disk.{with_file, moved};
ghost use Rattle.ap_host.specs.Calls.{Reads};
ghost use Rattle.ap_host.specs.Drawing.{entry_of};
ghost use Rattle.ap_host.specs.Table.{files_of, IsOnce, SameFiles};

use crate::bytes::Bytes;
use ap_text::SafePath;
use std::alloc::{AllocError, Global};

pub fn place_of(entries: &[(SafePath, Bytes)], path: &SafePath) -> Option<usize>
    ensures found { IfSome result (λ i. (c : List ℕ) × (slice_get entries.now i ≡ Some (path.now, c))) }
    ensures none { IfNone result (files_of entries.now path.now ≡ None) }
{
    for (i, e) in entries.iter().enumerate() {
        if e.0.is(path) {
            return Some(i);
        }
    }
    None
}

/// A file's bytes.
pub fn file_of<'a>(entries: &'a [(SafePath, Bytes)], path: &SafePath) -> Option<&'a Bytes>
    requires { IsOnce entries.now }
    ensures { option_copied result ≡ files_of entries.now path.now }
{
    match place_of(entries, path) {
        Some(i) => {
            let entry = &entries[i];
            Some(&entry.1)
        }
        None => None,
    }
}

/// Adds a copy of the file at this path of another table, if it has one.
pub fn add_file(
    alloc: Global,
    entries: &mut Vec<(SafePath, Bytes)>,
    from: &[(SafePath, Bytes)],
    path: &SafePath,
) -> Result<(), AllocError>
    requires { IsOnce from.now }
    ensures { OnOk result (entries.new.items ≡ entries.old.items ++ entry_of path.now (files_of from.now path.now)) }
{
    match file_of(from, path) {
        Some(bytes) => entries.push((path.copy(alloc)?, bytes.copy(alloc)?))?,
        None => {}
    }
    Ok(())
}

/// The file, emptied or made.
pub fn empty_file(
    alloc: Global,
    entries: &mut Vec<(SafePath, Bytes)>,
    path: SafePath,
) -> Result<(), AllocError>
    requires { IsOnce entries.old.items }
    ensures once { IsOnce entries.new.items }
    ensures ok { OnOk result (SameFiles (files_of entries.new.items) (with_file (files_of entries.old.items) path (Some []))) }
    ensures err { OnErr result (entries.new.items ≡ entries.old.items) }
{
    match place_of(entries, &path) {
        Some(i) => {
            let entry = &mut entries[i];
            entry.1 = Bytes::empty(alloc);
        }
        None => entries.push((path, Bytes::empty(alloc)))?,
    }
    Ok(())
}

/// More bytes at a file's end.
pub fn extend_file(
    entries: &mut Vec<(SafePath, Bytes)>,
    path: &SafePath,
    more: &[u8],
) -> Result<(), AllocError>
    requires { IsOnce entries.old.items }
    ensures once { IsOnce entries.new.items }
    ensures ok { OnOk result (SameFiles (files_of entries.new.items) (with_file (files_of entries.old.items) path.now (option_map (λ c. c ++ more.now) (files_of entries.old.items path.now)))) }
    ensures err { OnErr result (entries.new.items ≡ entries.old.items) }
{
    if let Some(i) = place_of(entries, path) {
        let entry = &mut entries[i];
        entry.1.extend(more)?;
    }
    Ok(())
}

/// The file is no more.
pub fn remove_file(entries: &mut Vec<(SafePath, Bytes)>, path: &SafePath)
    requires { IsOnce entries.old.items }
    ensures once { IsOnce entries.new.items }
    ensures files { SameFiles (files_of entries.new.items) (with_file (files_of entries.old.items) path.now None) }
{
    if let Some(i) = place_of(entries, path) {
        entries.remove(i);
    }
}

/// The file, which is there, has another path.
fn move_file(entries: &mut Vec<(SafePath, Bytes)>, from: &SafePath, to: SafePath)
    requires { IsOnce entries.old.items }
    ensures once { IsOnce entries.new.items }
    ensures files { SameFiles (files_of entries.new.items) (with_file (with_file (files_of entries.old.items) from.now None) to (files_of entries.old.items from.now)) }
{
    if from.is(&to) {
        return;
    }
    remove_file(entries, &to);
    if let Some(i) = place_of(entries, from) {
        let entry = &mut entries[i];
        entry.0 = to;
    }
}

/// The file has another path. Where there is none, nothing changes.
pub fn rename_file(entries: &mut Vec<(SafePath, Bytes)>, from: &SafePath, to: SafePath)
    requires { IsOnce entries.old.items }
    ensures once { IsOnce entries.new.items }
    ensures files { SameFiles (files_of entries.new.items) (moved (files_of entries.old.items) from.now to (files_of entries.old.items from.now)) }
{
    match place_of(entries, from) {
        Some(_) => move_file(entries, from, to),
        None => {}
    }
}

/// A file's length.
pub fn length_of(entries: &[(SafePath, Bytes)], path: &SafePath) -> Option<u64>
    requires { IsOnce entries.now }
    ensures { result ≡ option_map length (files_of entries.now path.now) }
{
    match place_of(entries, path) {
        Some(i) => {
            let entry = &entries[i];
            Some(entry.1.len() as u64)
        }
        None => None,
    }
}

pub fn copy_entries(
    alloc: Global,
    entries: &[(SafePath, Bytes)],
) -> Result<Vec<(SafePath, Bytes)>, AllocError>
    ensures { IfOk result (λ v. v.items ≡ entries.now) }
{
    let mut copied = Vec::new(alloc);
    for e in entries {
        let path = e.0.copy(alloc)?;
        let bytes = Bytes::new(alloc, e.1.as_slice())?;
        copied.push((path, bytes))?;
    }
    Ok(copied)
}

/// Copies bytes from a place on.
fn copy_from(bytes: &[u8], at: u64, out: &mut [u8]) -> usize
    ensures bound { result ≤ length out.new }
    ensures read { Reads (Some bytes.now) at out.new result }
{
    let len = bytes.len();
    let at = at as usize;
    if len <= at {
        return 0;
    }
    let n = out.len().min(len - at);
    out[..n].copy_from_slice(&bytes[at..at + n]);
    n
}

/// Reads a file from a place on.
pub fn read_file(entries: &[(SafePath, Bytes)], path: &SafePath, at: u64, out: &mut [u8]) -> usize
    requires { IsOnce entries.now }
    ensures bound { result ≤ length out.new }
    ensures read { Reads (files_of entries.now path.now) at out.new result }
{
    match place_of(entries, path) {
        Some(i) => {
            let entry = &entries[i];
            copy_from(entry.1.as_slice(), at, out)
        }
        None => 0,
    }
}
