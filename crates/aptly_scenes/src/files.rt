//! Files in memory: a store or an inbox.
ghost use Rattle.std.specs.Prelude.{◌≡◌, ◌≤◌, ℕ, List, [], length, take, Some, None, slice_get, IfOk, OnOk, IfSome, IfNone};
ghost use Rattle.std.specs.Option.{option_copied};
ghost use Rattle.ap_host.specs.Disk.{with_file};
ghost use Rattle.ap_host.specs.Images.{IsChoice};
ghost use Rattle.ap_host.specs.Table.{files_of, IsOnce, SameFiles};

use ap_host::{Bytes, MemHost};
use ap_text::SafePath;
use std::alloc::{AllocError, Global};
use std::cmp::Ordering;
use std::marker::Model;

/// Files in the order of their paths' bytes, each path once.
#[derive(Drop)]
pub(crate) struct Files {
    entries: Vec<(SafePath, Bytes)>,
}

impl Model for Files {
    ghost use Rattle.ap_host.specs.Table.{Entries, IsOnce};

    ghost Value = { Entries };

    ghost view = { λ f. f.entries.items };

    ghost invariant = { λ f. IsOnce f.entries.items };
}

/// Where the file of this path is.
fn place_of(entries: &[(SafePath, Bytes)], path: &SafePath) -> Option<usize>
    ensures found { IfSome result (λ i. (c : List ℕ) × (slice_get entries.now i ≡ Some (path.now, c))) }
    ensures none { IfNone result (files_of entries.now path.now ≡ None) }
{
    for (i, entry) in entries.iter().enumerate() {
        if entry.0.is(path) {
            return Some(i);
        }
    }
    None
}

/// Where a file of this path would stand.
fn rank_of(entries: &[(SafePath, Bytes)], path: &SafePath) -> usize
    ensures { result ≤ length entries.now }
{
    for (i, entry) in entries.iter().enumerate() {
        if entry.0.order(path) == Ordering::Greater {
            return i;
        }
    }
    entries.len()
}

fn copied(
    alloc: Global,
    entries: &[(SafePath, Bytes)],
) -> Result<Vec<(SafePath, Bytes)>, AllocError>
    ensures { IfOk result (λ copy. copy.items ≡ entries.now) }
{
    let mut copy = Vec::new(alloc);
    for entry in entries {
        copy.push((entry.0.copy(alloc)?, entry.1.copy(alloc)?))?;
    }
    Ok(copy)
}

/// The path has these bytes from now on.
fn placed(
    entries: &mut Vec<(SafePath, Bytes)>,
    path: SafePath,
    bytes: Bytes,
) -> Result<(), AllocError>
    requires { IsOnce entries.old.items }
    ensures once { IsOnce entries.new.items }
    ensures files { OnOk result (SameFiles (files_of entries.new.items) (with_file (files_of entries.old.items) path (Some bytes))) }
{
    match place_of(entries, &path) {
        Some(i) => {
            let entry = &mut entries[i];
            entry.1 = bytes;
        }
        None => {
            let i = rank_of(entries, &path);
            entries.insert(i, (path, bytes))?;
        }
    }
    Ok(())
}

/// There is no file at the path from now on.
fn removed(entries: &mut Vec<(SafePath, Bytes)>, path: &SafePath)
    requires { IsOnce entries.old.items }
    ensures once { IsOnce entries.new.items }
    ensures files { SameFiles (files_of entries.new.items) (with_file (files_of entries.old.items) path.now None) }
{
    if let Some(i) = place_of(entries, path) {
        entries.remove(i);
    }
}

/// A file's bytes.
fn found<'a>(entries: &'a [(SafePath, Bytes)], path: &SafePath) -> Option<&'a [u8]>
    requires { IsOnce entries.now }
    ensures { option_copied result ≡ files_of entries.now path.now }
{
    match place_of(entries, path) {
        Some(i) => {
            let entry = &entries[i];
            Some(entry.1.as_slice())
        }
        None => None,
    }
}

impl Files {
    /// No files.
    pub(crate) fn new(alloc: Global) -> Files
        ensures { result ≡ [] }
    {
        Files {
            entries: Vec::new(alloc),
        }
    }

    /// What a choice takes of the first `upto` operations of a host.
    pub(crate) fn image(host: &MemHost, upto: usize, choice: u64) -> Result<Files, AllocError>
        requires { upto ≤ length host.now.ops }
        ensures { IfOk result (λ image. IsChoice (record { base = files_of host.now.base; ops = take upto host.now.ops }) choice image) }
    {
        let entries = host.image(upto, choice)?;
        Ok(Files { entries })
    }

    /// The files, to be read.
    pub(crate) fn as_slice(&self) -> &[(SafePath, Bytes)]
        ensures { result.now ≡ self.now }
    {
        self.entries.as_slice()
    }

    /// The same files once more, as hosts and inboxes take them.
    pub(crate) fn to_entries(&self, alloc: Global) -> Result<Vec<(SafePath, Bytes)>, AllocError>
        ensures same { IfOk result (λ entries. entries.items ≡ self.now) }
        ensures once { IfOk result (λ entries. IsOnce entries.items) }
    {
        let entries = copied(alloc, &self.entries)?;
        Ok(entries)
    }

    /// A file's bytes.
    pub(crate) fn bytes_at(&self, path: &SafePath) -> Option<&[u8]>
        ensures { option_copied result ≡ files_of self.now path.now }
    {
        found(&self.entries, path)
    }

    /// The path has these bytes from now on.
    pub(crate) fn place(&mut self, path: SafePath, bytes: Bytes) -> Result<(), AllocError>
        ensures { OnOk result (SameFiles (files_of self.new) (with_file (files_of self.old) path (Some bytes))) }
    {
        placed(&mut self.entries, path, bytes)
    }

    /// There is no file at the path from now on.
    pub(crate) fn remove(&mut self, path: &SafePath)
        ensures { SameFiles (files_of self.new) (with_file (files_of self.old) path.now None) }
    {
        removed(&mut self.entries, path);
    }
}
