// The names of the files below a folder, in order.
ghost use Rattle.std.specs.Prelude.{◌≡◌, ◌⊎◌, ◌↔◌, ◌≤◌, ◌<◌, ℕ, List, length, take, drop, slice_get, IfOk, OnOk, IsTrue, IsFalse, IsSome, Some};
ghost use Rattle.std.specs.List.{AllByRecursion};
ghost use Rattle.ap_host.specs.Table.{files_of};
ghost use Rattle.ap_host.specs.Phases.{Touches};
ghost use Rattle.ap_host.specs.Images.{AreNamed};
ghost use Rattle.ap_host.specs.Names.{Before, IsAscending, IsOneOf, NamesOf};

use crate::bytes::Bytes;
use crate::host::Op;
use ap_text::SafePath;
use std::alloc::{AllocError, Global};
use std::cmp::Ordering;

/// How many of the names come before a path.
fn rank_of(names: &[SafePath], path: &SafePath) -> usize
    requires { IsAscending names.now }
    ensures within { result ≤ length names.now }
    ensures before { AllByRecursion (λ q. Before q path.now) (take result names.now) }
    ensures after { (q : List ℕ) → slice_get names.now result ≡ Some q → (path.now ≡ q) ⊎ Before path.now q }
{
    for (i, name) in names.iter().enumerate() {
        match path.order(name) {
            Ordering::Less => return i,
            Ordering::Equal => return i,
            Ordering::Greater => {}
        }
    }
    names.len()
}

fn stands_at(names: &[SafePath], at: usize, path: &SafePath) -> bool
    ensures yes { IsTrue result → slice_get names.now at ≡ Some path.now }
    ensures not { IsFalse result → slice_get names.now at ≡ Some path.now → ⊥ }
{
    at < names.len() && names[at].is(path)
}

fn insert_name(names: &mut Vec<SafePath>, path: SafePath) -> Result<(), AllocError>
    requires { IsAscending names.old.items }
    ensures ascending { OnOk result (IsAscending names.new.items) }
    ensures each { OnOk result ((q : List ℕ) → IsOneOf q names.new.items ↔ ((q ≡ path) ⊎ IsOneOf q names.old.items)) }
{
    let at = rank_of(names, &path);
    if stands_at(names, at, &path) {
        return Ok(());
    }
    names.insert(at, path)?;
    Ok(())
}

pub fn names_below(
    alloc: Global,
    entries: &[(SafePath, Bytes)],
    folder: &SafePath,
) -> Result<Vec<SafePath>, AllocError>
    ensures { IfOk result (λ names. NamesOf folder.now (files_of entries.now) names.items) }
{
    let mut names = Vec::new(alloc);
    for e in entries {
        if e.0.is_below(folder) {
            insert_name(&mut names, e.0.copy(alloc)?)?;
        }
    }
    Ok(names)
}

fn insert_copy(alloc: Global, names: &mut Vec<SafePath>, path: &SafePath) -> Result<(), AllocError>
    requires { IsAscending names.old.items }
    ensures ascending { OnOk result (IsAscending names.new.items) }
    ensures each { OnOk result ((q : List ℕ) → IsOneOf q names.new.items ↔ ((q ≡ path.now) ⊎ IsOneOf q names.old.items)) }
{
    let path = path.copy(alloc)?;
    insert_name(names, path)
}

/// The names of all files.
fn names_of(alloc: Global, entries: &[(SafePath, Bytes)]) -> Result<Vec<SafePath>, AllocError>
    ensures ascending { IfOk result (λ names. IsAscending names.items) }
    ensures each { IfOk result (λ names. (q : List ℕ) → IsOneOf q names.items ↔ IsSome (files_of entries.now q)) }
{
    let mut names = Vec::new(alloc);
    for e in entries {
        insert_copy(alloc, &mut names, &e.0)?;
    }
    Ok(names)
}

/// Puts the paths that an operation is on among the names.
fn insert_touched(alloc: Global, names: &mut Vec<SafePath>, op: &Op) -> Result<(), AllocError>
    requires { IsAscending names.old.items }
    ensures ascending { OnOk result (IsAscending names.new.items) }
    ensures each { OnOk result ((q : List ℕ) → IsOneOf q names.new.items ↔ (Touches q op.now ⊎ IsOneOf q names.old.items)) }
{
    match op {
        Op::Create(path) => insert_copy(alloc, names, path),
        Op::Append(path, _) => insert_copy(alloc, names, path),
        Op::Sync(path) => insert_copy(alloc, names, path),
        Op::Remove(path) => insert_copy(alloc, names, path),
        Op::Rename(from, to) => {
            insert_copy(alloc, names, from)?;
            insert_copy(alloc, names, to)
        }
        Op::Barrier | Op::Say(_) | Op::Claim(_) => Ok(()),
    }
}

/// The paths that the files have or an operation is on, in order.
pub fn named_paths(
    alloc: Global,
    base: &[(SafePath, Bytes)],
    ops: &[Op],
) -> Result<Vec<SafePath>, AllocError>
    ensures { IfOk result (λ paths. AreNamed (record { base = files_of base.now; ops = ops.now }) paths.items) }
{
    let mut paths = names_of(alloc, base)?;
    for op in ops {
        insert_touched(alloc, &mut paths, op)?;
    }
    Ok(paths)
}
