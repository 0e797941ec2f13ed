// Which paths may hold given bytes after a stop.
ghost use Rattle.std.specs.Prelude.{◌≡◌, ◌≢◌, ◌⊎◌, ◌↔◌, ℕ, List, IfOk, OnOk, IsTrue, Some};
ghost use Rattle.ap_host.specs.declared.host.Op.TheVariants.{Sync};
ghost use Rattle.ap_host.specs.Disk.{disk_of};
ghost use Rattle.ap_host.specs.Table.{files_of, IsOnce};
ghost use Rattle.ap_host.specs.Names.{IsOneOf};
ghost use Rattle.ap_host.specs.Drawing.{HoldsAfter};

use crate::bytes::Bytes;
use crate::host::Op;
use crate::replay::apply;
use crate::table::{copy_entries, file_of};
use ap_text::SafePath;
use std::alloc::{AllocError, Global};

fn is_among(held: &[SafePath], path: &SafePath) -> bool
    ensures { IsTrue result ↔ IsOneOf path.now held.now }
{
    for h in held {
        if path.is(h) {
            return true;
        }
    }
    false
}

/// Adds a path.
fn add_path(alloc: Global, held: &mut Vec<SafePath>, path: &SafePath) -> Result<(), AllocError>
    ensures { OnOk result ((q : List ℕ) → IsOneOf q held.new.items ↔ ((q ≡ path.now) ⊎ IsOneOf q held.old.items)) }
{
    held.push(path.copy(alloc)?)?;
    Ok(())
}

/// The file at the path holds these bytes.
fn holds(table: &[(SafePath, Bytes)], path: &SafePath, bytes: &[u8]) -> bool
    requires { IsOnce table.now }
    ensures { IsTrue result ↔ (files_of table.now path.now ≡ Some bytes.now) }
{
    match file_of(table, path) {
        Some(found) => found.as_slice() == bytes,
        None => false,
    }
}

/// The paths of the files that hold these bytes.
fn holders_of(
    alloc: Global,
    table: &[(SafePath, Bytes)],
    bytes: &[u8],
) -> Result<Vec<SafePath>, AllocError>
    requires { IsOnce table.now }
    ensures { IfOk result (λ held. (q : List ℕ) → IsOneOf q held.items ↔ (files_of table.now q ≡ Some bytes.now)) }
{
    let mut held = Vec::new(alloc);
    for e in table {
        if e.1.as_slice() == bytes {
            add_path(alloc, &mut held, &e.0)?;
        }
    }
    Ok(held)
}

/// These paths but this one.
fn without(alloc: Global, held: &[SafePath], path: &SafePath) -> Result<Vec<SafePath>, AllocError>
    ensures { IfOk result (λ others. (q : List ℕ) → IsOneOf q others.items ↔ ((q ≢ path.now) × IsOneOf q held.now)) }
{
    let mut others = Vec::new(alloc);
    for h in held {
        if !h.is(path) {
            add_path(alloc, &mut others, h)?;
        }
    }
    Ok(others)
}

/// The path is among those that may hold these bytes exactly where the file holds them.
fn resync(
    alloc: Global,
    table: &[(SafePath, Bytes)],
    held: &mut Vec<SafePath>,
    path: &SafePath,
    bytes: &[u8],
) -> Result<(), AllocError>
    requires { IsOnce table.now }
    ensures { OnOk result ((q : List ℕ) → IsOneOf q held.new.items ↔ HoldsAfter (files_of table.now) bytes.now held.old.items (Sync path.now) q) }
{
    *held = without(alloc, held, path)?;
    if holds(table, path, bytes) {
        return add_path(alloc, held, path);
    }
    Ok(())
}

/// The paths that may hold these bytes after one more operation; the table has what reads gave before it.
fn note(
    alloc: Global,
    table: &[(SafePath, Bytes)],
    held: &mut Vec<SafePath>,
    op: &Op,
    bytes: &[u8],
) -> Result<(), AllocError>
    requires { IsOnce table.now }
    ensures { OnOk result ((q : List ℕ) → IsOneOf q held.new.items ↔ HoldsAfter (files_of table.now) bytes.now held.old.items op.now q) }
{
    match op {
        Op::Create(path) => add_path(alloc, held, path),
        Op::Append(path, _) => add_path(alloc, held, path),
        Op::Sync(path) => resync(alloc, table, held, path, bytes),
        Op::Rename(from, to) => {
            if is_among(held, from) {
                return add_path(alloc, held, to);
            }
            Ok(())
        }
        Op::Barrier => {
            *held = holders_of(alloc, table, bytes)?;
            Ok(())
        }
        Op::Remove(_) | Op::Say(_) | Op::Claim(_) => Ok(()),
    }
}

/// A stop after these operations may leave these bytes at the path.
pub fn may_hold(
    alloc: Global,
    base: &[(SafePath, Bytes)],
    ops: &[Op],
    path: &SafePath,
    bytes: &[u8],
) -> Result<bool, AllocError>
    requires { IsOnce base.now }
    ensures { IfOk result (λ may. IsTrue may ↔ (disk_of (record { base = files_of base.now; ops = ops.now })).may path.now (Some bytes.now)) }
{
    let mut table = copy_entries(alloc, base)?;
    let mut held = holders_of(alloc, base, bytes)?;
    for op in ops {
        note(alloc, &table, &mut held, op, bytes)?;
        apply(alloc, &mut table, op)?;
    }
    Ok(is_among(&held, path))
}
