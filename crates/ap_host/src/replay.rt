// What reads give, and what a stop may leave, after the operations of a log.
ghost use Rattle.std.specs.Prelude.{◌≡◌, IfOk, OnOk, OnErr};
ghost use Rattle.ap_host.specs.Disk.{live_step};
ghost use Rattle.ap_host.specs.Mem.{IsTableOf};
ghost use Rattle.ap_host.specs.Table.{files_of, IsOnce, SameFiles};
ghost use Rattle.ap_host.specs.Drawing.{is_barrier as barrier_test, IsBarrierEnd};

use crate::bytes::Bytes;
use crate::host::Op;
use crate::table::{copy_entries, empty_file, extend_file, remove_file, rename_file};
use ap_text::SafePath;
use std::alloc::{AllocError, Global};

/// What an operation does to the files.
pub fn apply(alloc: Global, table: &mut Vec<(SafePath, Bytes)>, op: &Op) -> Result<(), AllocError>
    requires { IsOnce table.old.items }
    ensures once { IsOnce table.new.items }
    ensures ok { OnOk result (SameFiles (files_of table.new.items) (live_step (files_of table.old.items) op.now)) }
    ensures err { OnErr result (table.new.items ≡ table.old.items) }
{
    match op {
        Op::Create(path) => empty_file(alloc, table, path.copy(alloc)?)?,
        Op::Append(path, bytes) => extend_file(table, path, bytes.as_slice())?,
        Op::Rename(from, to) => rename_file(table, from, to.copy(alloc)?),
        Op::Remove(path) => remove_file(table, path),
        Op::Sync(_) | Op::Barrier | Op::Say(_) | Op::Claim(_) => {}
    }
    Ok(())
}

/// The files after these operations.
pub fn replay(
    alloc: Global,
    base: &[(SafePath, Bytes)],
    ops: &[Op],
) -> Result<Vec<(SafePath, Bytes)>, AllocError>
    requires { IsOnce base.now }
    ensures { IfOk result (λ table. IsTableOf base.now table.items ops.now) }
{
    let mut table = copy_entries(alloc, base)?;
    for op in ops {
        apply(alloc, &mut table, op)?;
    }
    Ok(table)
}

fn is_barrier(op: &Op) -> bool
    ensures { result ≡ barrier_test op.now }
{
    match op {
        Op::Barrier => true,
        Op::Create(_)
        | Op::Append(_, _)
        | Op::Sync(_)
        | Op::Rename(_, _)
        | Op::Remove(_)
        | Op::Say(_)
        | Op::Claim(_) => false,
    }
}

/// How many operations there are up to the last barrier and with it; 0 where there is none.
pub fn barrier_end(ops: &[Op]) -> usize
    ensures { IsBarrierEnd ops.now result }
{
    let mut at = ops.len();
    while at > 0 && !is_barrier(&ops[at - 1]) {
        at -= 1;
    }
    at
}
