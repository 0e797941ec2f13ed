// Images of a log by number.
ghost use Rattle.std.specs.Prelude.{◌≡◌, ◌↔◌, ◌++◌, IfOk, OnOk, IsTrue, IsFalse};
ghost use Rattle.ap_host.specs.declared.host.Op.TheVariants.{Sync};
ghost use Rattle.ap_host.specs.Disk.{Content, live_of, disk_of};
ghost use Rattle.ap_host.specs.Changes.{EachOp};
ghost use Rattle.ap_host.specs.Table.{files_of, IsOnce, SameFiles};
ghost use Rattle.ap_host.specs.Names.{IsAscending};
ghost use Rattle.ap_host.specs.Images.{takes_live as live_test, IsTaken, IsDrawn, IsChoice};
ghost use Rattle.ap_host.specs.Drawing.{HaveNoBarrier, entry_of};

use crate::bytes::Bytes;
use crate::holders::may_hold;
use crate::host::Op;
use crate::names::named_paths;
use crate::replay::{barrier_end, replay};
use crate::table::{add_file, file_of};
use ap_text::SafePath;
use std::alloc::{AllocError, Global};

/// Whether a choice takes the live value at the i-th path.
fn takes_live(choice: u64, i: usize) -> bool
    ensures { result ≡ live_test choice i }
{
    match choice {
        0 => true,
        1 => false,
        _ => (choice >> (i % 16)) % 2 == 1,
    }
}

fn is_synced(ops: &[Op], path: &SafePath) -> bool
    ensures { IsFalse result → EachOp (λ op. op ≡ Sync path.now → ⊥) ops.now }
{
    for op in ops {
        if let Op::Sync(synced) = op {
            if synced.is(path) {
                return true;
            }
        }
    }
    false
}

/// A stop may leave what the last barrier made sure; `kept` has it, and these operations came since.
fn is_kept(
    alloc: Global,
    kept: &[(SafePath, Bytes)],
    ops: &[Op],
    path: &SafePath,
) -> Result<bool, AllocError>
    requires once { IsOnce kept.now }
    requires since { HaveNoBarrier ops.now }
    ensures { IfOk result (λ may. IsTrue may ↔ (disk_of (record { base = files_of kept.now; ops = ops.now })).may path.now (files_of kept.now path.now)) }
{
    match file_of(kept, path) {
        None => Ok(true),
        Some(bytes) => {
            if is_synced(ops, path) {
                return may_hold(alloc, kept, ops, path, bytes.as_slice());
            }
            Ok(true)
        }
    }
}

/// Adds what is taken at a path, the live file or what is left of the kept one.
fn draw_one(
    alloc: Global,
    image: &mut Vec<(SafePath, Bytes)>,
    kept: &[(SafePath, Bytes)],
    live: &[(SafePath, Bytes)],
    ops: &[Op],
    path: &SafePath,
    from_live: bool,
) -> Result<(), AllocError>
    requires once { IsOnce kept.now }
    requires live_once { IsOnce live.now }
    requires live { SameFiles (files_of live.now) (live_of (record { base = files_of kept.now; ops = ops.now })) }
    requires since { HaveNoBarrier ops.now }
    ensures { OnOk result ((x : Content) × IsTaken (record { base = files_of kept.now; ops = ops.now }) (files_of kept.now) path.now x from_live × (image.new.items ≡ image.old.items ++ entry_of path.now x)) }
{
    if from_live {
        return add_file(alloc, image, live, path);
    }
    if is_kept(alloc, kept, ops, path)? {
        return add_file(alloc, image, kept, path);
    }
    Ok(())
}

/// What a choice takes at each of these paths.
fn draw(
    alloc: Global,
    kept: &[(SafePath, Bytes)],
    live: &[(SafePath, Bytes)],
    ops: &[Op],
    paths: &[SafePath],
    choice: u64,
) -> Result<Vec<(SafePath, Bytes)>, AllocError>
    requires once { IsOnce kept.now }
    requires live_once { IsOnce live.now }
    requires live { SameFiles (files_of live.now) (live_of (record { base = files_of kept.now; ops = ops.now })) }
    requires since { HaveNoBarrier ops.now }
    requires ascending { IsAscending paths.now }
    ensures { IfOk result (λ image. IsDrawn (record { base = files_of kept.now; ops = ops.now }) (files_of kept.now) choice paths.now image.items) }
{
    let mut image = Vec::new(alloc);
    for (i, path) in paths.iter().enumerate() {
        draw_one(
            alloc,
            &mut image,
            kept,
            live,
            ops,
            path,
            takes_live(choice, i),
        )?;
    }
    Ok(image)
}

/// The image of a log that a choice takes.
pub fn image_of(
    alloc: Global,
    base: &[(SafePath, Bytes)],
    ops: &[Op],
    choice: u64,
) -> Result<Vec<(SafePath, Bytes)>, AllocError>
    requires { IsOnce base.now }
    ensures { IfOk result (λ image. IsChoice (record { base = files_of base.now; ops = ops.now }) choice image.items) }
{
    let paths = named_paths(alloc, base, ops)?;
    let before = barrier_end(ops);
    let kept = replay(alloc, base, &ops[..before])?;
    let since = &ops[before..];
    let live = replay(alloc, &kept, since)?;
    draw(alloc, &kept, &live, since, &paths, choice)
}
