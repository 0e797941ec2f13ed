//! Snapshots that have another name, or are no more.
ghost use Rattle.std.specs.Prelude.{◌≡◌, List, ℕ, IfOk, OnOk, None};
ghost use Rattle.command_value.specs.Plain.{plain, of_snapshot, snapshot_rename, snapshot_drop};
ghost use Rattle.machine_state.specs.Ascending.{IsAscending};
ghost use Rattle.machine_state.specs.Named.{renamed};
ghost use Rattle.machine_state.specs.State.{Valid, snapshot_cmp, snapshot_name};
ghost use Rattle.snapshot_ops.specs.Answers.{IsDone, IsOther, IsRefused};
ghost use Rattle.snapshot_ops.specs.Cases.{called, drop_case, rename_case, snapshot_case, snapshot_renamed_in, without_snapshot};

use crate::early::{drop_early, rename_early};
use crate::replies::{snapshot_dropped, snapshot_renamed};
use ap_text::Name;
use command_value::Command;
use control_stanza::Text;
use machine_state::{
    Change, ChangeFault, Kind, Refusal, Snapshot, State, put_named, rename_sources, take_named,
};
use query_eval::Patterns;
use std::alloc::{AllocError, Global};

/// Gives the snapshot of the first name the second, and the place of that.
fn rename_snapshot(
    snapshots: &mut Vec<Snapshot>,
    before: &Name,
    after: Name,
) -> Result<(), AllocError>
    ensures { IsAscending snapshot_cmp snapshots.old.items → OnOk result (snapshots.new.items ≡ renamed snapshot_name called before.now after snapshots.old.items) }
{
    match take_named(snapshots, before) {
        None => Ok(()),
        Some(mut snapshot) => {
            snapshot.name = after;
            put_named(snapshots, snapshot)
        }
    }
}

/// The state where a snapshot has another name, in the sources of publications too.
fn renamed_state(
    alloc: Global,
    state: &State,
    before: &Name,
    after: Name,
) -> Result<State, AllocError>
    ensures { Valid state.now → IfOk result (λ new. new ≡ snapshot_renamed_in state.now before.now after) }
{
    let mut state = state.copy(alloc)?;
    rename_sources(
        alloc,
        &mut state.publications,
        Kind::Snapshot,
        before,
        &after,
    )?;
    rename_snapshot(&mut state.snapshots, before, after)?;
    Ok(state)
}

fn rename_named(alloc: Global, state: &State, from: &Text, to: &Text) -> Result<Change, ChangeFault>
    ensures ok { IsDone state.now (rename_case state.now from.now to.now) result }
    ensures fault { IsRefused state.now (rename_case state.now from.now to.now) result }
    ensures new { IsOther state.now result }
{
    let (before, after) = rename_early(alloc, state, from, to)?;
    let reply = snapshot_renamed(alloc, &before, &after)?;
    Ok(Change {
        state: Some(renamed_state(alloc, state, &before, after)?),
        reply,
    })
}

/// `snapshot rename`: a snapshot has another name, in the sources of publications too. It needs a command of that verb.
pub fn rename<M: Patterns>(
    alloc: Global,
    state: &State,
    command: &Command,
    _patterns: &mut M,
) -> Result<Change, ChangeFault>
    ensures ok { (before after : List ℕ) → plain command.now ≡ of_snapshot (snapshot_rename before after) → IsDone state.now (snapshot_case state.now (snapshot_rename before after)) result }
    ensures fault { (before after : List ℕ) → plain command.now ≡ of_snapshot (snapshot_rename before after) → IsRefused state.now (snapshot_case state.now (snapshot_rename before after)) result }
    // A state that is told is another one.
    ensures new { IsOther state.now result }
    ensures untouched { _patterns.new ≡ _patterns.old }
{
    match command {
        Command::SnapshotRename { from_name, to_name } => {
            rename_named(alloc, state, from_name, to_name)
        }
        _ => Err(ChangeFault::Refused(Refusal::NotBuilt)),
    }
}

/// The state without the snapshot of that name.
fn state_without(alloc: Global, state: &State, name: &Name) -> Result<State, AllocError>
    ensures { Valid state.now → IfOk result (λ new. new ≡ without_snapshot state.now name.now) }
{
    let mut state = state.copy(alloc)?;
    take_named(&mut state.snapshots, name);
    Ok(state)
}

fn drop_named(alloc: Global, state: &State, name: &Text) -> Result<Change, ChangeFault>
    ensures ok { IsDone state.now (drop_case state.now name.now) result }
    ensures fault { IsRefused state.now (drop_case state.now name.now) result }
    ensures new { IsOther state.now result }
{
    let name = drop_early(alloc, state, name)?;
    let reply = snapshot_dropped(alloc, &name)?;
    Ok(Change {
        state: Some(state_without(alloc, state, &name)?),
        reply,
    })
}

/// `snapshot drop`: a snapshot that no publication uses is no more. Its packages stay known. It needs a command of that verb.
pub fn drop<M: Patterns>(
    alloc: Global,
    state: &State,
    command: &Command,
    _patterns: &mut M,
) -> Result<Change, ChangeFault>
    ensures ok { (name : List ℕ) → plain command.now ≡ of_snapshot (snapshot_drop name) → IsDone state.now (snapshot_case state.now (snapshot_drop name)) result }
    ensures fault { (name : List ℕ) → plain command.now ≡ of_snapshot (snapshot_drop name) → IsRefused state.now (snapshot_case state.now (snapshot_drop name)) result }
    // A state that is told is another one.
    ensures new { IsOther state.now result }
    ensures untouched { _patterns.new ≡ _patterns.old }
{
    match command {
        Command::SnapshotDrop { name } => drop_named(alloc, state, name),
        _ => Err(ChangeFault::Refused(Refusal::NotBuilt)),
    }
}
