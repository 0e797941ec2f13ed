//! Snapshots that are listed and shown.
ghost use Rattle.std.specs.Prelude.{◌≡◌, List, ℕ, Bool, false, Option, IfOk, IfErr, None, unwrap_or};
ghost use Rattle.command_value.specs.Plain.{plain, of_snapshot, snapshot_list as listed, snapshot_show as show_of};
ghost use Rattle.step_model.specs.Answers.{IsMemory};
ghost use Rattle.snapshot_ops.specs.Answers.{IsDone, IsOther, IsRefused};
ghost use Rattle.snapshot_ops.specs.Cases.{show_case, snapshot_case};

use crate::early::named_snapshot;
use command_value::Command;
use control_stanza::Text;
use machine_state::{Change, ChangeFault, Refusal, State};
use query_eval::Patterns;
use reply_text::{snapshot_list, snapshot_show};
use std::alloc::Global;

/// `snapshot list`: each snapshot with the count of its packages. It fails only for want of memory.
pub fn list(alloc: Global, state: &State) -> Result<Change, ChangeFault>
    ensures ok { IsDone state.now (snapshot_case state.now listed) result }
    ensures fault { IfErr result IsMemory }
    ensures new { IsOther state.now result }
{
    let reply = snapshot_list(alloc, state)?;
    Ok(Change { state: None, reply })
}

/// Shows a snapshot, and its packages where they are asked for.
fn show_named(
    alloc: Global,
    state: &State,
    with_packages: &Option<bool>,
    name: &Text,
) -> Result<Change, ChangeFault>
    ensures ok { IsDone state.now (show_case state.now (unwrap_or with_packages.now false) name.now) result }
    ensures fault { IsRefused state.now (show_case state.now (unwrap_or with_packages.now false) name.now) result }
    ensures new { IsOther state.now result }
{
    let snapshot = named_snapshot(alloc, state, name)?;
    let reply = snapshot_show(alloc, snapshot, with_packages.unwrap_or(false))?;
    Ok(Change { state: None, reply })
}

/// `snapshot show`. It needs a command of that verb.
pub fn show<M: Patterns>(
    alloc: Global,
    state: &State,
    command: &Command,
    _patterns: &mut M,
) -> Result<Change, ChangeFault>
    ensures ok { (packages : Option Bool) (name : List ℕ) → plain command.now ≡ of_snapshot (show_of packages name) → IsDone state.now (snapshot_case state.now (show_of packages name)) result }
    ensures fault { (packages : Option Bool) (name : List ℕ) → plain command.now ≡ of_snapshot (show_of packages name) → IsRefused state.now (snapshot_case state.now (show_of packages name)) result }
    ensures new { IsOther state.now result }
    ensures untouched { _patterns.new ≡ _patterns.old }
{
    match command {
        Command::SnapshotShow {
            with_packages,
            name,
        } => show_named(alloc, state, with_packages, name),
        _ => Err(ChangeFault::Refused(Refusal::NotBuilt)),
    }
}
