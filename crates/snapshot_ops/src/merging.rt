//! Snapshots that are made of several.
ghost use Rattle.std.specs.Prelude.{◌≡◌, List, ℕ, Bool, false, Option, Ok, Err, IfOk, IfErr, OnOk, None, map, unwrap_or};
ghost use Rattle.command_value.specs.Plain.{plain, of_snapshot, snapshot_merge};
ghost use Rattle.machine_state.specs.State.{Valid};
ghost use Rattle.package_list.specs.Answers.{Answers};
ghost use Rattle.step_model.specs.Answers.{FaultIs};
ghost use Rattle.snapshot_ops.specs.Answers.{IsDone, IsOther, IsRefused};
ghost use Rattle.snapshot_ops.specs.Cases.{list_of, merge_case, snapshot_case, unknown_among};
ghost use Rattle.snapshot_ops.specs.Merges.{IsJoinRefusal, join_answer, joined_so, merge_of};

use crate::creation::created;
use crate::early::merge_early;
use crate::way::{Way, way_for};
use ap_text::Name;
use command_value::Command;
use control_stanza::Text;
use machine_state::{Change, ChangeFault, Limit, Refusal, State};
use package_list::{ListFault, PackageList};
use query_eval::Patterns;
use snapshot_pull::there;
use std::alloc::Global;

/// Joins a source to those before it. A fault leaves these as they were.
fn join(alloc: Global, way: Way, own: &mut PackageList, more: &PackageList) -> Result<(), ListFault>
    ensures answer { Answers result (join_answer way own.old more.now) }
    ensures same { OnOk result (own.new ≡ joined_so way own.old more.now) }
{
    match way {
        Way::Replacing => own.merge_from(alloc, more),
        Way::Keeping => own.append_from(alloc, more),
        Way::Latest => own.latest_from(alloc, more),
    }
}

/// Joins a source to those before it. It is refused where it can't.
fn join_source(
    alloc: Global,
    way: Way,
    own: &mut PackageList,
    more: &PackageList,
) -> Result<(), ChangeFault>
    ensures good { OnOk result (join_answer way own.old more.now ≡ Ok tt) }
    ensures same { OnOk result (own.new ≡ joined_so way own.old more.now) }
    ensures fault { IfErr result (FaultIs (IsJoinRefusal way own.old more.now)) }
{
    match join(alloc, way, own, more) {
        Ok(()) => Ok(()),
        Err(ListFault::Conflict(triple)) => Err(ChangeFault::Refused(Refusal::Conflict(triple))),
        Err(ListFault::Full) => Err(ChangeFault::Refused(Refusal::Limit(Limit::Packages))),
        Err(ListFault::OutOfMemory) => Err(ChangeFault::OutOfMemory),
    }
}

/// The snapshots of these names, each joined to those before it. The first that can't join decides.
fn merged(
    alloc: Global,
    state: &State,
    way: Way,
    names: &[Name],
) -> Result<PackageList, ChangeFault>
    ensures good { Valid state.now → IfOk result (λ list. merge_of way (map (list_of state.now) names.now) ≡ Ok list) }
    ensures fault { Valid state.now → unknown_among state.now.snapshots names.now ≡ None → IfErr result (FaultIs (λ refusal. merge_of way (map (list_of state.now) names.now) ≡ Err refusal)) }
{
    let mut list = PackageList::new(alloc);
    for i in 0..names.len() {
        let source = there(alloc, state, &names[i])?;
        join_source(alloc, way, &mut list, &source.list)?;
    }
    Ok(list)
}

/// Makes a snapshot of several, joined in this way.
fn merge_named(
    alloc: Global,
    state: &State,
    latest: &Option<bool>,
    no_remove: &Option<bool>,
    destination: &Text,
    sources: &[Text],
) -> Result<Change, ChangeFault>
    ensures ok { IsDone state.now (merge_case state.now (unwrap_or latest.now false) (unwrap_or no_remove.now false) destination.now sources.now) result }
    ensures fault { IsRefused state.now (merge_case state.now (unwrap_or latest.now false) (unwrap_or no_remove.now false) destination.now sources.now) result }
    ensures new { IsOther state.now result }
{
    let (name, names) = merge_early(alloc, state, destination, sources)?;
    let list = merged(alloc, state, way_for(latest, no_remove), &names)?;
    created(alloc, state, name, list)
}

/// `snapshot merge`: a new snapshot of several, taken from left to right. The packages of each take the place of those of their name
/// and architecture in what was made before; with `-no-remove` all stay, and the first that clashes with one before it is refused;
/// with `-latest` of each name and architecture the greatest alone stays. It needs a command of that verb.
pub fn merge<M: Patterns>(
    alloc: Global,
    state: &State,
    command: &Command,
    _patterns: &mut M,
) -> Result<Change, ChangeFault>
    ensures ok { (latest no_remove : Option Bool) (destination : List ℕ) (sources : List (List ℕ)) → plain command.now ≡ of_snapshot (snapshot_merge latest no_remove destination sources) → IsDone state.now (snapshot_case state.now (snapshot_merge latest no_remove destination sources)) result }
    ensures fault { (latest no_remove : Option Bool) (destination : List ℕ) (sources : List (List ℕ)) → plain command.now ≡ of_snapshot (snapshot_merge latest no_remove destination sources) → IsRefused state.now (snapshot_case state.now (snapshot_merge latest no_remove destination sources)) result }
    // A state that is told is another one.
    ensures new { IsOther state.now result }
    ensures untouched { _patterns.new ≡ _patterns.old }
{
    match command {
        Command::SnapshotMerge {
            latest,
            no_remove,
            destination,
            sources,
        } => merge_named(alloc, state, latest, no_remove, destination, sources),
        _ => Err(ChangeFault::Refused(Refusal::NotBuilt)),
    }
}
