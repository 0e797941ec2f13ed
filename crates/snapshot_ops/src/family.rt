//! The commands of snapshots, by their verbs.
ghost use Rattle.std.specs.Prelude.{◌≡◌, ◌≤◌, Bool, Option, IfOk, IfErr, None};
ghost use Rattle.command_value.specs.Plain.{SnapshotCommand, plain, plain_follow, of_snapshot, snapshot_create};
ghost use Rattle.step_model.specs.Answers.{KeepsText};
ghost use Rattle.snapshot_ops.specs.Answers.{IsBarred, IsBarredTold, IsDone, IsNeeded, IsOther, IsRefusedTold};
ghost use Rattle.snapshot_ops.specs.Cases.{copy_case, drop_case, empty_case, fetched_case, filter_case, merge_case, rename_case, search_case, show_case, snapshot_case};

use crate::creation::create;
use crate::early::{
    copy_early, drop_early, empty_early, fetched_early, filter_early, merge_early, named_snapshot,
    rename_early, search_early,
};
use crate::filtering::{filter, search};
use crate::merging::merge;
use crate::naming::{drop, rename};
use crate::shown::{list, show};
use command_value::{Command, Follow, Origin};
use control_stanza::Text;
use machine_state::{Change, ChangeFault, Refusal, State};
use query_eval::Patterns;
use snapshot_pull::{pull, pull_needs};
use std::alloc::Global;
use step_model::{Reading, prepared, prepared_all};

fn empty_needs(alloc: Global, state: &State, name: &Text) -> Result<Reading, ChangeFault>
    ensures ok { IsNeeded state.now (empty_case state.now name.now) result }
    ensures fault { IsBarred state.now (empty_case state.now name.now) result }
{
    empty_early(alloc, state, name)?;
    Ok(Reading::Nothing)
}

fn copy_needs(
    alloc: Global,
    state: &State,
    name: &Text,
    repo: &Text,
) -> Result<Reading, ChangeFault>
    ensures ok { IsNeeded state.now (copy_case state.now name.now repo.now) result }
    ensures fault { IsBarred state.now (copy_case state.now name.now repo.now) result }
{
    copy_early(alloc, state, name, repo)?;
    Ok(Reading::Nothing)
}

fn fetched_needs(
    alloc: Global,
    state: &State,
    name: &Text,
    mirror: &Text,
) -> Result<Reading, ChangeFault>
    ensures ok { IsNeeded state.now (fetched_case state.now name.now mirror.now) result }
    ensures fault { IsBarred state.now (fetched_case state.now name.now mirror.now) result }
{
    fetched_early(alloc, state, name, mirror)?;
    Ok(Reading::Nothing)
}

fn create_needs(
    alloc: Global,
    state: &State,
    name: &Text,
    origin: &Origin,
) -> Result<Reading, ChangeFault>
    ensures ok { IsNeeded state.now (snapshot_case state.now (snapshot_create name.now origin.now)) result }
    ensures fault { IsBarred state.now (snapshot_case state.now (snapshot_create name.now origin.now)) result }
{
    match origin {
        Origin::Empty => empty_needs(alloc, state, name),
        Origin::Repo(repo) => copy_needs(alloc, state, name, repo),
        Origin::Mirror(mirror) => fetched_needs(alloc, state, name, mirror),
    }
}

fn show_needs(alloc: Global, state: &State, name: &Text) -> Result<Reading, ChangeFault>
    ensures ok { (packages : Bool) → IsNeeded state.now (show_case state.now packages name.now) result }
    ensures fault { (packages : Bool) → IsBarred state.now (show_case state.now packages name.now) result }
{
    named_snapshot(alloc, state, name)?;
    Ok(Reading::Nothing)
}

fn filter_needs<M: Patterns>(
    alloc: Global,
    state: &State,
    follow: &Follow,
    source: &Text,
    destination: &Text,
    queries: &[Text],
    patterns: &mut M,
) -> Result<Reading, ChangeFault>
    ensures ok { (deps : Option Bool) → IsNeeded state.now (filter_case state.now deps (plain_follow follow.now) source.now destination.now queries.now) result }
    ensures fault { (deps : Option Bool) → IsBarredTold state.now (filter_case state.now deps (plain_follow follow.now) source.now destination.now queries.now) (M.refusals patterns.old) (M.refusals patterns.new) (M.refused patterns.new) result }
    ensures never_falls { M.refusals patterns.old ≤ M.refusals patterns.new }
    ensures kept { KeepsText (M.refused patterns.old) (M.refused patterns.new) result }
{
    filter_early(alloc, state, follow, source, destination)?;
    prepared_all(alloc, queries, patterns)?;
    Ok(Reading::Nothing)
}

fn merge_needs(
    alloc: Global,
    state: &State,
    destination: &Text,
    sources: &[Text],
) -> Result<Reading, ChangeFault>
    ensures ok { (latest no_remove : Bool) → IsNeeded state.now (merge_case state.now latest no_remove destination.now sources.now) result }
    ensures fault { (latest no_remove : Bool) → IsBarred state.now (merge_case state.now latest no_remove destination.now sources.now) result }
{
    merge_early(alloc, state, destination, sources)?;
    Ok(Reading::Nothing)
}

fn search_needs<M: Patterns>(
    alloc: Global,
    state: &State,
    follow: &Follow,
    name: &Text,
    query: &Text,
    patterns: &mut M,
) -> Result<Reading, ChangeFault>
    ensures ok { (deps : Option Bool) → IsNeeded state.now (search_case state.now deps (plain_follow follow.now) name.now query.now) result }
    ensures fault { (deps : Option Bool) → IsBarredTold state.now (search_case state.now deps (plain_follow follow.now) name.now query.now) (M.refusals patterns.old) (M.refusals patterns.new) (M.refused patterns.new) result }
    ensures never_falls { M.refusals patterns.old ≤ M.refusals patterns.new }
    ensures kept { KeepsText (M.refused patterns.old) (M.refused patterns.new) result }
{
    search_early(alloc, state, follow, name)?;
    prepared(alloc, query, patterns)?;
    Ok(Reading::Nothing)
}

fn rename_needs(
    alloc: Global,
    state: &State,
    from: &Text,
    to: &Text,
) -> Result<Reading, ChangeFault>
    ensures ok { IsNeeded state.now (rename_case state.now from.now to.now) result }
    ensures fault { IsBarred state.now (rename_case state.now from.now to.now) result }
{
    rename_early(alloc, state, from, to)?;
    Ok(Reading::Nothing)
}

fn drop_needs(alloc: Global, state: &State, name: &Text) -> Result<Reading, ChangeFault>
    ensures ok { IsNeeded state.now (drop_case state.now name.now) result }
    ensures fault { IsBarred state.now (drop_case state.now name.now) result }
{
    drop_early(alloc, state, name)?;
    Ok(Reading::Nothing)
}

/// What is to be read for a command of snapshots in a valid state, which is nothing, or the first refusal that holds before anything is
/// read. The patterns of its queries are built, and the first that can't be is told: as `PatternTooLarge` only where `patterns` refused
/// its text for its size in this call.
pub fn needs<M: Patterns>(
    alloc: Global,
    state: &State,
    command: &Command,
    patterns: &mut M,
) -> Result<Reading, ChangeFault>
    ensures ok { (c : SnapshotCommand) → plain command.now ≡ of_snapshot c → IsNeeded state.now (snapshot_case state.now c) result }
    ensures fault { (c : SnapshotCommand) → plain command.now ≡ of_snapshot c → IsBarredTold state.now (snapshot_case state.now c) (M.refusals patterns.old) (M.refusals patterns.new) (M.refused patterns.new) result }
    ensures never_falls { M.refusals patterns.old ≤ M.refusals patterns.new }
    // Which text was refused for its size changes only where such a pattern is told.
    ensures kept { KeepsText (M.refused patterns.old) (M.refused patterns.new) result }
{
    match command {
        Command::SnapshotCreate { name, origin } => create_needs(alloc, state, name, origin),
        Command::SnapshotList => Ok(Reading::Nothing),
        Command::SnapshotShow { name, .. } => show_needs(alloc, state, name),
        Command::SnapshotFilter {
            follow,
            source,
            destination,
            queries,
            ..
        } => filter_needs(alloc, state, follow, source, destination, queries, patterns),
        Command::SnapshotMerge {
            destination,
            sources,
            ..
        } => merge_needs(alloc, state, destination, sources),
        Command::SnapshotPull {
            follow,
            name,
            source,
            destination,
            queries,
            ..
        } => pull_needs(
            alloc,
            state,
            follow,
            name,
            source,
            destination,
            queries,
            patterns,
        ),
        Command::SnapshotSearch {
            follow,
            name,
            query,
            ..
        } => search_needs(alloc, state, follow, name, query, patterns),
        Command::SnapshotRename { from_name, to_name } => {
            rename_needs(alloc, state, from_name, to_name)
        }
        Command::SnapshotDrop { name } => drop_needs(alloc, state, name),
        _ => Err(ChangeFault::Refused(Refusal::NotBuilt)),
    }
}

/// What a command of snapshots changes in a valid state, or the first refusal that holds.
pub fn change<M: Patterns>(
    alloc: Global,
    state: &State,
    command: &Command,
    patterns: &mut M,
) -> Result<Change, ChangeFault>
    ensures ok { (c : SnapshotCommand) → plain command.now ≡ of_snapshot c → IsDone state.now (snapshot_case state.now c) result }
    ensures fault { (c : SnapshotCommand) → plain command.now ≡ of_snapshot c → IsRefusedTold state.now (snapshot_case state.now c) (M.refusals patterns.old) (M.refusals patterns.new) (M.refused patterns.new) result }
    // A state that is told is another one.
    ensures new { IsOther state.now result }
    ensures never_falls { M.refusals patterns.old ≤ M.refusals patterns.new }
    // Which text was refused for its size changes only where such a pattern is told.
    ensures kept { KeepsText (M.refused patterns.old) (M.refused patterns.new) result }
{
    match command {
        Command::SnapshotCreate { .. } => create(alloc, state, command, patterns),
        Command::SnapshotList => list(alloc, state),
        Command::SnapshotShow { .. } => show(alloc, state, command, patterns),
        Command::SnapshotFilter { .. } => filter(alloc, state, command, patterns),
        Command::SnapshotMerge { .. } => merge(alloc, state, command, patterns),
        Command::SnapshotPull { .. } => pull(alloc, state, command, patterns),
        Command::SnapshotSearch { .. } => search(alloc, state, command, patterns),
        Command::SnapshotRename { .. } => rename(alloc, state, command, patterns),
        Command::SnapshotDrop { .. } => drop(alloc, state, command, patterns),
        _ => Err(ChangeFault::Refused(Refusal::NotBuilt)),
    }
}
