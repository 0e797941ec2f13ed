//! Copies of commands of snapshots.
ghost use Rattle.std.specs.Prelude.{◌≡◌, IfOk};
ghost use Rattle.command_value.specs.Plain.{plain, of_snapshot, plain_follow, snapshot_filter as snapshot_filter_of, snapshot_merge as snapshot_merge_of, snapshot_pull as snapshot_pull_of, snapshot_search as snapshot_search_of};

use crate::command::{Command, Follow};
use crate::copying::copies;
use crate::copying::publish::copy_publish;
use control_stanza::Text;
use std::alloc::{AllocError, Global};

fn snapshot_filter(
    alloc: Global,
    with_deps: &Option<bool>,
    follow: &Follow,
    source: &Text,
    destination: &Text,
    queries: &[Text],
) -> Result<Command, AllocError>
    ensures { IfOk result (λ made. plain made ≡ of_snapshot (snapshot_filter_of with_deps.now (plain_follow follow.now) source.now destination.now queries.now)) }
{
    Ok(Command::SnapshotFilter {
        with_deps: *with_deps,
        follow: follow.copy(alloc)?,
        source: source.copy(alloc)?,
        destination: destination.copy(alloc)?,
        queries: copies(alloc, queries)?,
    })
}

fn snapshot_merge(
    alloc: Global,
    latest: &Option<bool>,
    no_remove: &Option<bool>,
    destination: &Text,
    sources: &[Text],
) -> Result<Command, AllocError>
    ensures { IfOk result (λ made. plain made ≡ of_snapshot (snapshot_merge_of latest.now no_remove.now destination.now sources.now)) }
{
    Ok(Command::SnapshotMerge {
        latest: *latest,
        no_remove: *no_remove,
        destination: destination.copy(alloc)?,
        sources: copies(alloc, sources)?,
    })
}

fn snapshot_pull(
    alloc: Global,
    all_matches: &Option<bool>,
    dry_run: &Option<bool>,
    no_deps: &Option<bool>,
    no_remove: &Option<bool>,
    follow: &Follow,
    name: &Text,
    source: &Text,
    destination: &Text,
    queries: &[Text],
) -> Result<Command, AllocError>
    ensures { IfOk result (λ made. plain made ≡ of_snapshot (snapshot_pull_of all_matches.now dry_run.now no_deps.now no_remove.now (plain_follow follow.now) name.now source.now destination.now queries.now)) }
{
    Ok(Command::SnapshotPull {
        all_matches: *all_matches,
        dry_run: *dry_run,
        no_deps: *no_deps,
        no_remove: *no_remove,
        follow: follow.copy(alloc)?,
        name: name.copy(alloc)?,
        source: source.copy(alloc)?,
        destination: destination.copy(alloc)?,
        queries: copies(alloc, queries)?,
    })
}

fn snapshot_search(
    alloc: Global,
    with_deps: &Option<bool>,
    follow: &Follow,
    name: &Text,
    query: &Text,
) -> Result<Command, AllocError>
    ensures { IfOk result (λ made. plain made ≡ of_snapshot (snapshot_search_of with_deps.now (plain_follow follow.now) name.now query.now)) }
{
    Ok(Command::SnapshotSearch {
        with_deps: *with_deps,
        follow: follow.copy(alloc)?,
        name: name.copy(alloc)?,
        query: query.copy(alloc)?,
    })
}

/// A copy of a command of snapshots. Another command is handed on.
pub(super) fn copy_snapshot(alloc: Global, command: &Command) -> Result<Command, AllocError>
    ensures { IfOk result (λ made. plain made ≡ plain command.now) }
{
    match command {
        Command::SnapshotCreate { name, origin } => Ok(Command::SnapshotCreate {
            name: name.copy(alloc)?,
            origin: origin.copy(alloc)?,
        }),
        Command::SnapshotList => Ok(Command::SnapshotList),
        Command::SnapshotShow {
            with_packages,
            name,
        } => Ok(Command::SnapshotShow {
            with_packages: *with_packages,
            name: name.copy(alloc)?,
        }),
        Command::SnapshotFilter {
            with_deps,
            follow,
            source,
            destination,
            queries,
        } => snapshot_filter(
            alloc,
            with_deps,
            follow,
            source,
            destination,
            queries.as_slice(),
        ),
        Command::SnapshotMerge {
            latest,
            no_remove,
            destination,
            sources,
        } => snapshot_merge(alloc, latest, no_remove, destination, sources.as_slice()),
        Command::SnapshotPull {
            all_matches,
            dry_run,
            no_deps,
            no_remove,
            follow,
            name,
            source,
            destination,
            queries,
        } => snapshot_pull(
            alloc,
            all_matches,
            dry_run,
            no_deps,
            no_remove,
            follow,
            name,
            source,
            destination,
            queries.as_slice(),
        ),
        Command::SnapshotSearch {
            with_deps,
            follow,
            name,
            query,
        } => snapshot_search(alloc, with_deps, follow, name, query),
        Command::SnapshotRename { from_name, to_name } => Ok(Command::SnapshotRename {
            from_name: from_name.copy(alloc)?,
            to_name: to_name.copy(alloc)?,
        }),
        Command::SnapshotDrop { name } => Ok(Command::SnapshotDrop {
            name: name.copy(alloc)?,
        }),
        _ => copy_publish(alloc, command),
    }
}
