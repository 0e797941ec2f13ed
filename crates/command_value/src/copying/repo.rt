//! Copies of commands of local repositories.
ghost use Rattle.std.specs.Prelude.{◌≡◌, IfOk};
ghost use Rattle.command_value.specs.Plain.{plain, of_repo, plain_follow, repo_create as repo_create_of, repo_edit as repo_edit_of, repo_remove as repo_remove_of, repo_copy as repo_copy_of, repo_move as repo_move_of, repo_import as repo_import_of};

use crate::command::{Command, Follow};
use crate::copying::snapshot::copy_snapshot;
use crate::copying::{copies, copy_in};
use control_stanza::Text;
use std::alloc::{AllocError, Global};

fn repo_create(
    alloc: Global,
    comment: &Option<Text>,
    distribution: &Option<Text>,
    component: &Option<Text>,
    name: &Text,
) -> Result<Command, AllocError>
    ensures { IfOk result (λ made. plain made ≡ of_repo (repo_create_of comment.now distribution.now component.now name.now)) }
{
    Ok(Command::RepoCreate {
        comment: copy_in(alloc, comment)?,
        distribution: copy_in(alloc, distribution)?,
        component: copy_in(alloc, component)?,
        name: name.copy(alloc)?,
    })
}

fn repo_edit(
    alloc: Global,
    comment: &Option<Text>,
    distribution: &Option<Text>,
    component: &Option<Text>,
    name: &Text,
) -> Result<Command, AllocError>
    ensures { IfOk result (λ made. plain made ≡ of_repo (repo_edit_of comment.now distribution.now component.now name.now)) }
{
    Ok(Command::RepoEdit {
        comment: copy_in(alloc, comment)?,
        distribution: copy_in(alloc, distribution)?,
        component: copy_in(alloc, component)?,
        name: name.copy(alloc)?,
    })
}

fn repo_remove(
    alloc: Global,
    dry_run: &Option<bool>,
    name: &Text,
    queries: &[Text],
) -> Result<Command, AllocError>
    ensures { IfOk result (λ made. plain made ≡ of_repo (repo_remove_of dry_run.now name.now queries.now)) }
{
    Ok(Command::RepoRemove {
        dry_run: *dry_run,
        name: name.copy(alloc)?,
        queries: copies(alloc, queries)?,
    })
}

fn repo_copy(
    alloc: Global,
    dry_run: &Option<bool>,
    with_deps: &Option<bool>,
    follow: &Follow,
    source: &Text,
    destination: &Text,
    queries: &[Text],
) -> Result<Command, AllocError>
    ensures { IfOk result (λ made. plain made ≡ of_repo (repo_copy_of dry_run.now with_deps.now (plain_follow follow.now) source.now destination.now queries.now)) }
{
    Ok(Command::RepoCopy {
        dry_run: *dry_run,
        with_deps: *with_deps,
        follow: follow.copy(alloc)?,
        source: source.copy(alloc)?,
        destination: destination.copy(alloc)?,
        queries: copies(alloc, queries)?,
    })
}

fn repo_move(
    alloc: Global,
    dry_run: &Option<bool>,
    with_deps: &Option<bool>,
    follow: &Follow,
    source: &Text,
    destination: &Text,
    queries: &[Text],
) -> Result<Command, AllocError>
    ensures { IfOk result (λ made. plain made ≡ of_repo (repo_move_of dry_run.now with_deps.now (plain_follow follow.now) source.now destination.now queries.now)) }
{
    Ok(Command::RepoMove {
        dry_run: *dry_run,
        with_deps: *with_deps,
        follow: follow.copy(alloc)?,
        source: source.copy(alloc)?,
        destination: destination.copy(alloc)?,
        queries: copies(alloc, queries)?,
    })
}

fn repo_import(
    alloc: Global,
    dry_run: &Option<bool>,
    with_deps: &Option<bool>,
    follow: &Follow,
    mirror: &Text,
    repo: &Text,
    queries: &[Text],
) -> Result<Command, AllocError>
    ensures { IfOk result (λ made. plain made ≡ of_repo (repo_import_of dry_run.now with_deps.now (plain_follow follow.now) mirror.now repo.now queries.now)) }
{
    Ok(Command::RepoImport {
        dry_run: *dry_run,
        with_deps: *with_deps,
        follow: follow.copy(alloc)?,
        mirror: mirror.copy(alloc)?,
        repo: repo.copy(alloc)?,
        queries: copies(alloc, queries)?,
    })
}

/// A copy of a command of local repositories. Another command is handed on.
pub(super) fn copy_repo(alloc: Global, command: &Command) -> Result<Command, AllocError>
    ensures { IfOk result (λ made. plain made ≡ plain command.now) }
{
    match command {
        Command::RepoCreate {
            comment,
            distribution,
            component,
            name,
        } => repo_create(alloc, comment, distribution, component, name),
        Command::RepoAdd { name, folder } => Ok(Command::RepoAdd {
            name: name.copy(alloc)?,
            folder: folder.copy(alloc)?,
        }),
        Command::RepoList => Ok(Command::RepoList),
        Command::RepoShow {
            with_packages,
            name,
        } => Ok(Command::RepoShow {
            with_packages: *with_packages,
            name: name.copy(alloc)?,
        }),
        Command::RepoEdit {
            comment,
            distribution,
            component,
            name,
        } => repo_edit(alloc, comment, distribution, component, name),
        Command::RepoRemove {
            dry_run,
            name,
            queries,
        } => repo_remove(alloc, dry_run, name, queries.as_slice()),
        Command::RepoCopy {
            dry_run,
            with_deps,
            follow,
            source,
            destination,
            queries,
        } => repo_copy(
            alloc,
            dry_run,
            with_deps,
            follow,
            source,
            destination,
            queries.as_slice(),
        ),
        Command::RepoMove {
            dry_run,
            with_deps,
            follow,
            source,
            destination,
            queries,
        } => repo_move(
            alloc,
            dry_run,
            with_deps,
            follow,
            source,
            destination,
            queries.as_slice(),
        ),
        Command::RepoImport {
            dry_run,
            with_deps,
            follow,
            mirror,
            repo,
            queries,
        } => repo_import(
            alloc,
            dry_run,
            with_deps,
            follow,
            mirror,
            repo,
            queries.as_slice(),
        ),
        Command::RepoRename { from_name, to_name } => Ok(Command::RepoRename {
            from_name: from_name.copy(alloc)?,
            to_name: to_name.copy(alloc)?,
        }),
        Command::RepoDrop { name } => Ok(Command::RepoDrop {
            name: name.copy(alloc)?,
        }),
        _ => copy_snapshot(alloc, command),
    }
}
