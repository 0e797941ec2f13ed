//! The commands of local repositories, by their verbs.
ghost use Rattle.std.specs.Prelude.{◌≡◌, ◌≤◌, IfOk, IfErr, None, Option};
ghost use Rattle.ap_host.specs.Disk.{Files};
ghost use Rattle.command_value.specs.Plain.{RepoCommand, plain, of_repo};
ghost use Rattle.machine_state.specs.State.{Valid};
ghost use Rattle.step_model.specs.Answers.{ChangesBy, IsNew, IsWanted, KeepsBy, RefusedBy, RefusesBy};
ghost use Rattle.repo_packages.specs.PackageCases.{ArrivesFor};
ghost use Rattle.local_repo.specs.Cases.{repo_case};

use crate::creation::create;
use crate::editing::edit;
use crate::named::named_needs;
use crate::naming::{drop, rename};
use crate::packages::{copy, import, remove, taken, transfer};
use crate::shown::{list, show};
use command_value::Command;
use machine_state::{Arrived, Change, ChangeFault, Refusal, State};
use query_eval::Patterns;
use repo_packages::{addition_needs, import_needs, pair_needs, removal_needs};
use std::alloc::Global;
use step_model::Reading;

/// What is to be read for a command of repositories in a valid state, or the first refusal that holds before anything is read.
/// The patterns of its queries are built, and the first that can't be is told: as `PatternTooLarge` only where `patterns` refused
/// its text for its size in this call.
pub fn needs<M: Patterns>(
    alloc: Global,
    state: &State,
    command: &Command,
    patterns: &mut M,
) -> Result<Reading, ChangeFault>
    ensures ok { (c : RepoCommand) → plain command.now ≡ of_repo c → Valid state.now → IfOk result (IsWanted None (repo_case state.now c)) }
    ensures fault { (c : RepoCommand) → plain command.now ≡ of_repo c → Valid state.now → IfErr result (RefusesBy M.Patterns patterns.old patterns.new (repo_case state.now c)) }
    ensures never_falls { M.refusals patterns.old ≤ M.refusals patterns.new }
    // Which text was refused for its size changes only where such a pattern is told.
    ensures kept { KeepsBy M.Patterns patterns.old patterns.new result }
{
    match command {
        Command::RepoAdd { name, folder } => addition_needs(alloc, state, name, folder),
        Command::RepoRemove { name, queries, .. } => {
            removal_needs(alloc, state, name, queries, patterns)
        }
        Command::RepoCopy {
            follow,
            source,
            destination,
            queries,
            ..
        } => pair_needs(alloc, state, follow, source, destination, queries, patterns),
        Command::RepoMove {
            follow,
            source,
            destination,
            queries,
            ..
        } => pair_needs(alloc, state, follow, source, destination, queries, patterns),
        Command::RepoImport {
            follow,
            mirror,
            repo,
            queries,
            ..
        } => import_needs(alloc, state, follow, mirror, repo, queries, patterns),
        _ => named_needs(alloc, state, command),
    }
}

/// What a command of repositories changes in a valid state with what arrived for it, or the first refusal that holds.
pub fn change<M: Patterns>(
    alloc: Global,
    state: &State,
    command: &Command,
    arrived: &Arrived,
    patterns: &mut M,
) -> Result<Change, ChangeFault>
    ensures ok { (c : RepoCommand) (inbox : Option Files) → plain command.now ≡ of_repo c → Valid state.now → ArrivesFor inbox state.now (repo_case state.now c) arrived.now → IfOk result (ChangesBy M.Patterns patterns.old patterns.new state.now (repo_case state.now c) arrived.now) }
    ensures fault { (c : RepoCommand) (inbox : Option Files) → plain command.now ≡ of_repo c → Valid state.now → ArrivesFor inbox state.now (repo_case state.now c) arrived.now → IfErr result (RefusedBy M.Patterns patterns.old patterns.new (repo_case state.now c) arrived.now) }
    // A state that is told is another one.
    ensures new { (c : RepoCommand) (inbox : Option Files) → plain command.now ≡ of_repo c → Valid state.now → ArrivesFor inbox state.now (repo_case state.now c) arrived.now → IfOk result (λ change. IsNew state.now change.state) }
    ensures never_falls { M.refusals patterns.old ≤ M.refusals patterns.new }
    // Which text was refused for its size changes only where such a pattern is told.
    ensures kept { KeepsBy M.Patterns patterns.old patterns.new result }
{
    match command {
        Command::RepoCreate { .. } => create(alloc, state, command, patterns),
        Command::RepoAdd { .. } => taken(alloc, state, command, arrived),
        Command::RepoList => list(alloc, state),
        Command::RepoShow { .. } => show(alloc, state, command, patterns),
        Command::RepoEdit { .. } => edit(alloc, state, command, patterns),
        Command::RepoRename { .. } => rename(alloc, state, command, patterns),
        Command::RepoDrop { .. } => drop(alloc, state, command, patterns),
        Command::RepoRemove { .. } => remove(alloc, state, command, patterns),
        Command::RepoCopy { .. } => copy(alloc, state, command, patterns),
        Command::RepoMove { .. } => transfer(alloc, state, command, patterns),
        Command::RepoImport { .. } => import(alloc, state, command, patterns),
        _ => Err(ChangeFault::Refused(Refusal::NotBuilt)),
    }
}
