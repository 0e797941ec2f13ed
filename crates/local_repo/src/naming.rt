//! Repositories that have another name, or are no more.
ghost use Rattle.std.specs.Prelude.{◌≡◌, List, ℕ, IfOk, IfErr, OnOk, None};
ghost use Rattle.command_value.specs.Plain.{RepoCommand, plain, of_repo, repo_rename, repo_drop};
ghost use Rattle.machine_state.specs.Ascending.{IsAscending};
ghost use Rattle.machine_state.specs.Named.{dropped, renamed};
ghost use Rattle.machine_state.specs.State.{Valid, repo_cmp, repo_name};
ghost use Rattle.machine_state.specs.declared.arrived.Arrived.{Arrived};
ghost use Rattle.step_model.specs.Answers.{ChangesTo, FaultIs, IsNew, IsRefusedFor};
ghost use Rattle.local_repo.specs.Cases.{called, repo_case, repo_renamed_in};
ghost use Rattle.local_repo.specs.Verbs.{IsRename, IsDrop};

use crate::early::{drop_early, rename_early};
use crate::replies::{repo_dropped, repo_renamed};
use ap_text::Name;
use command_value::Command;
use control_stanza::Text;
use machine_state::{
    Change, ChangeFault, Kind, Refusal, Repo, State, put_named, rename_sources, take_named,
};
use query_eval::Patterns;
use std::alloc::{AllocError, Global};

/// Gives the repository of the first name the second, and the place of that.
fn rename_repo(repos: &mut Vec<Repo>, before: &Name, after: Name) -> Result<(), AllocError>
    ensures { IsAscending repo_cmp repos.old.items → OnOk result (repos.new.items ≡ renamed repo_name called before.now after repos.old.items) }
{
    match take_named(repos, before) {
        None => Ok(()),
        Some(mut repo) => {
            repo.name = after;
            put_named(repos, repo)
        }
    }
}

/// The state where a repository has another name, in the sources of publications too.
fn renamed_state(
    alloc: Global,
    state: &State,
    before: &Name,
    after: Name,
) -> Result<State, AllocError>
    ensures { Valid state.now → IfOk result (λ new. new ≡ repo_renamed_in state.now before.now after) }
{
    let mut state = state.copy(alloc)?;
    rename_sources(alloc, &mut state.publications, Kind::Repo, before, &after)?;
    rename_repo(&mut state.repos, before, after)?;
    Ok(state)
}

fn rename_named(alloc: Global, state: &State, from: &Text, to: &Text) -> Result<Change, ChangeFault>
    ensures ok { (arrived : Arrived) → Valid state.now → IfOk result (ChangesTo state.now (repo_case state.now (repo_rename from.now to.now)) arrived) }
    ensures fault { (arrived : Arrived) → Valid state.now → IfErr result (FaultIs (IsRefusedFor None (repo_case state.now (repo_rename from.now to.now)) arrived)) }
    ensures new { Valid state.now → IfOk result (λ change. IsNew state.now change.state) }
{
    let (before, after) = rename_early(alloc, state, from, to)?;
    let reply = repo_renamed(alloc, &before, &after)?;
    Ok(Change {
        state: Some(renamed_state(alloc, state, &before, after)?),
        reply,
    })
}

/// `repo rename`: a repository has another name, in the sources of publications too. It needs a command of that verb.
pub fn rename<M: Patterns>(
    alloc: Global,
    state: &State,
    command: &Command,
    _patterns: &mut M,
) -> Result<Change, ChangeFault>
    ensures ok { (c : RepoCommand) (arrived : Arrived) → plain command.now ≡ of_repo c → IsRename c → Valid state.now → IfOk result (ChangesTo state.now (repo_case state.now c) arrived) }
    ensures fault { (c : RepoCommand) (arrived : Arrived) → plain command.now ≡ of_repo c → IsRename c → Valid state.now → IfErr result (FaultIs (IsRefusedFor None (repo_case state.now c) arrived)) }
    ensures new { Valid state.now → IfOk result (λ change. IsNew state.now change.state) }
    ensures untouched { _patterns.new ≡ _patterns.old }
{
    match command {
        Command::RepoRename { from_name, to_name } => {
            rename_named(alloc, state, from_name, to_name)
        }
        _ => Err(ChangeFault::Refused(Refusal::NotBuilt)),
    }
}

/// The state without the repository of that name.
fn state_without(alloc: Global, state: &State, name: &Name) -> Result<State, AllocError>
    ensures { Valid state.now → IfOk result (λ new. new ≡ record state.now { repos = dropped repo_name name.now state.now.repos }) }
{
    let mut state = state.copy(alloc)?;
    take_named(&mut state.repos, name);
    Ok(state)
}

fn drop_named(alloc: Global, state: &State, name: &Text) -> Result<Change, ChangeFault>
    ensures ok { (arrived : Arrived) → Valid state.now → IfOk result (ChangesTo state.now (repo_case state.now (repo_drop name.now)) arrived) }
    ensures fault { (arrived : Arrived) → Valid state.now → IfErr result (FaultIs (IsRefusedFor None (repo_case state.now (repo_drop name.now)) arrived)) }
    ensures new { Valid state.now → IfOk result (λ change. IsNew state.now change.state) }
{
    let name = drop_early(alloc, state, name)?;
    let reply = repo_dropped(alloc, &name)?;
    Ok(Change {
        state: Some(state_without(alloc, state, &name)?),
        reply,
    })
}

/// `repo drop`: a repository that no publication uses is no more. Its packages stay known. It needs a command of that verb.
pub fn drop<M: Patterns>(
    alloc: Global,
    state: &State,
    command: &Command,
    _patterns: &mut M,
) -> Result<Change, ChangeFault>
    ensures ok { (c : RepoCommand) (arrived : Arrived) → plain command.now ≡ of_repo c → IsDrop c → Valid state.now → IfOk result (ChangesTo state.now (repo_case state.now c) arrived) }
    ensures fault { (c : RepoCommand) (arrived : Arrived) → plain command.now ≡ of_repo c → IsDrop c → Valid state.now → IfErr result (FaultIs (IsRefusedFor None (repo_case state.now c) arrived)) }
    ensures new { Valid state.now → IfOk result (λ change. IsNew state.now change.state) }
    ensures untouched { _patterns.new ≡ _patterns.old }
{
    match command {
        Command::RepoDrop { name } => drop_named(alloc, state, name),
        _ => Err(ChangeFault::Refused(Refusal::NotBuilt)),
    }
}
