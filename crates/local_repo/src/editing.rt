//! A repository with other settings.
ghost use Rattle.std.specs.Prelude.{◌≡◌, List, ℕ, Option, IfOk, IfErr, None, Some};
ghost use Rattle.command_value.specs.Plain.{RepoCommand, plain, of_repo, repo_edit};
ghost use Rattle.machine_state.specs.State.{Valid, repo_of};
ghost use Rattle.machine_state.specs.declared.arrived.Arrived.{Arrived};
ghost use Rattle.step_model.specs.Answers.{came, ChangesTo, FaultIs, IsMemory, IsNew, IsRefusedFor};
ghost use Rattle.step_model.specs.Case.{changes};
ghost use Rattle.repo_packages.specs.PackageCases.{changed_in};
ghost use Rattle.local_repo.specs.Cases.{repo_case};
ghost use Rattle.local_repo.specs.Verbs.{IsEdit};
ghost use Rattle.local_repo.specs.Replies.{repo_edited as edited_line};
ghost use Rattle.local_repo.specs.Settings.{edited as edited_from};

use crate::early::edit_early;
use crate::replies::repo_edited;
use crate::settings::{edited, is_same};
use command_value::Command;
use control_stanza::Text;
use machine_state::{Change, ChangeFault, Refusal, Repo, State, set_named};
use query_eval::Patterns;
use std::alloc::{AllocError, Global};

/// The state with this repository in the place of that of its name.
fn state_with(alloc: Global, state: &State, made: Repo) -> Result<State, AllocError>
    ensures { (comment distribution component : Option (List ℕ)) (repo : Repo) → Valid state.now → repo_of made.name state.now.repos ≡ Some repo → made ≡ edited_from comment distribution component repo → IfOk result (λ new. new ≡ record state.now { repos = changed_in made.name (edited_from comment distribution component) state.now.repos }) }
{
    let mut state = state.copy(alloc)?;
    set_named(&mut state.repos, made);
    Ok(state)
}

/// Puts the repository with its new settings into the place of the old one. Where they are the old ones the state stays as it was.
fn put_back(alloc: Global, state: &State, repo: &Repo, made: Repo) -> Result<Change, ChangeFault>
    ensures same { (comment distribution component : Option (List ℕ)) → Valid state.now → repo_of made.name state.now.repos ≡ Some repo.now → made ≡ edited_from comment distribution component repo.now → IfOk result (λ change. came state.now change ≡ changes (edited_line made.name) (record state.now { repos = changed_in made.name (edited_from comment distribution component) state.now.repos })) }
    ensures fits { IfErr result IsMemory }
    ensures new { (comment distribution component : Option (List ℕ)) → Valid state.now → repo_of made.name state.now.repos ≡ Some repo.now → made ≡ edited_from comment distribution component repo.now → IfOk result (λ change. IsNew state.now change.state) }
{
    let reply = repo_edited(alloc, &made.name)?;
    if is_same(&made, repo) {
        return Ok(Change { state: None, reply });
    }
    Ok(Change {
        state: Some(state_with(alloc, state, made)?),
        reply,
    })
}

/// Gives a repository the settings of these flags.
fn edit_with(
    alloc: Global,
    state: &State,
    comment: &Option<Text>,
    distribution: &Option<Text>,
    component: &Option<Text>,
    name: &Text,
) -> Result<Change, ChangeFault>
    ensures ok { (arrived : Arrived) → Valid state.now → IfOk result (ChangesTo state.now (repo_case state.now (repo_edit comment.now distribution.now component.now name.now)) arrived) }
    ensures fault { (arrived : Arrived) → Valid state.now → IfErr result (FaultIs (IsRefusedFor None (repo_case state.now (repo_edit comment.now distribution.now component.now name.now)) arrived)) }
    ensures new { Valid state.now → IfOk result (λ change. IsNew state.now change.state) }
{
    let repo = edit_early(alloc, state, comment, distribution, component, name)?;
    let made = edited(alloc, repo, comment, distribution, component)?;
    put_back(alloc, state, repo, made)
}

/// `repo edit`: a repository gets the settings that are written; an empty comment or distribution is none. Where it has them all the
/// state stays as it was. It needs a command of that verb.
pub fn edit<M: Patterns>(
    alloc: Global,
    state: &State,
    command: &Command,
    _patterns: &mut M,
) -> Result<Change, ChangeFault>
    ensures ok { (c : RepoCommand) (arrived : Arrived) → plain command.now ≡ of_repo c → IsEdit c → Valid state.now → IfOk result (ChangesTo state.now (repo_case state.now c) arrived) }
    ensures fault { (c : RepoCommand) (arrived : Arrived) → plain command.now ≡ of_repo c → IsEdit c → Valid state.now → IfErr result (FaultIs (IsRefusedFor None (repo_case state.now c) arrived)) }
    ensures new { Valid state.now → IfOk result (λ change. IsNew state.now change.state) }
    ensures untouched { _patterns.new ≡ _patterns.old }
{
    match command {
        Command::RepoEdit {
            comment,
            distribution,
            component,
            name,
        } => edit_with(alloc, state, comment, distribution, component, name),
        _ => Err(ChangeFault::Refused(Refusal::NotBuilt)),
    }
}
