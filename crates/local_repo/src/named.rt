//! What the commands by names and settings are refused for. None of them reads anything.
ghost use Rattle.std.specs.Prelude.{◌≡◌, IfOk, IfErr, None, Some};
ghost use Rattle.command_value.specs.Plain.{RepoCommand, plain, of_repo, repo_create, repo_show, repo_edit, repo_rename, repo_drop};
ghost use Rattle.machine_state.specs.State.{Valid};
ghost use Rattle.step_model.specs.Answers.{FaultIs, IsWanted};
ghost use Rattle.step_model.specs.Refuses.{Refuses};
ghost use Rattle.local_repo.specs.Cases.{repo_case};
ghost use Rattle.local_repo.specs.Verbs.{IsNamed};

use crate::early::{create_early, drop_early, edit_early, rename_early};
use command_value::Command;
use control_stanza::Text;
use machine_state::{ChangeFault, Refusal, State};
use repo_packages::named_repo;
use std::alloc::Global;
use step_model::Reading;

fn create_needs(
    alloc: Global,
    state: &State,
    comment: &Option<Text>,
    distribution: &Option<Text>,
    component: &Option<Text>,
    name: &Text,
) -> Result<Reading, ChangeFault>
    ensures ok { Valid state.now → IfOk result (IsWanted None (repo_case state.now (repo_create comment.now distribution.now component.now name.now))) }
    ensures fault { Valid state.now → IfErr result (FaultIs (λ refusal. Refuses None (repo_case state.now (repo_create comment.now distribution.now component.now name.now)) (Some refusal))) }
{
    create_early(alloc, state, comment, distribution, component, name)?;
    Ok(Reading::Nothing)
}

fn show_needs(
    alloc: Global,
    state: &State,
    with_packages: &Option<bool>,
    name: &Text,
) -> Result<Reading, ChangeFault>
    ensures ok { Valid state.now → IfOk result (IsWanted None (repo_case state.now (repo_show with_packages.now name.now))) }
    ensures fault { Valid state.now → IfErr result (FaultIs (λ refusal. Refuses None (repo_case state.now (repo_show with_packages.now name.now)) (Some refusal))) }
{
    named_repo(alloc, state, name)?;
    Ok(Reading::Nothing)
}

fn edit_needs(
    alloc: Global,
    state: &State,
    comment: &Option<Text>,
    distribution: &Option<Text>,
    component: &Option<Text>,
    name: &Text,
) -> Result<Reading, ChangeFault>
    ensures ok { Valid state.now → IfOk result (IsWanted None (repo_case state.now (repo_edit comment.now distribution.now component.now name.now))) }
    ensures fault { Valid state.now → IfErr result (FaultIs (λ refusal. Refuses None (repo_case state.now (repo_edit comment.now distribution.now component.now name.now)) (Some refusal))) }
{
    edit_early(alloc, state, comment, distribution, component, name)?;
    Ok(Reading::Nothing)
}

fn rename_needs(
    alloc: Global,
    state: &State,
    from: &Text,
    to: &Text,
) -> Result<Reading, ChangeFault>
    ensures ok { Valid state.now → IfOk result (IsWanted None (repo_case state.now (repo_rename from.now to.now))) }
    ensures fault { Valid state.now → IfErr result (FaultIs (λ refusal. Refuses None (repo_case state.now (repo_rename from.now to.now)) (Some refusal))) }
{
    rename_early(alloc, state, from, to)?;
    Ok(Reading::Nothing)
}

fn drop_needs(alloc: Global, state: &State, name: &Text) -> Result<Reading, ChangeFault>
    ensures ok { Valid state.now → IfOk result (IsWanted None (repo_case state.now (repo_drop name.now))) }
    ensures fault { Valid state.now → IfErr result (FaultIs (λ refusal. Refuses None (repo_case state.now (repo_drop name.now)) (Some refusal))) }
{
    drop_early(alloc, state, name)?;
    Ok(Reading::Nothing)
}

/// That a command by names and settings reads nothing in a valid state, or its first refusal. It needs a command of those.
pub(crate) fn named_needs(
    alloc: Global,
    state: &State,
    command: &Command,
) -> Result<Reading, ChangeFault>
    ensures ok { (c : RepoCommand) → plain command.now ≡ of_repo c → IsNamed c → Valid state.now → IfOk result (IsWanted None (repo_case state.now c)) }
    ensures fault { (c : RepoCommand) → plain command.now ≡ of_repo c → IsNamed c → Valid state.now → IfErr result (FaultIs (λ refusal. Refuses None (repo_case state.now c) (Some refusal))) }
{
    match command {
        Command::RepoCreate {
            comment,
            distribution,
            component,
            name,
        } => create_needs(alloc, state, comment, distribution, component, name),
        Command::RepoList => Ok(Reading::Nothing),
        Command::RepoShow {
            with_packages,
            name,
        } => show_needs(alloc, state, with_packages, name),
        Command::RepoEdit {
            comment,
            distribution,
            component,
            name,
        } => edit_needs(alloc, state, comment, distribution, component, name),
        Command::RepoRename { from_name, to_name } => {
            rename_needs(alloc, state, from_name, to_name)
        }
        Command::RepoDrop { name } => drop_needs(alloc, state, name),
        _ => Err(ChangeFault::Refused(Refusal::NotBuilt)),
    }
}
