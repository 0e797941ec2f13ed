//! Repositories that are listed and shown.
ghost use Rattle.std.specs.Prelude.{◌≡◌, List, ℕ, Bool, Option, IfOk, IfErr, None};
ghost use Rattle.command_value.specs.Plain.{RepoCommand, plain, of_repo, repo_list as listed, repo_show as show_of};
ghost use Rattle.machine_state.specs.State.{Valid};
ghost use Rattle.machine_state.specs.declared.arrived.Arrived.{Arrived};
ghost use Rattle.step_model.specs.Answers.{ChangesTo, FaultIs, IsMemory, IsNew, IsRefusedFor};
ghost use Rattle.local_repo.specs.Cases.{repo_case};
ghost use Rattle.local_repo.specs.Verbs.{IsShow};

use command_value::Command;
use control_stanza::Text;
use machine_state::{Change, ChangeFault, Refusal, State};
use query_eval::Patterns;
use reply_text::{repo_list, repo_show};
use repo_packages::named_repo;
use std::alloc::Global;

/// `repo list`: each repository with the count of its packages. It fails only for want of memory.
pub fn list(alloc: Global, state: &State) -> Result<Change, ChangeFault>
    ensures ok { (arrived : Arrived) → IfOk result (ChangesTo state.now (repo_case state.now listed) arrived) }
    ensures fault { IfErr result IsMemory }
    ensures new { IfOk result (λ change. IsNew state.now change.state) }
{
    let reply = repo_list(alloc, state)?;
    Ok(Change { state: None, reply })
}

/// Shows a repository, and its packages where they are asked for.
fn show_named(
    alloc: Global,
    state: &State,
    with_packages: &Option<bool>,
    name: &Text,
) -> Result<Change, ChangeFault>
    ensures ok { (arrived : Arrived) → Valid state.now → IfOk result (ChangesTo state.now (repo_case state.now (show_of with_packages.now name.now)) arrived) }
    ensures fault { (arrived : Arrived) → Valid state.now → IfErr result (FaultIs (IsRefusedFor None (repo_case state.now (show_of with_packages.now name.now)) arrived)) }
    ensures new { IfOk result (λ change. IsNew state.now change.state) }
{
    let repo = named_repo(alloc, state, name)?;
    let reply = repo_show(alloc, repo, with_packages.unwrap_or(false))?;
    Ok(Change { state: None, reply })
}

/// `repo show`. It needs a command of that verb.
pub fn show<M: Patterns>(
    alloc: Global,
    state: &State,
    command: &Command,
    _patterns: &mut M,
) -> Result<Change, ChangeFault>
    ensures ok { (c : RepoCommand) (arrived : Arrived) → plain command.now ≡ of_repo c → IsShow c → Valid state.now → IfOk result (ChangesTo state.now (repo_case state.now c) arrived) }
    ensures fault { (c : RepoCommand) (arrived : Arrived) → plain command.now ≡ of_repo c → IsShow c → Valid state.now → IfErr result (FaultIs (IsRefusedFor None (repo_case state.now c) arrived)) }
    ensures new { IfOk result (λ change. IsNew state.now change.state) }
    ensures untouched { _patterns.new ≡ _patterns.old }
{
    match command {
        Command::RepoShow {
            with_packages,
            name,
        } => show_named(alloc, state, with_packages, name),
        _ => Err(ChangeFault::Refused(Refusal::NotBuilt)),
    }
}
