//! A new repository.
ghost use Rattle.std.specs.Prelude.{◌≡◌, List, ℕ, Option, IfOk, IfErr, None, Some};
ghost use Rattle.command_value.specs.Plain.{RepoCommand, plain, of_repo, repo_create};
ghost use Rattle.machine_state.specs.Ascending.{put};
ghost use Rattle.machine_state.specs.State.{Valid, repo_cmp};
ghost use Rattle.machine_state.specs.declared.arrived.Arrived.{Arrived};
ghost use Rattle.reply_text.specs.Replies.{repo_created as created_line};
ghost use Rattle.step_model.specs.Answers.{ChangesTo, FaultIs, IsMemory, IsNew, IsRefusedFor};
ghost use Rattle.local_repo.specs.Cases.{repo_case};
ghost use Rattle.local_repo.specs.Verbs.{IsCreate};
ghost use Rattle.local_repo.specs.Settings.{bad_settings, bare_repo as bare, edited as edited_from};

use crate::early::create_early;
use crate::settings::edited;
use ap_text::Name;
use command_value::Command;
use control_stanza::Text;
use machine_state::{Change, ChangeFault, Limit, Refusal, Repo, State, put_named};
use package_list::PackageList;
use query_eval::Patterns;
use reply_text::repo_created;
use std::alloc::Global;

/// A repository as it is made without a flag.
fn bare_repo(alloc: Global, name: Name) -> Result<Repo, ChangeFault>
    ensures same { IfOk result (λ repo. repo ≡ bare name) }
    ensures fits { IfErr result IsMemory }
{
    match Name::new(alloc, "main") {
        Ok(component) => Ok(Repo {
            name,
            comment: Text::new(alloc, "")?,
            distribution: None,
            component,
            list: PackageList::new(alloc),
        }),
        Err(_) => Err(ChangeFault::OutOfMemory),
    }
}

/// Puts a repository at its place among the others.
fn add_repo(alloc: Global, state: &State, repo: Repo) -> Result<Change, ChangeFault>
    ensures same { Valid state.now → IfOk result (λ change. change ≡ record { state = Some (record state.now { repos = put repo_cmp repo state.now.repos }); reply = created_line repo.name }) }
    ensures fits { IfErr result IsMemory }
{
    let reply = repo_created(alloc, &repo.name)?;
    let mut state = state.copy(alloc)?;
    put_named(&mut state.repos, repo)?;
    Ok(Change {
        state: Some(state),
        reply,
    })
}

/// Makes a repository of these settings.
fn make(
    alloc: Global,
    state: &State,
    comment: &Option<Text>,
    distribution: &Option<Text>,
    component: &Option<Text>,
    name: Name,
) -> Result<Change, ChangeFault>
    ensures same { Valid state.now → IfOk result (λ change. change ≡ record { state = Some (record state.now { repos = put repo_cmp (edited_from comment.now distribution.now component.now (bare name)) state.now.repos }); reply = created_line name }) }
    ensures fits { bad_settings comment.now distribution.now component.now ≡ None → IfErr result IsMemory }
{
    let bare = bare_repo(alloc, name)?;
    let repo = edited(alloc, &bare, comment, distribution, component)?;
    add_repo(alloc, state, repo)
}

/// Makes a repository of these flags.
fn create_with(
    alloc: Global,
    state: &State,
    comment: &Option<Text>,
    distribution: &Option<Text>,
    component: &Option<Text>,
    name: &Text,
) -> Result<Change, ChangeFault>
    ensures ok { (arrived : Arrived) → Valid state.now → IfOk result (ChangesTo state.now (repo_case state.now (repo_create comment.now distribution.now component.now name.now)) arrived) }
    ensures fault { (arrived : Arrived) → Valid state.now → IfErr result (FaultIs (IsRefusedFor None (repo_case state.now (repo_create comment.now distribution.now component.now name.now)) arrived)) }
    ensures new { Valid state.now → IfOk result (λ change. IsNew state.now change.state) }
{
    let name = create_early(alloc, state, comment, distribution, component, name)?;
    if state.repos.len() as u64 >= Limit::Repos.number() {
        return Err(ChangeFault::Refused(Refusal::Limit(Limit::Repos)));
    }
    make(alloc, state, comment, distribution, component, name)
}

/// `repo create`: a new repository with no package. Without a flag it has no comment, no distribution and the component `main`. It
/// needs a command of that verb.
pub fn create<M: Patterns>(
    alloc: Global,
    state: &State,
    command: &Command,
    _patterns: &mut M,
) -> Result<Change, ChangeFault>
    ensures ok { (c : RepoCommand) (arrived : Arrived) → plain command.now ≡ of_repo c → IsCreate c → Valid state.now → IfOk result (ChangesTo state.now (repo_case state.now c) arrived) }
    ensures fault { (c : RepoCommand) (arrived : Arrived) → plain command.now ≡ of_repo c → IsCreate c → Valid state.now → IfErr result (FaultIs (IsRefusedFor None (repo_case state.now c) arrived)) }
    ensures new { Valid state.now → IfOk result (λ change. IsNew state.now change.state) }
    ensures untouched { _patterns.new ≡ _patterns.old }
{
    match command {
        Command::RepoCreate {
            comment,
            distribution,
            component,
            name,
        } => create_with(alloc, state, comment, distribution, component, name),
        _ => Err(ChangeFault::Refused(Refusal::NotBuilt)),
    }
}
