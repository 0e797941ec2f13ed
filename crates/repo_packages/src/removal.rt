//! Packages that leave a repository.
ghost use Rattle.std.specs.Prelude.{◌≡◌, ◌≤◌, List, ℕ, Bool, false, Option, IfOk, IfErr, None};
ghost use Rattle.machine_state.specs.State.{Valid};
ghost use Rattle.machine_state.specs.declared.arrived.Arrived.{Arrived};
ghost use Rattle.step_model.specs.Answers.{came, ChangesTo, IsMemory, IsNew, KeepsBy, RefusedBy};
ghost use Rattle.step_model.specs.Queries.{chosen};
ghost use Rattle.repo_packages.specs.PackageCases.{removal, removal_case, Finds};

use crate::checks::named_repo;
use crate::listing::listed;
use crate::replies::repo_removed;
use control_stanza::Text;
use machine_state::{Change, ChangeFault, Repo, State};
use package_list::PackageList;
use query_eval::Patterns;
use reply_text::dry_run_reply;
use std::alloc::Global;
use step_model::{chosen_in, prepared_all, without_of};

/// Takes packages out of a repository. Where there are none the state stays as it was.
fn take_out(
    alloc: Global,
    state: &State,
    repo: &Repo,
    gone: &PackageList,
) -> Result<Change, ChangeFault>
    ensures comes { (name : List ℕ) → Valid state.now → Finds state.now name repo.now → IfOk result (λ change. removal state.now false name gone.now ≡ came state.now change) }
    ensures fault { IfErr result IsMemory }
    ensures new { (name : List ℕ) (queries : List (List ℕ)) → Valid state.now → Finds state.now name repo.now → gone.now ≡ chosen repo.now.list queries → IfOk result (λ change. IsNew state.now change.state) }
{
    let left = without_of(alloc, &repo.list, gone)?;
    let count = gone.len();
    let reply = repo_removed(alloc, &repo.name, count as u64, left.len() as u64)?;
    if count == 0 {
        return Ok(Change { state: None, reply });
    }
    let new = listed(alloc, state, &repo.name, left)?;
    Ok(Change {
        state: Some(new),
        reply,
    })
}

/// Takes packages out of a repository, or tells in a dry run which would leave it.
fn removed(
    alloc: Global,
    state: &State,
    dry_run: bool,
    repo: &Repo,
    gone: &PackageList,
) -> Result<Change, ChangeFault>
    ensures comes { (name : List ℕ) → Valid state.now → Finds state.now name repo.now → IfOk result (λ change. removal state.now dry_run name gone.now ≡ came state.now change) }
    ensures fault { IfErr result IsMemory }
    ensures new { (name : List ℕ) (queries : List (List ℕ)) → Valid state.now → Finds state.now name repo.now → gone.now ≡ chosen repo.now.list queries → IfOk result (λ change. IsNew state.now change.state) }
{
    if dry_run {
        let none = PackageList::new(alloc);
        let reply = dry_run_reply(alloc, gone.as_slice(), none.as_slice())?;
        return Ok(Change { state: None, reply });
    }
    take_out(alloc, state, repo, gone)
}

/// What `repo remove` changes in a valid state: the packages of which some query is true leave the repository. A dry run makes the same
/// checks, tells which would leave, and changes nothing.
pub fn remove_packages<M: Patterns>(
    alloc: Global,
    state: &State,
    dry_run: &Option<bool>,
    name: &Text,
    queries: &[Text],
    patterns: &mut M,
) -> Result<Change, ChangeFault>
    ensures ok { (arrived : Arrived) → Valid state.now → IfOk result (ChangesTo state.now (removal_case state.now dry_run.now name.now queries.now) arrived) }
    ensures fault { (arrived : Arrived) → Valid state.now → IfErr result (RefusedBy M.Patterns patterns.old patterns.new (removal_case state.now dry_run.now name.now queries.now) arrived) }
    ensures new { Valid state.now → IfOk result (λ change. IsNew state.now change.state) }
    ensures never_falls { M.refusals patterns.old ≤ M.refusals patterns.new }
    ensures kept { KeepsBy M.Patterns patterns.old patterns.new result }
{
    let repo = named_repo(alloc, state, name)?;
    let asked = prepared_all(alloc, queries, patterns)?;
    let gone = chosen_in(alloc, &repo.list, &asked)?;
    removed(alloc, state, dry_run.unwrap_or(false), repo, &gone)
}
