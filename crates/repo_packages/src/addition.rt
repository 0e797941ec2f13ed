//! Packages added to a repository.
ghost use Rattle.std.specs.Prelude.{◌≡◌, ◌≤◌, List, ℕ, IfOk, IfErr, IsTrue, is_some, length, map, All, Option, None};
ghost use Rattle.ap_host.specs.Disk.{Files};
ghost use Rattle.package_list.specs.declared.list.TheConstants.{MOST_KNOWN};
ghost use Rattle.package_list.specs.Lists.{union};
ghost use Rattle.machine_state.specs.State.{Valid, repo_of};
ghost use Rattle.machine_state.specs.declared.arrived.Arrived.TheVariants as arrivals;
ghost use Rattle.step_model.specs.Answers.{came, ChangesTo, FaultIs, IsMemory, IsNew, IsRefusedFor};
ghost use Rattle.repo_packages.specs.PackageCases.{addition_case, taken_in, ArrivesFor};
ghost use Rattle.package_intake.specs.Fits.{FitsIn, added, with_more as with_more_of};

use crate::checks::there;
use crate::early::addition_early;
use ap_text::Name;
use control_stanza::Text;
use machine_state::{Arrived, Change, ChangeFault, Limit, Refusal, Repo, State};
use package_intake::arrivals_fit;
use package_list::{ListFault, PackageList};
use reply_text::repo_added;
use std::alloc::Global;

/// All of both lists.
fn joined(alloc: Global, own: &PackageList, more: &PackageList) -> Result<PackageList, ChangeFault>
    ensures same { IfOk result (λ all. all ≡ union own.now more.now) }
    ensures fits { length (union own.now more.now) ≤ MOST_KNOWN → IfErr result IsMemory }
{
    let mut all = own.copy(alloc)?;
    match all.join_known(alloc, more) {
        Ok(()) => Ok(all),
        Err(ListFault::OutOfMemory) => Err(ChangeFault::OutOfMemory),
        Err(_) => Err(ChangeFault::Refused(Refusal::Limit(Limit::Known))),
    }
}

/// The repository with these packages added, if it has that name.
fn with_more(
    alloc: Global,
    name: &Name,
    list: &PackageList,
    repo: &Repo,
) -> Result<Repo, ChangeFault>
    ensures same { IfOk result (λ made. made ≡ with_more_of name.now list.now repo.now) }
    ensures fits { length (with_more_of name.now list.now repo.now).list ≤ MOST_KNOWN → IfErr result IsMemory }
{
    let mut made = repo.copy(alloc)?;
    if repo.name.is(name) {
        made.list = joined(alloc, &repo.list, list)?;
    }
    Ok(made)
}

/// All repositories, with these packages added to the one of that name.
fn all_with_more(
    alloc: Global,
    name: &Name,
    list: &PackageList,
    repos: &[Repo],
) -> Result<Vec<Repo>, ChangeFault>
    ensures same { IfOk result (λ made. made.items ≡ map (with_more_of name.now list.now) repos.now) }
    ensures fits { All (λ repo. length repo.list ≤ MOST_KNOWN) (map (with_more_of name.now list.now) repos.now) → IfErr result IsMemory }
{
    let mut made = Vec::new(alloc);
    for repo in repos {
        made.push(with_more(alloc, name, list, repo)?)?;
    }
    Ok(made)
}

/// The state with these packages known, and added to the repository of that name.
fn state_with(
    alloc: Global,
    state: &State,
    name: &Name,
    list: &PackageList,
) -> Result<State, ChangeFault>
    ensures same { IfOk result (λ made. made ≡ added state.now name.now list.now) }
    ensures fits { FitsIn state.now name.now list.now → IfErr result IsMemory }
{
    let known = joined(alloc, &state.known, list)?;
    let repos = all_with_more(alloc, name, list, &state.repos)?;
    Ok(state.with_repos(alloc, known, repos)?)
}

/// Adds what arrived to the repository. Where it has all of it the state stays as it was.
fn take_in(
    alloc: Global,
    state: &State,
    name: &Name,
    list: &PackageList,
) -> Result<Change, ChangeFault>
    ensures taken { (date : List ℕ) → Valid state.now → FitsIn state.now name.now list.now → IsTrue (is_some (repo_of name.now state.now.repos)) → IfOk result (λ change. taken_in state.now name.now (arrivals.List list.now date) ≡ came state.now change) }
    ensures fits { Valid state.now → FitsIn state.now name.now list.now → IsTrue (is_some (repo_of name.now state.now.repos)) → IfErr result IsMemory }
    ensures new { Valid state.now → IsTrue (is_some (repo_of name.now state.now.repos)) → IfOk result (λ change. IsNew state.now change.state) }
{
    arrivals_fit();
    let repo = there(alloc, state, name)?;
    let all = joined(alloc, &repo.list, list)?;
    let added = all.len().saturating_sub(repo.list.len());
    let reply = repo_added(alloc, name, added as u64, all.len() as u64)?;
    if added == 0 {
        return Ok(Change { state: None, reply });
    }
    Ok(Change {
        state: Some(state_with(alloc, state, name, list)?),
        reply,
    })
}

/// What `repo add` changes in a valid state with what arrived of its folder: the packages join the repository's, and are known. Where it has
/// them all the state stays as it was. A refusal that arrived is the command's.
pub fn add_packages(
    alloc: Global,
    state: &State,
    name: &Text,
    folder: &Text,
    arrived: &Arrived,
) -> Result<Change, ChangeFault>
    ensures ok { (inbox : Option Files) → Valid state.now → ArrivesFor inbox state.now (addition_case state.now name.now folder.now) arrived.now → IfOk result (ChangesTo state.now (addition_case state.now name.now folder.now) arrived.now) }
    ensures fault { (inbox : Option Files) → Valid state.now → ArrivesFor inbox state.now (addition_case state.now name.now folder.now) arrived.now → IfErr result (FaultIs (IsRefusedFor None (addition_case state.now name.now folder.now) arrived.now)) }
    ensures new { (inbox : Option Files) → Valid state.now → ArrivesFor inbox state.now (addition_case state.now name.now folder.now) arrived.now → IfOk result (λ change. IsNew state.now change.state) }
{
    arrivals_fit();
    let (name, _) = addition_early(alloc, state, name, folder)?;
    match arrived {
        Arrived::Nothing => Err(ChangeFault::Refused(Refusal::NotBuilt)),
        Arrived::Refused(refusal) => Err(ChangeFault::Refused(refusal.copy(alloc)?)),
        Arrived::List { list, .. } => take_in(alloc, state, &name, list),
    }
}
