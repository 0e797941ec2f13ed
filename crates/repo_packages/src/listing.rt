//! Repositories with other lists.
ghost use Rattle.std.specs.Prelude.{◌≡◌, IfOk, IfErr, OnOk, Ok};
ghost use Rattle.machine_state.specs.Ascending.{IsAscending};
ghost use Rattle.machine_state.specs.State.{repo_cmp};
ghost use Rattle.machine_state.specs.declared.limit.Limit.TheVariants.{Packages};
ghost use Rattle.package_list.specs.Answers.{append_answer};
ghost use Rattle.package_list.specs.Lists.{union};
ghost use Rattle.step_model.specs.Answers.{FaultIs};
ghost use Rattle.repo_packages.specs.PackageCases.{changed_in, listed as listed_in, with_list, IsJoinRefusal};

use ap_text::Name;
use machine_state::{ChangeFault, Limit, Refusal, Repo, State, place_of_repo};
use package_list::{ListFault, PackageList};
use std::alloc::{AllocError, Global};

/// Gives the repository of that name another list. It takes no memory.
pub(crate) fn set_list(repos: &mut Vec<Repo>, name: &Name, list: PackageList)
    ensures { IsAscending repo_cmp repos.old.items → repos.new.items ≡ changed_in name.now (with_list list) repos.old.items }
{
    if let Ok(place) = place_of_repo(repos, name) {
        let repo = &mut repos[place];
        repo.list = list;
    }
}

/// The state where the repository of that name has another list. Fails only for want of memory.
pub(crate) fn listed(
    alloc: Global,
    state: &State,
    name: &Name,
    list: PackageList,
) -> Result<State, AllocError>
    ensures { IsAscending repo_cmp state.now.repos → IfOk result (λ made. made ≡ listed_in state.now name.now list) }
{
    let mut made = state.copy(alloc)?;
    set_list(&mut made.repos, name, list);
    Ok(made)
}

/// All of both lists: the packages join the list. It is refused where one of them clashes, and then where they are too many.
pub(crate) fn appended(
    alloc: Global,
    own: &PackageList,
    more: &PackageList,
) -> Result<PackageList, ChangeFault>
    ensures good { OnOk result (append_answer own.now more.now ≡ Ok tt) }
    ensures same { IfOk result (λ all. all ≡ union own.now more.now) }
    ensures fault { IfErr result (FaultIs (IsJoinRefusal own.now more.now)) }
{
    let mut all = own.copy(alloc)?;
    match all.append_from(alloc, more) {
        Ok(()) => Ok(all),
        Err(ListFault::Conflict(triple)) => Err(ChangeFault::Refused(Refusal::Conflict(triple))),
        Err(ListFault::Full) => Err(ChangeFault::Refused(Refusal::Limit(Limit::Packages))),
        Err(ListFault::OutOfMemory) => Err(ChangeFault::OutOfMemory),
    }
}
