//! Whether a list can be added.
ghost use Rattle.std.specs.Prelude.{◌≡◌, IfOk, IfErr};
ghost use Rattle.std.specs.Option.{option_copied};
ghost use Rattle.package_list.specs.Answers.{append_answer};
ghost use Rattle.machine_state.specs.declared.limit.Limit.TheVariants.{Packages};
ghost use Rattle.package_intake.specs.Steps.{Gives, or_refused};
ghost use Rattle.package_intake.specs.Faults.{IsOtherFault, IsOwnFault};
ghost use Rattle.package_intake.specs.Arrival.{check_answer, list_in};

use crate::catalogue::check_known;
use crate::fault::of_list;
use machine_state::{Limit, Repo, UpdateFault};
use package_list::PackageList;
use std::alloc::{AllocError, Global};

/// The list of a repository, or the empty one.
fn own_list(alloc: Global, repo: Option<&Repo>) -> Result<PackageList, AllocError>
    ensures { IfOk result (λ list. list ≡ list_in (option_copied repo.entry)) }
{
    match repo {
        Some(repo) => repo.list.copy(alloc),
        None => Ok(PackageList::new(alloc)),
    }
}

/// Whether the list can be appended to a repository's list.
fn check_repository(
    alloc: Global,
    repo: Option<&Repo>,
    list: &PackageList,
) -> Result<(), UpdateFault>
    ensures answer { Gives result (or_refused Packages (append_answer (list_in (option_copied repo.entry)) list.now)) }
    ensures fault { IfErr result IsOwnFault }
    ensures other { IfErr result IsOtherFault }
{
    let mut all = own_list(alloc, repo)?;
    match all.append_from(alloc, list) {
        Ok(()) => Ok(()),
        Err(fault) => Err(of_list(Limit::Packages, fault)),
    }
}

/// Whether the list can be added to a repository's and to what is known.
#[tactic(auto, unfolding(crate::specs::Arrival::check_answer))]
pub(crate) fn check(
    alloc: Global,
    known: &PackageList,
    repo: Option<&Repo>,
    list: &PackageList,
) -> Result<(), UpdateFault>
    ensures answer { Gives result (check_answer known.now (list_in (option_copied repo.entry)) list.now) }
    ensures fault { IfErr result IsOwnFault }
    ensures other { IfErr result IsOtherFault }
{
    check_repository(alloc, repo, list)?;
    check_known(alloc, known, list)
}
