//! What each command on packages is refused for before its queries and before anything is read.
ghost use Rattle.std.specs.Prelude.{◌≡◌, IfOk, IfErr, OnOk, None, Some};
ghost use Rattle.command_value.specs.Plain.{plain_follow};
ghost use Rattle.machine_state.specs.State.{Valid, mirror_of};
ghost use Rattle.package_choice.specs.Choice.{bad_follow};
ghost use Rattle.step_model.specs.Answers.{IsFirst};
ghost use Rattle.repo_packages.specs.PackageCases.{addition_case, bad_import, bad_pair, bad_places, bad_transfer, Finds};

use crate::checks::there;
use ap_text::{Name, SafePath};
use command_value::Follow;
use control_stanza::Text;
use machine_state::{ChangeFault, Mirror, Repo, State};
use mirror_lists::mirror_there;
use package_choice::check_follow;
use std::alloc::Global;
use step_model::{folder_of, name_of};

/// The repository and the folder of an addition.
#[tactic(auto, unfolding(crate::specs::PackageCases::addition_case))]
pub(crate) fn addition_early(
    alloc: Global,
    state: &State,
    name: &Text,
    folder: &Text,
) -> Result<(Name, SafePath), ChangeFault>
    ensures good { Valid state.now → OnOk result ((addition_case state.now name.now folder.now).early ≡ None) }
    ensures fault { Valid state.now → IfErr result (IsFirst (addition_case state.now name.now folder.now).early) }
    ensures name { IfOk result (λ read. read.0 ≡ name.now) }
    ensures folder { IfOk result (λ read. read.1 ≡ folder.now) }
{
    let name = name_of(alloc, name)?;
    let folder = folder_of(alloc, folder)?;
    there(alloc, state, &name)?;
    Ok((name, folder))
}

/// The two repositories that the texts of a copy or a move name: both are names before one is looked for.
fn named_pair<'a>(
    alloc: Global,
    state: &'a State,
    source: &Text,
    destination: &Text,
) -> Result<(&'a Repo, &'a Repo), ChangeFault>
    ensures good { Valid state.now → OnOk result (bad_pair state.now source.now destination.now ≡ None) }
    ensures fault { Valid state.now → IfErr result (IsFirst (bad_pair state.now source.now destination.now)) }
    ensures source { Valid state.now → IfOk result (λ pair. Finds state.now source.now pair.0.now) }
    ensures destination { Valid state.now → IfOk result (λ pair. Finds state.now destination.now pair.1.now) }
{
    let from = name_of(alloc, source)?;
    let to = name_of(alloc, destination)?;
    let source = there(alloc, state, &from)?;
    let destination = there(alloc, state, &to)?;
    Ok((source, destination))
}

/// The two repositories of a copy or a move: the architectures that are written can be listed before a name is looked at.
pub(crate) fn pair_early<'a>(
    alloc: Global,
    state: &'a State,
    follow: &Follow,
    source: &Text,
    destination: &Text,
) -> Result<(&'a Repo, &'a Repo), ChangeFault>
    ensures follow { OnOk result (bad_follow (plain_follow follow.now) ≡ None) }
    ensures good { Valid state.now → OnOk result (bad_transfer state.now (plain_follow follow.now) source.now destination.now ≡ None) }
    ensures fault { Valid state.now → IfErr result (IsFirst (bad_transfer state.now (plain_follow follow.now) source.now destination.now)) }
    ensures source { Valid state.now → IfOk result (λ pair. Finds state.now source.now pair.0.now) }
    ensures destination { Valid state.now → IfOk result (λ pair. Finds state.now destination.now pair.1.now) }
{
    check_follow(alloc, follow)?;
    named_pair(alloc, state, source, destination)
}

/// The mirror and the repository that the texts of an import name: both are names before one is looked for.
fn named_places<'a>(
    alloc: Global,
    state: &'a State,
    mirror: &Text,
    repo: &Text,
) -> Result<(&'a Mirror, &'a Repo), ChangeFault>
    ensures good { Valid state.now → OnOk result (bad_places state.now mirror.now repo.now ≡ None) }
    ensures fault { Valid state.now → IfErr result (IsFirst (bad_places state.now mirror.now repo.now)) }
    ensures mirror { Valid state.now → IfOk result (λ places. mirror_of mirror.now state.now.mirrors ≡ Some places.0.now) }
    ensures repo { Valid state.now → IfOk result (λ places. Finds state.now repo.now places.1.now) }
{
    let from = name_of(alloc, mirror)?;
    let to = name_of(alloc, repo)?;
    let source = mirror_there(alloc, state, &from)?;
    let destination = there(alloc, state, &to)?;
    Ok((source, destination))
}

/// The mirror and the repository of an import: the architectures that are written can be listed before a name is looked at.
pub(crate) fn import_early<'a>(
    alloc: Global,
    state: &'a State,
    follow: &Follow,
    mirror: &Text,
    repo: &Text,
) -> Result<(&'a Mirror, &'a Repo), ChangeFault>
    ensures follow { OnOk result (bad_follow (plain_follow follow.now) ≡ None) }
    ensures good { Valid state.now → OnOk result (bad_import state.now (plain_follow follow.now) mirror.now repo.now ≡ None) }
    ensures fault { Valid state.now → IfErr result (IsFirst (bad_import state.now (plain_follow follow.now) mirror.now repo.now)) }
    ensures mirror { Valid state.now → IfOk result (λ places. mirror_of mirror.now state.now.mirrors ≡ Some places.0.now) }
    ensures repo { Valid state.now → IfOk result (λ places. Finds state.now repo.now places.1.now) }
{
    check_follow(alloc, follow)?;
    named_places(alloc, state, mirror, repo)
}
