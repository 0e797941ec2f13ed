//! What each command of snapshots is refused for by its names.
ghost use Rattle.std.specs.Prelude.{◌≡◌, IfOk, IfErr, OnOk, None, Some};
ghost use Rattle.command_value.specs.Plain.{plain_follow};
ghost use Rattle.machine_state.specs.State.{Valid, repo_of, snapshot_of};
ghost use Rattle.mirror_lists.specs.Mirrors.{fetched_of};
ghost use Rattle.package_choice.specs.Choice.{bad_follow};
ghost use Rattle.step_model.specs.Answers.{IsFirst};
ghost use Rattle.snapshot_ops.specs.Cases.{bad_copy, bad_drop, bad_empty, bad_fetched, bad_filter, bad_merge, bad_pair, bad_rename, bad_search, bad_snapshot};

use crate::checks::{all_there, names_of, repo_there, unused};
use ap_text::Name;
use command_value::Follow;
use control_stanza::Text;
use machine_state::{ChangeFault, Fetched, Repo, Snapshot, State};
use mirror_lists::fetched_there;
use package_choice::check_follow;
use snapshot_pull::{free, there};
use std::alloc::Global;
use step_model::name_of;

/// The name of a new snapshot that is empty.
pub(crate) fn empty_early(alloc: Global, state: &State, text: &Text) -> Result<Name, ChangeFault>
    ensures good { Valid state.now → OnOk result (bad_empty state.now text.now ≡ None) }
    ensures fault { Valid state.now → IfErr result (IsFirst (bad_empty state.now text.now)) }
    ensures name { IfOk result (λ name. name ≡ text.now) }
{
    let name = name_of(alloc, text)?;
    free(alloc, state, &name)?;
    Ok(name)
}

/// The name of a new snapshot, and the repository that it is made of: both are names before one is looked for.
pub(crate) fn copy_early<'a>(
    alloc: Global,
    state: &'a State,
    text: &Text,
    repo: &Text,
) -> Result<(Name, &'a Repo), ChangeFault>
    ensures good { Valid state.now → OnOk result (bad_copy state.now text.now repo.now ≡ None) }
    ensures fault { Valid state.now → IfErr result (IsFirst (bad_copy state.now text.now repo.now)) }
    ensures name { IfOk result (λ made. made.0 ≡ text.now) }
    ensures found { Valid state.now → IfOk result (λ made. repo_of repo.now state.now.repos ≡ Some made.1.now) }
{
    let name = name_of(alloc, text)?;
    let of = name_of(alloc, repo)?;
    free(alloc, state, &name)?;
    let repo = repo_there(alloc, state, &of)?;
    Ok((name, repo))
}

/// The name of a new snapshot, and what the mirror that it is made of fetched last: both are names before one is looked for.
pub(crate) fn fetched_early<'a>(
    alloc: Global,
    state: &'a State,
    text: &Text,
    mirror: &Text,
) -> Result<(Name, &'a Fetched), ChangeFault>
    ensures good { Valid state.now → OnOk result (bad_fetched state.now text.now mirror.now ≡ None) }
    ensures fault { Valid state.now → IfErr result (IsFirst (bad_fetched state.now text.now mirror.now)) }
    ensures name { IfOk result (λ made. made.0 ≡ text.now) }
    ensures found { Valid state.now → IfOk result (λ made. fetched_of state.now mirror.now ≡ Some made.1.now) }
{
    let name = name_of(alloc, text)?;
    let of = name_of(alloc, mirror)?;
    free(alloc, state, &name)?;
    let fetched = fetched_there(alloc, state, &of)?;
    Ok((name, fetched))
}

/// The snapshot that a text names.
pub(crate) fn named_snapshot<'a>(
    alloc: Global,
    state: &'a State,
    text: &Text,
) -> Result<&'a Snapshot, ChangeFault>
    ensures good { Valid state.now → OnOk result (bad_snapshot state.now text.now ≡ None) }
    ensures fault { Valid state.now → IfErr result (IsFirst (bad_snapshot state.now text.now)) }
    ensures found { Valid state.now → IfOk result (λ snapshot. snapshot_of text.now state.now.snapshots ≡ Some snapshot.now) }
{
    let name = name_of(alloc, text)?;
    there(alloc, state, &name)
}

/// The snapshot that is searched: the architectures that are written can be listed before a name is looked at.
pub(crate) fn search_early<'a>(
    alloc: Global,
    state: &'a State,
    follow: &Follow,
    text: &Text,
) -> Result<&'a Snapshot, ChangeFault>
    ensures good { Valid state.now → OnOk result (bad_search state.now (plain_follow follow.now) text.now ≡ None) }
    ensures fault { Valid state.now → IfErr result (IsFirst (bad_search state.now (plain_follow follow.now) text.now)) }
    ensures listed { OnOk result (bad_follow (plain_follow follow.now) ≡ None) }
    ensures found { Valid state.now → IfOk result (λ snapshot. snapshot_of text.now state.now.snapshots ≡ Some snapshot.now) }
{
    check_follow(alloc, follow)?;
    named_snapshot(alloc, state, text)
}

/// The snapshot of the first name, and the second, which is free: both are names before one is looked for.
fn named_pair<'a>(
    alloc: Global,
    state: &'a State,
    source: &Text,
    destination: &Text,
) -> Result<(&'a Snapshot, Name), ChangeFault>
    ensures good { Valid state.now → OnOk result (bad_pair state.now source.now destination.now ≡ None) }
    ensures fault { Valid state.now → IfErr result (IsFirst (bad_pair state.now source.now destination.now)) }
    ensures found { Valid state.now → IfOk result (λ pair. snapshot_of source.now state.now.snapshots ≡ Some pair.0.now) }
    ensures name { IfOk result (λ pair. pair.1 ≡ destination.now) }
{
    let from = name_of(alloc, source)?;
    let to = name_of(alloc, destination)?;
    free(alloc, state, &to)?;
    let snapshot = there(alloc, state, &from)?;
    Ok((snapshot, to))
}

/// The snapshot that is filtered, and the name of the new one: the architectures that are written can be listed before a name is looked at.
pub(crate) fn filter_early<'a>(
    alloc: Global,
    state: &'a State,
    follow: &Follow,
    source: &Text,
    destination: &Text,
) -> Result<(&'a Snapshot, Name), ChangeFault>
    ensures good { Valid state.now → OnOk result (bad_filter state.now (plain_follow follow.now) source.now destination.now ≡ None) }
    ensures fault { Valid state.now → IfErr result (IsFirst (bad_filter state.now (plain_follow follow.now) source.now destination.now)) }
    ensures listed { OnOk result (bad_follow (plain_follow follow.now) ≡ None) }
    ensures found { Valid state.now → IfOk result (λ pair. snapshot_of source.now state.now.snapshots ≡ Some pair.0.now) }
    ensures name { IfOk result (λ pair. pair.1 ≡ destination.now) }
{
    check_follow(alloc, follow)?;
    named_pair(alloc, state, source, destination)
}

/// The name of a new snapshot, and those of the snapshots that it is merged of.
pub(crate) fn merge_early(
    alloc: Global,
    state: &State,
    destination: &Text,
    sources: &[Text],
) -> Result<(Name, Vec<Name>), ChangeFault>
    ensures good { Valid state.now → OnOk result (bad_merge state.now destination.now sources.now ≡ None) }
    ensures fault { Valid state.now → IfErr result (IsFirst (bad_merge state.now destination.now sources.now)) }
    ensures name { IfOk result (λ names. names.0 ≡ destination.now) }
    ensures sources { IfOk result (λ names. names.1.items ≡ sources.now) }
{
    let to = name_of(alloc, destination)?;
    let from = names_of(alloc, sources)?;
    free(alloc, state, &to)?;
    all_there(alloc, state, &from)?;
    Ok((to, from))
}

/// The name that a snapshot has, and the name that it is to have.
pub(crate) fn rename_early(
    alloc: Global,
    state: &State,
    from: &Text,
    to: &Text,
) -> Result<(Name, Name), ChangeFault>
    ensures good { Valid state.now → OnOk result (bad_rename state.now from.now to.now ≡ None) }
    ensures fault { Valid state.now → IfErr result (IsFirst (bad_rename state.now from.now to.now)) }
    ensures before { IfOk result (λ names. names.0 ≡ from.now) }
    ensures after { IfOk result (λ names. names.1 ≡ to.now) }
{
    let before = name_of(alloc, from)?;
    let after = name_of(alloc, to)?;
    free(alloc, state, &after)?;
    there(alloc, state, &before)?;
    Ok((before, after))
}

/// The name of the snapshot that is to be dropped.
pub(crate) fn drop_early(alloc: Global, state: &State, text: &Text) -> Result<Name, ChangeFault>
    ensures good { Valid state.now → OnOk result (bad_drop state.now text.now ≡ None) }
    ensures fault { Valid state.now → IfErr result (IsFirst (bad_drop state.now text.now)) }
    ensures name { IfOk result (λ name. name ≡ text.now) }
{
    let name = name_of(alloc, text)?;
    there(alloc, state, &name)?;
    unused(alloc, state, &name)?;
    Ok(name)
}
