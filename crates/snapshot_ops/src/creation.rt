//! New snapshots.
ghost use Rattle.std.specs.Prelude.{◌≡◌, List, ℕ, IfOk, IfErr, None};
ghost use Rattle.command_value.specs.declared.command.Origin.{Origin as OriginOf};
ghost use Rattle.command_value.specs.Plain.{plain, of_snapshot, snapshot_create};
ghost use Rattle.machine_state.specs.State.{Valid};
ghost use Rattle.step_model.specs.Answers.{came, FaultIs};
ghost use Rattle.step_model.specs.Case.{refuses};
ghost use Rattle.snapshot_ops.specs.Answers.{IsDone, IsOther, IsRefused};
ghost use Rattle.snapshot_ops.specs.Cases.{copy_case, created as created_in, empty_case, fetched_case, snapshot_case, taken};

use crate::early::{copy_early, empty_early, fetched_early};
use crate::replies::snapshot_created;
use ap_text::Name;
use command_value::{Command, Origin};
use control_stanza::Text;
use machine_state::{Change, ChangeFault, Refusal, State};
use package_list::PackageList;
use query_eval::Patterns;
use snapshot_pull::made;
use std::alloc::Global;

/// Makes a snapshot of this name and this list, where there is room for one more.
pub(crate) fn created(
    alloc: Global,
    state: &State,
    name: Name,
    list: PackageList,
) -> Result<Change, ChangeFault>
    ensures comes { Valid state.now → IfOk result (λ change. created_in state.now name list ≡ came state.now change) }
    ensures fault { IfErr result (FaultIs (λ refusal. created_in state.now name list ≡ refuses refusal)) }
    ensures new { taken state.now.snapshots name ≡ None → IsOther state.now result }
{
    let reply = snapshot_created(alloc, &name, list.len() as u64)?;
    made(alloc, state, name, list, reply)
}

/// Makes an empty snapshot.
fn create_empty(alloc: Global, state: &State, name: &Text) -> Result<Change, ChangeFault>
    ensures ok { IsDone state.now (empty_case state.now name.now) result }
    ensures fault { IsRefused state.now (empty_case state.now name.now) result }
    ensures new { IsOther state.now result }
{
    let name = empty_early(alloc, state, name)?;
    created(alloc, state, name, PackageList::new(alloc))
}

/// Makes a snapshot of what a repository has now. Its packages are shared.
fn create_copy(
    alloc: Global,
    state: &State,
    name: &Text,
    repo: &Text,
) -> Result<Change, ChangeFault>
    ensures ok { IsDone state.now (copy_case state.now name.now repo.now) result }
    ensures fault { IsRefused state.now (copy_case state.now name.now repo.now) result }
    ensures new { IsOther state.now result }
{
    let (name, repo) = copy_early(alloc, state, name, repo)?;
    let list = repo.list.copy(alloc)?;
    created(alloc, state, name, list)
}

/// Makes a snapshot of what a mirror fetched last. Its packages are shared.
fn create_fetched(
    alloc: Global,
    state: &State,
    name: &Text,
    mirror: &Text,
) -> Result<Change, ChangeFault>
    ensures ok { IsDone state.now (fetched_case state.now name.now mirror.now) result }
    ensures fault { IsRefused state.now (fetched_case state.now name.now mirror.now) result }
    ensures new { IsOther state.now result }
{
    let (name, fetched) = fetched_early(alloc, state, name, mirror)?;
    let list = fetched.list.copy(alloc)?;
    created(alloc, state, name, list)
}

/// Makes a snapshot of this origin.
fn create_from(
    alloc: Global,
    state: &State,
    name: &Text,
    origin: &Origin,
) -> Result<Change, ChangeFault>
    ensures ok { IsDone state.now (snapshot_case state.now (snapshot_create name.now origin.now)) result }
    ensures fault { IsRefused state.now (snapshot_case state.now (snapshot_create name.now origin.now)) result }
    ensures new { IsOther state.now result }
{
    match origin {
        Origin::Empty => create_empty(alloc, state, name),
        Origin::Repo(repo) => create_copy(alloc, state, name, repo),
        Origin::Mirror(mirror) => create_fetched(alloc, state, name, mirror),
    }
}

/// `snapshot create`: a new snapshot that is empty, or has what a repository has now, or what a mirror fetched last. It needs a command of
/// that verb.
pub fn create<M: Patterns>(
    alloc: Global,
    state: &State,
    command: &Command,
    _patterns: &mut M,
) -> Result<Change, ChangeFault>
    ensures ok { (name : List ℕ) (origin : OriginOf) → plain command.now ≡ of_snapshot (snapshot_create name origin) → IsDone state.now (snapshot_case state.now (snapshot_create name origin)) result }
    ensures fault { (name : List ℕ) (origin : OriginOf) → plain command.now ≡ of_snapshot (snapshot_create name origin) → IsRefused state.now (snapshot_case state.now (snapshot_create name origin)) result }
    // A state that is told is another one.
    ensures new { IsOther state.now result }
    ensures untouched { _patterns.new ≡ _patterns.old }
{
    match command {
        Command::SnapshotCreate { name, origin } => create_from(alloc, state, name, origin),
        _ => Err(ChangeFault::Refused(Refusal::NotBuilt)),
    }
}
