//! New snapshots.
ghost use Rattle.std.specs.Prelude.{◌≡◌, IfOk, IfErr, OnOk, None, Some};
ghost use Rattle.machine_state.specs.State.{Valid};
ghost use Rattle.step_model.specs.Answers.{came, FaultIs, IsMemory, IsNew};
ghost use Rattle.step_model.specs.Case.{Came, refuses};
ghost use Rattle.snapshot_pull.specs.Pulls.{too_long as too_long_in};
ghost use Rattle.snapshot_pull.specs.Snapshots.{made as made_in, taken, where_room, with_snapshot};

use ap_text::Name;
use control_stanza::Text;
use machine_state::{Change, ChangeFault, Limit, Refusal, Snapshot, State, put_named};
use package_list::PackageList;
use std::alloc::Global;

/// There is room for one snapshot more. Where there is none it is refused. It takes no memory.
pub(crate) fn room(state: &State) -> Result<(), ChangeFault>
    ensures good { (came : Came) → OnOk result (where_room state.now came ≡ came) }
    ensures fault { (came : Came) → IfErr result (FaultIs (λ refusal. where_room state.now came ≡ refuses refusal)) }
{
    if state.snapshots.len() as u64 >= Limit::Snapshots.number() {
        return Err(ChangeFault::Refused(Refusal::Limit(Limit::Snapshots)));
    }
    Ok(())
}

/// The refusal of a list that is too long: where there is no room for a snapshot more either, that limit comes first.
pub(crate) fn too_long(state: &State) -> Refusal
    ensures { result ≡ too_long_in state.now }
{
    if state.snapshots.len() as u64 >= Limit::Snapshots.number() {
        return Refusal::Limit(Limit::Snapshots);
    }
    Refusal::Limit(Limit::Packages)
}

/// Puts a snapshot at its place among the others.
fn put_snapshot(
    alloc: Global,
    state: &State,
    snapshot: Snapshot,
    reply: Text,
) -> Result<Change, ChangeFault>
    ensures same { Valid state.now → IfOk result (λ change. change ≡ record { state = Some (with_snapshot state.now snapshot); reply = reply }) }
    ensures fits { IfErr result IsMemory }
{
    let mut state = state.copy(alloc)?;
    put_named(&mut state.snapshots, snapshot)?;
    Ok(Change {
        state: Some(state),
        reply,
    })
}

/// A snapshot more, of this name and this list, of which this is said. It is refused where there is no room for one more.
pub fn made(
    alloc: Global,
    state: &State,
    name: Name,
    list: PackageList,
    reply: Text,
) -> Result<Change, ChangeFault>
    ensures comes { Valid state.now → IfOk result (λ change. made_in state.now reply name list ≡ came state.now change) }
    ensures fault { IfErr result (FaultIs (λ refusal. made_in state.now reply name list ≡ refuses refusal)) }
    // A state that is told is another one.
    ensures new { taken state.now.snapshots name ≡ None → Valid state.now → IfOk result (λ change. IsNew state.now change.state) }
{
    room(state)?;
    put_snapshot(alloc, state, Snapshot { name, list }, reply)
}
