//! Whether snapshots are there.
ghost use Rattle.std.specs.Prelude.{◌≡◌, IfOk, IfErr, OnOk, None, Some};
ghost use Rattle.machine_state.specs.State.{Valid, snapshot_of};
ghost use Rattle.step_model.specs.Answers.{IsFirst};
ghost use Rattle.snapshot_pull.specs.Snapshots.{taken, unknown};

use ap_text::Name;
use machine_state::{ChangeFault, Kind, Refusal, Snapshot, State};
use std::alloc::Global;

/// No snapshot has the name yet. One that is taken is refused: it exists.
pub fn free(alloc: Global, state: &State, name: &Name) -> Result<(), ChangeFault>
    ensures good { Valid state.now → OnOk result (taken state.now.snapshots name.now ≡ None) }
    ensures fault { Valid state.now → IfErr result (IsFirst (taken state.now.snapshots name.now)) }
{
    match state.snapshot(name) {
        None => Ok(()),
        Some(_) => Err(ChangeFault::Refused(Refusal::Exists(Kind::Snapshot, name.copy(alloc)?))),
    }
}

/// The snapshot of this name. Where there is none it is refused as unknown.
pub fn there<'a>(alloc: Global, state: &'a State, name: &Name) -> Result<&'a Snapshot, ChangeFault>
    ensures good { Valid state.now → OnOk result (unknown state.now.snapshots name.now ≡ None) }
    ensures fault { Valid state.now → IfErr result (IsFirst (unknown state.now.snapshots name.now)) }
    ensures found { Valid state.now → IfOk result (λ snapshot. snapshot_of name.now state.now.snapshots ≡ Some snapshot.now) }
{
    match state.snapshot(name) {
        Some(snapshot) => Ok(snapshot),
        None => Err(ChangeFault::Refused(Refusal::Unknown(Kind::Snapshot, name.copy(alloc)?))),
    }
}
