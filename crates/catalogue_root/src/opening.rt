//! The opening of a store.
ghost use Rattle.std.specs.Prelude.{◌≡◌, IfOk, Err};
ghost use Rattle.ap_host.specs.Calls.{CauseOf, HasCause};
ghost use Rattle.ap_host.specs.Changes.{GoesOn};
ghost use Rattle.machine_state.specs.State.{Valid};
ghost use Rattle.catalogue_root.specs.declared.damage.Damage.{Damage};
ghost use Rattle.catalogue_root.specs.declared.damage.LoadFault.TheVariants.{Damaged, HostFault};
ghost use Rattle.catalogue_root.specs.Loads.{DiffersIn};
ghost use Rattle.catalogue_root.specs.Opens.{Enters, OpensTo, SettlesTo};

use crate::damage::LoadFault;
use crate::loading::load;
use ap_host::{Host, HostErr};
use machine_state::State;
use stage_file::Stage;
use std::alloc::Global;

/// Removes the staged files that an earlier run left.
fn settle<H: Host>(host: &mut H, stage: &mut Stage) -> Result<(), HostErr>
    ensures log { GoesOn (H.log host.old) (H.log host.new) (SettlesTo result) }
    ensures cause { HasCause (H.faults host.old) (H.faults host.new) result }
{
    stage.clear(host)?;
    stage.barrier(host)
}

/// Claims the store, and makes what it holds durable; answers false where another run has it. Fails only where a call of the
/// host failed, or for want of memory.
pub fn enter<H: Host>(host: &mut H) -> Result<bool, HostErr>
    ensures log { GoesOn (H.log host.old) (H.log host.new) (λ l. Enters result) }
    ensures cause { HasCause (H.faults host.old) (H.faults host.new) result }
{
    if !host.claim()? {
        return Ok(false);
    }
    host.barrier()?;
    Ok(true)
}

/// Settles a store that was loaded.
fn settled<H: Host>(host: &mut H, stage: &mut Stage, state: State) -> Result<State, LoadFault>
    ensures state { IfOk result (λ loaded. loaded ≡ state) }
    ensures fault { (damage : Damage) → result ≡ Err (Damaged damage) → ⊥ }
    ensures log { GoesOn (H.log host.old) (H.log host.new) (SettlesTo result) }
    ensures cause { CauseOf HostFault (H.faults host.old) (H.faults host.new) result }
{
    settle(host, stage)?;
    Ok(state)
}

/// Loads a store that was claimed, and removes the staged files that an earlier run left. A damaged one is left as it was.
pub fn open_store<H: Host>(
    alloc: Global,
    host: &mut H,
    stage: &mut Stage,
) -> Result<State, LoadFault>
    ensures valid { IfOk result Valid }
    ensures differs { DiffersIn result }
    ensures log { GoesOn (H.log host.old) (H.log host.new) (OpensTo result) }
    ensures cause { CauseOf HostFault (H.faults host.old) (H.faults host.new) result }
{
    match load(alloc, host) {
        Ok(state) => settled(host, stage, state),
        Err(fault) => Err(fault),
    }
}
