//! Whether a name is free.
ghost use Rattle.std.specs.Prelude.{◌≡◌, IfErr, OnOk, None};
ghost use Rattle.machine_state.specs.State.{Valid};
ghost use Rattle.step_model.specs.Answers.{IsFirst};
ghost use Rattle.mirror_ops.specs.Cases.{taken};

use ap_text::Name;
use machine_state::{ChangeFault, Kind, Refusal, State};
use std::alloc::Global;

/// No mirror has the name yet. One that is taken is refused.
pub(crate) fn free(alloc: Global, state: &State, name: &Name) -> Result<(), ChangeFault>
    ensures good { Valid state.now → OnOk result (taken state.now.mirrors name.now ≡ None) }
    ensures fault { Valid state.now → IfErr result (IsFirst (taken state.now.mirrors name.now)) }
{
    match state.mirror(name) {
        None => Ok(()),
        Some(_) => Err(ChangeFault::Refused(Refusal::Exists(Kind::Mirror, name.copy(alloc)?))),
    }
}
