//! Whether a name is free, and whether a repository is in use.
ghost use Rattle.std.specs.Prelude.{◌≡◌, IfErr, OnOk, None};
ghost use Rattle.machine_state.specs.Sources.{in_use as use_of};
ghost use Rattle.machine_state.specs.State.{Valid};
ghost use Rattle.machine_state.specs.declared.limit.Kind.TheVariants as kinds;
ghost use Rattle.step_model.specs.Answers.{IsFirst};
ghost use Rattle.local_repo.specs.Cases.{taken};

use ap_text::Name;
use machine_state::{ChangeFault, Kind, Refusal, State, in_use};
use std::alloc::Global;

/// No repository has the name yet. One that is taken is refused.
pub(crate) fn free(alloc: Global, state: &State, name: &Name) -> Result<(), ChangeFault>
    ensures good { Valid state.now → OnOk result (taken state.now.repos name.now ≡ None) }
    ensures fault { Valid state.now → IfErr result (IsFirst (taken state.now.repos name.now)) }
{
    match state.repo(name) {
        None => Ok(()),
        Some(_) => Err(ChangeFault::Refused(Refusal::Exists(Kind::Repo, name.copy(alloc)?))),
    }
}

/// No publication uses the repository. One that is used is refused, with the first publication that does.
pub(crate) fn unused(alloc: Global, state: &State, name: &Name) -> Result<(), ChangeFault>
    ensures good { OnOk result (use_of kinds.Repo name.now state.now.publications ≡ None) }
    ensures fault { IfErr result (IsFirst (use_of kinds.Repo name.now state.now.publications)) }
{
    match in_use(alloc, &state.publications, Kind::Repo, name)? {
        None => Ok(()),
        Some(refusal) => Err(ChangeFault::Refused(refusal)),
    }
}
