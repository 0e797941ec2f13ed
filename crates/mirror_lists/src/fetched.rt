//! Whether a mirror is there, and whether it was ever updated.
ghost use Rattle.std.specs.Prelude.{◌≡◌, IfOk, IfErr, OnOk, None, Some};
ghost use Rattle.machine_state.specs.State.{Valid, mirror_of};
ghost use Rattle.step_model.specs.Answers.{IsFirst};
ghost use Rattle.step_model.specs.Case.{or_else};
ghost use Rattle.mirror_lists.specs.Mirrors.{fetched_of, never_in, never_updated, unknown_mirror};

use ap_text::Name;
use machine_state::{ChangeFault, Fetched, Kind, Mirror, Refusal, State};
use std::alloc::Global;

/// The mirror of this name. Where there is none it is unknown.
pub fn mirror_there<'a>(
    alloc: Global,
    state: &'a State,
    name: &Name,
) -> Result<&'a Mirror, ChangeFault>
    ensures good { Valid state.now → OnOk result (unknown_mirror state.now.mirrors name.now ≡ None) }
    ensures fault { Valid state.now → IfErr result (IsFirst (unknown_mirror state.now.mirrors name.now)) }
    ensures found { Valid state.now → IfOk result (λ mirror. mirror_of name.now state.now.mirrors ≡ Some mirror.now) }
{
    match state.mirror(name) {
        Some(mirror) => Ok(mirror),
        None => Err(ChangeFault::Refused(Refusal::Unknown(Kind::Mirror, name.copy(alloc)?))),
    }
}

/// What a mirror fetched last. One that was never updated is refused so, by its name.
pub fn updated_of(alloc: Global, mirror: &Mirror) -> Result<&Fetched, ChangeFault>
    ensures good { OnOk result (never_in mirror.now.updated mirror.now.name ≡ None) }
    ensures fault { IfErr result (IsFirst (never_in mirror.now.updated mirror.now.name)) }
    ensures found { IfOk result (λ fetched. mirror.now.updated ≡ Some fetched.now) }
{
    match &mirror.updated {
        Some(fetched) => Ok(fetched),
        None => Err(ChangeFault::Refused(Refusal::NotUpdated(mirror.name.copy(alloc)?))),
    }
}

/// What the mirror of this name fetched last. Where there is no such mirror it is unknown, and one that was never updated is refused so.
pub fn fetched_there<'a>(
    alloc: Global,
    state: &'a State,
    name: &Name,
) -> Result<&'a Fetched, ChangeFault>
    ensures good { Valid state.now → OnOk result (or_else (unknown_mirror state.now.mirrors name.now) (never_updated state.now name.now) ≡ None) }
    ensures fault { Valid state.now → IfErr result (IsFirst (or_else (unknown_mirror state.now.mirrors name.now) (never_updated state.now name.now))) }
    ensures found { Valid state.now → IfOk result (λ fetched. fetched_of state.now name.now ≡ Some fetched.now) }
{
    let mirror = mirror_there(alloc, state, name)?;
    updated_of(alloc, mirror)
}
