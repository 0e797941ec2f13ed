//! Whether a repository is there.
ghost use Rattle.std.specs.Prelude.{◌≡◌, IfOk, IfErr, OnOk, None};
ghost use Rattle.machine_state.specs.State.{Valid};
ghost use Rattle.step_model.specs.Answers.{IsFirst};
ghost use Rattle.repo_packages.specs.PackageCases.{bad_repo, unknown, Finds};

use ap_text::Name;
use control_stanza::Text;
use machine_state::{ChangeFault, Kind, Refusal, Repo, State};
use std::alloc::Global;
use step_model::name_of;

/// The repository of this name. Where there is none it is unknown.
pub fn there<'a>(alloc: Global, state: &'a State, name: &Name) -> Result<&'a Repo, ChangeFault>
    ensures good { Valid state.now → OnOk result (unknown state.now.repos name.now ≡ None) }
    ensures fault { Valid state.now → IfErr result (IsFirst (unknown state.now.repos name.now)) }
    ensures found { Valid state.now → IfOk result (λ repo. Finds state.now name.now repo.now) }
{
    match state.repo(name) {
        Some(repo) => Ok(repo),
        None => Err(ChangeFault::Refused(Refusal::Unknown(Kind::Repo, name.copy(alloc)?))),
    }
}

/// The repository that a text names.
pub fn named_repo<'a>(alloc: Global, state: &'a State, text: &Text) -> Result<&'a Repo, ChangeFault>
    ensures good { Valid state.now → OnOk result (bad_repo state.now text.now ≡ None) }
    ensures fault { Valid state.now → IfErr result (IsFirst (bad_repo state.now text.now)) }
    ensures found { Valid state.now → IfOk result (λ repo. Finds state.now text.now repo.now) }
{
    let name = name_of(alloc, text)?;
    there(alloc, state, &name)
}
