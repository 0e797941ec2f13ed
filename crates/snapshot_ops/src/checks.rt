//! Whether snapshots are there, and whether one is in use.
ghost use Rattle.std.specs.Prelude.{◌≡◌, IfOk, IfErr, OnOk, None, Some};
ghost use Rattle.machine_state.specs.Sources.{in_use as use_of};
ghost use Rattle.machine_state.specs.State.{Valid, repo_of};
ghost use Rattle.machine_state.specs.declared.limit.Kind.TheVariants as kinds;
ghost use Rattle.step_model.specs.Answers.{IsFirst};
ghost use Rattle.snapshot_ops.specs.Cases.{bad_among, unknown_among, unknown_repo};

use ap_text::Name;
use control_stanza::Text;
use machine_state::{ChangeFault, Kind, Refusal, Repo, State, in_use};
use snapshot_pull::there;
use std::alloc::Global;
use step_model::name_of;

/// The texts as names. The first that is none is refused as a bad name.
pub(crate) fn names_of(alloc: Global, texts: &[Text]) -> Result<Vec<Name>, ChangeFault>
    ensures good { OnOk result (bad_among texts.now ≡ None) }
    ensures fault { IfErr result (IsFirst (bad_among texts.now)) }
    ensures same { IfOk result (λ names. names.items ≡ texts.now) }
{
    let mut names = Vec::new(alloc);
    for i in 0..texts.len() {
        names.push(name_of(alloc, &texts[i])?)?;
    }
    Ok(names)
}

/// Each of these snapshots is there. The first that isn't is unknown.
pub(crate) fn all_there(alloc: Global, state: &State, names: &[Name]) -> Result<(), ChangeFault>
    ensures good { Valid state.now → OnOk result (unknown_among state.now.snapshots names.now ≡ None) }
    ensures fault { Valid state.now → IfErr result (IsFirst (unknown_among state.now.snapshots names.now)) }
{
    for i in 0..names.len() {
        there(alloc, state, &names[i])?;
    }
    Ok(())
}

/// The repository of this name. Where there is none it is unknown.
pub(crate) fn repo_there<'a>(
    alloc: Global,
    state: &'a State,
    name: &Name,
) -> Result<&'a Repo, ChangeFault>
    ensures good { Valid state.now → OnOk result (unknown_repo state.now.repos name.now ≡ None) }
    ensures fault { Valid state.now → IfErr result (IsFirst (unknown_repo state.now.repos name.now)) }
    ensures found { Valid state.now → IfOk result (λ repo. repo_of name.now state.now.repos ≡ Some repo.now) }
{
    match state.repo(name) {
        Some(repo) => Ok(repo),
        None => Err(ChangeFault::Refused(Refusal::Unknown(Kind::Repo, name.copy(alloc)?))),
    }
}

/// No publication uses the snapshot. One that is used is refused, with the first publication that does.
pub(crate) fn unused(alloc: Global, state: &State, name: &Name) -> Result<(), ChangeFault>
    ensures good { OnOk result (use_of kinds.Snapshot name.now state.now.publications ≡ None) }
    ensures fault { IfErr result (IsFirst (use_of kinds.Snapshot name.now state.now.publications)) }
{
    match in_use(alloc, &state.publications, Kind::Snapshot, name)? {
        None => Ok(()),
        Some(refusal) => Err(ChangeFault::Refused(refusal)),
    }
}
