//! What each command of repositories is refused for before anything is read.
ghost use Rattle.std.specs.Prelude.{◌≡◌, IfOk, IfErr, OnOk, None, Some};
ghost use Rattle.command_value.specs.Plain.{repo_create, repo_edit, repo_rename, repo_drop};
ghost use Rattle.machine_state.specs.State.{Valid, repo_of};
ghost use Rattle.step_model.specs.Answers.{IsFirst};
ghost use Rattle.local_repo.specs.Cases.{repo_case};
ghost use Rattle.local_repo.specs.Settings.{bad_settings};

use crate::checks::{free, unused};
use crate::settings::check_settings;
use ap_text::Name;
use control_stanza::Text;
use machine_state::{ChangeFault, Repo, State};
use repo_packages::there;
use std::alloc::Global;
use step_model::name_of;

/// The name of a new repository.
#[tactic(auto, unfolding(crate::specs::Cases::repo_case))]
pub(crate) fn create_early(
    alloc: Global,
    state: &State,
    comment: &Option<Text>,
    distribution: &Option<Text>,
    component: &Option<Text>,
    text: &Text,
) -> Result<Name, ChangeFault>
    ensures good { Valid state.now → OnOk result ((repo_case state.now (repo_create comment.now distribution.now component.now text.now)).early ≡ None) }
    ensures fault { Valid state.now → IfErr result (IsFirst (repo_case state.now (repo_create comment.now distribution.now component.now text.now)).early) }
    ensures settings { OnOk result (bad_settings comment.now distribution.now component.now ≡ None) }
    ensures name { IfOk result (λ name. name ≡ text.now) }
{
    check_settings(alloc, comment, distribution, component)?;
    let name = name_of(alloc, text)?;
    free(alloc, state, &name)?;
    Ok(name)
}

/// The repository that is to have other settings.
#[tactic(auto, unfolding(crate::specs::Cases::repo_case))]
pub(crate) fn edit_early<'a>(
    alloc: Global,
    state: &'a State,
    comment: &Option<Text>,
    distribution: &Option<Text>,
    component: &Option<Text>,
    text: &Text,
) -> Result<&'a Repo, ChangeFault>
    ensures good { Valid state.now → OnOk result ((repo_case state.now (repo_edit comment.now distribution.now component.now text.now)).early ≡ None) }
    ensures fault { Valid state.now → IfErr result (IsFirst (repo_case state.now (repo_edit comment.now distribution.now component.now text.now)).early) }
    ensures settings { OnOk result (bad_settings comment.now distribution.now component.now ≡ None) }
    ensures found { Valid state.now → IfOk result (λ repo. repo_of text.now state.now.repos ≡ Some repo.now) }
{
    check_settings(alloc, comment, distribution, component)?;
    let name = name_of(alloc, text)?;
    there(alloc, state, &name)
}

/// The name that a repository has, and the name that it is to have.
#[tactic(auto, unfolding(crate::specs::Cases::repo_case))]
pub(crate) fn rename_early(
    alloc: Global,
    state: &State,
    from: &Text,
    to: &Text,
) -> Result<(Name, Name), ChangeFault>
    ensures good { Valid state.now → OnOk result ((repo_case state.now (repo_rename from.now to.now)).early ≡ None) }
    ensures fault { Valid state.now → IfErr result (IsFirst (repo_case state.now (repo_rename from.now to.now)).early) }
    ensures before { IfOk result (λ names. names.0 ≡ from.now) }
    ensures after { IfOk result (λ names. names.1 ≡ to.now) }
{
    let before = name_of(alloc, from)?;
    let after = name_of(alloc, to)?;
    free(alloc, state, &after)?;
    there(alloc, state, &before)?;
    Ok((before, after))
}

/// The name of the repository that is to be dropped.
#[tactic(auto, unfolding(crate::specs::Cases::repo_case))]
pub(crate) fn drop_early(alloc: Global, state: &State, text: &Text) -> Result<Name, ChangeFault>
    ensures good { Valid state.now → OnOk result ((repo_case state.now (repo_drop text.now)).early ≡ None) }
    ensures fault { Valid state.now → IfErr result (IsFirst (repo_case state.now (repo_drop text.now)).early) }
    ensures name { IfOk result (λ name. name ≡ text.now) }
{
    let name = name_of(alloc, text)?;
    there(alloc, state, &name)?;
    unused(alloc, state, &name)?;
    Ok(name)
}
