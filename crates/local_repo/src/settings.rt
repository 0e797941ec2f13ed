//! The settings of a repository.
ghost use Rattle.std.specs.Prelude.{◌≡◌, ◌↔◌, IfOk, IfErr, OnOk, IsTrue, None, unwrap_or};
ghost use Rattle.step_model.specs.Answers.{IsFirst, IsMemory};
ghost use Rattle.local_repo.specs.Settings.{bad_comment, bad_component, bad_distribution, bad_settings, bad_word, distribution_or as distribution_from, distribution_said, edited as edited_from, if_written, SameSettings};

use ap_text::{Name, is_component, is_name};
use control_stanza::Text;
use machine_state::{ChangeFault, Refusal, Repo, is_line_text};
use std::alloc::{AllocError, Global};
use step_model::name_of;

fn check_word(alloc: Global, good: bool, text: &Text) -> Result<(), ChangeFault>
    ensures good { OnOk result (bad_word good text.now ≡ None) }
    ensures fault { IfErr result (IsFirst (bad_word good text.now)) }
{
    if good {
        return Ok(());
    }
    Err(ChangeFault::Refused(Refusal::BadName(text.copy(alloc)?)))
}

fn check_comment(alloc: Global, said: &Option<Text>) -> Result<(), ChangeFault>
    ensures good { OnOk result (if_written bad_comment said.now ≡ None) }
    ensures fault { IfErr result (IsFirst (if_written bad_comment said.now)) }
{
    match said {
        None => Ok(()),
        Some(text) => check_word(alloc, is_line_text(text.as_str()), text),
    }
}

fn is_distribution(text: &str) -> bool
    ensures { bad_word result text.now ≡ bad_distribution text.now }
{
    text.is_empty() || is_name(text)
}

fn check_distribution(alloc: Global, said: &Option<Text>) -> Result<(), ChangeFault>
    ensures good { OnOk result (if_written bad_distribution said.now ≡ None) }
    ensures fault { IfErr result (IsFirst (if_written bad_distribution said.now)) }
{
    match said {
        None => Ok(()),
        Some(text) => check_word(alloc, is_distribution(text.as_str()), text),
    }
}

fn check_component(alloc: Global, said: &Option<Text>) -> Result<(), ChangeFault>
    ensures good { OnOk result (if_written bad_component said.now ≡ None) }
    ensures fault { IfErr result (IsFirst (if_written bad_component said.now)) }
{
    match said {
        None => Ok(()),
        Some(text) => check_word(alloc, is_component(text.as_str()), text),
    }
}

/// Whether the settings that are written can be a repository's: the comment a line of text, the distribution a name or empty, the
/// component a name other than `Release`. The first that can't is refused as a bad name.
pub(crate) fn check_settings(
    alloc: Global,
    comment: &Option<Text>,
    distribution: &Option<Text>,
    component: &Option<Text>,
) -> Result<(), ChangeFault>
    ensures good { OnOk result (bad_settings comment.now distribution.now component.now ≡ None) }
    ensures fault { IfErr result (IsFirst (bad_settings comment.now distribution.now component.now)) }
{
    check_comment(alloc, comment)?;
    check_distribution(alloc, distribution)?;
    check_component(alloc, component)
}

fn comment_or(alloc: Global, said: &Option<Text>, before: &Text) -> Result<Text, AllocError>
    ensures { IfOk result (λ made. made ≡ unwrap_or said.now before.now) }
{
    match said {
        None => before.copy(alloc),
        Some(text) => text.copy(alloc),
    }
}

fn distribution_of(alloc: Global, text: &Text) -> Result<Option<Name>, ChangeFault>
    ensures same { IfOk result (λ made. made ≡ distribution_said text.now) }
    ensures fits { bad_distribution text.now ≡ None → IfErr result IsMemory }
{
    if text.as_str().is_empty() {
        return Ok(None);
    }
    Ok(Some(name_of(alloc, text)?))
}

fn distribution_or(
    alloc: Global,
    said: &Option<Text>,
    before: &Option<Name>,
) -> Result<Option<Name>, ChangeFault>
    ensures same { IfOk result (λ made. made ≡ distribution_from before.now said.now) }
    ensures fits { if_written bad_distribution said.now ≡ None → IfErr result IsMemory }
{
    match (said, before) {
        (Some(text), _) => distribution_of(alloc, text),
        (None, Some(name)) => Ok(Some(name.copy(alloc)?)),
        (None, None) => Ok(None),
    }
}

fn component_or(alloc: Global, said: &Option<Text>, before: &Name) -> Result<Name, ChangeFault>
    ensures same { IfOk result (λ made. made ≡ unwrap_or said.now before.now) }
    ensures fits { if_written bad_component said.now ≡ None → IfErr result IsMemory }
{
    match said {
        None => Ok(before.copy(alloc)?),
        Some(text) => name_of(alloc, text),
    }
}

/// The repository with the settings that are written; the others are as they were.
pub(crate) fn edited(
    alloc: Global,
    repo: &Repo,
    comment: &Option<Text>,
    distribution: &Option<Text>,
    component: &Option<Text>,
) -> Result<Repo, ChangeFault>
    ensures same { IfOk result (λ made. made ≡ edited_from comment.now distribution.now component.now repo.now) }
    ensures fits { bad_settings comment.now distribution.now component.now ≡ None → IfErr result IsMemory }
{
    let distribution = distribution_or(alloc, distribution, &repo.distribution)?;
    let component = component_or(alloc, component, &repo.component)?;
    Ok(Repo {
        name: repo.name.copy(alloc)?,
        comment: comment_or(alloc, comment, &repo.comment)?,
        distribution,
        component,
        list: repo.list.copy(alloc)?,
    })
}

fn is_same_name(one: &Option<Name>, other: &Option<Name>) -> bool
    ensures { IsTrue result ↔ (one.now ≡ other.now) }
{
    match (one, other) {
        (None, None) => true,
        (Some(one), Some(other)) => one.is(other),
        _ => false,
    }
}

/// Whether two repositories have the same settings.
pub(crate) fn is_same(one: &Repo, other: &Repo) -> bool
    ensures { IsTrue result ↔ SameSettings one.now other.now }
{
    one.comment.is(&other.comment)
        && is_same_name(&one.distribution, &other.distribution)
        && one.component.is(&other.component)
}
