//! What is said of names and settings that change.
ghost use Rattle.std.specs.Prelude.{◌≡◌, IfOk};
ghost use Rattle.local_repo.specs.Replies.{repo_dropped as dropped_line, repo_edited as edited_line, repo_renamed as renamed_line};

use ap_text::Name;
use control_stanza::Text;
use reply_text::whole_line;
use std::alloc::{AllocError, Global};

/// `Repo <name> edited.`
#[tactic(auto, unfolding(crate::specs::Replies::repo_edited))]
pub(crate) fn repo_edited(alloc: Global, name: &Name) -> Result<Text, AllocError>
    ensures { IfOk result (λ text. text ≡ edited_line name.now) }
{
    let text = format!(in alloc; "Repo {} edited.", name.as_str())?;
    whole_line(alloc, text.as_str())
}

/// `Repo <before> renamed to <after>.`
#[tactic(auto, unfolding(crate::specs::Replies::repo_renamed), using(std::proofs::Common::append_assoc))]
pub(crate) fn repo_renamed(alloc: Global, before: &Name, after: &Name) -> Result<Text, AllocError>
    ensures { IfOk result (λ text. text ≡ renamed_line before.now after.now) }
{
    let text = format!(in alloc; "Repo {} renamed to {}.", before.as_str(), after.as_str())?;
    whole_line(alloc, text.as_str())
}

/// `Repo <name> dropped.`
#[tactic(auto, unfolding(crate::specs::Replies::repo_dropped))]
pub(crate) fn repo_dropped(alloc: Global, name: &Name) -> Result<Text, AllocError>
    ensures { IfOk result (λ text. text ≡ dropped_line name.now) }
{
    let text = format!(in alloc; "Repo {} dropped.", name.as_str())?;
    whole_line(alloc, text.as_str())
}
