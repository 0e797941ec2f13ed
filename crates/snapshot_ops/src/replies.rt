//! What is said of snapshots that are made, renamed and dropped.
ghost use Rattle.std.specs.Prelude.{◌≡◌, IfOk};
ghost use Rattle.snapshot_ops.specs.Replies.{snapshot_created as created_line, snapshot_dropped as dropped_line, snapshot_renamed as renamed_line};

use ap_text::Name;
use control_stanza::Text;
use reply_text::whole_line;
use std::alloc::{AllocError, Global};

/// `Snapshot <name> created: <n> packages.` Fails only for want of memory.
#[tactic(auto, unfolding(crate::specs::Replies::snapshot_created), using(std::proofs::Common::append_assoc))]
pub(crate) fn snapshot_created(
    alloc: Global,
    name: &Name,
    packages: u64,
) -> Result<Text, AllocError>
    ensures { IfOk result (λ text. text ≡ created_line name.now packages) }
{
    let text = format!(in alloc;
        "Snapshot {} created: {} packages.",
        name.as_str(),
        packages
    )?;
    whole_line(alloc, text.as_str())
}

/// `Snapshot <before> renamed to <after>.` Fails only for want of memory.
#[tactic(auto, unfolding(crate::specs::Replies::snapshot_renamed), using(std::proofs::Common::append_assoc))]
pub(crate) fn snapshot_renamed(
    alloc: Global,
    before: &Name,
    after: &Name,
) -> Result<Text, AllocError>
    ensures { IfOk result (λ text. text ≡ renamed_line before.now after.now) }
{
    let text = format!(in alloc;
        "Snapshot {} renamed to {}.",
        before.as_str(),
        after.as_str()
    )?;
    whole_line(alloc, text.as_str())
}

/// `Snapshot <name> dropped.` Fails only for want of memory.
#[tactic(auto, unfolding(crate::specs::Replies::snapshot_dropped))]
pub(crate) fn snapshot_dropped(alloc: Global, name: &Name) -> Result<Text, AllocError>
    ensures { IfOk result (λ text. text ≡ dropped_line name.now) }
{
    let text = format!(in alloc; "Snapshot {} dropped.", name.as_str())?;
    whole_line(alloc, text.as_str())
}
