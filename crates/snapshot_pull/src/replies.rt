//! What is said of a pull.
ghost use Rattle.std.specs.Prelude.{◌≡◌, IfOk};
ghost use Rattle.snapshot_pull.specs.Replies.{snapshot_pulled as pulled_line};

use ap_text::Name;
use control_stanza::Text;
use reply_text::whole_line;
use std::alloc::{AllocError, Global};

/// `Snapshot <name> created: <n> packages, <a> added, <r> removed.` Fails only for want of memory.
#[tactic(auto, unfolding(crate::specs::Replies::snapshot_pulled), using(std::proofs::Common::append_assoc))]
pub(crate) fn snapshot_pulled(
    alloc: Global,
    name: &Name,
    packages: u64,
    added: u64,
    removed: u64,
) -> Result<Text, AllocError>
    ensures { IfOk result (λ text. text ≡ pulled_line name.now packages added removed) }
{
    let text = format!(in alloc;
        "Snapshot {} created: {} packages, {} added, {} removed.",
        name.as_str(),
        packages,
        added,
        removed
    )?;
    whole_line(alloc, text.as_str())
}
