//! What is said of packages that leave repositories.
ghost use Rattle.std.specs.Prelude.{◌≡◌, ◌++◌, IfOk};
ghost use Rattle.repo_packages.specs.PackageReplies.{repo_removed as removed_from};

use ap_text::Name;
use control_stanza::Text;
use reply_text::whole_line;
use std::alloc::{AllocError, Global};

/// The line of packages that left a repository: `Repo <name>: <k> removed, <n> packages.` Fails only for want of memory.
#[tactic(auto, unfolding(crate::specs::PackageReplies::repo_removed), using(std::proofs::Common::append_assoc))]
pub(crate) fn repo_removed(
    alloc: Global,
    name: &Name,
    removed: u64,
    packages: u64,
) -> Result<Text, AllocError>
    ensures { IfOk result (λ text. text ≡ removed_from name.now removed packages) }
{
    let text = format!(in alloc;
        "Repo {}: {} removed, {} packages.",
        name.as_str(),
        removed,
        packages
    )?;
    whole_line(alloc, text.as_str())
}

/// The two texts, one behind the other. Fails only for want of memory.
pub(crate) fn both(alloc: Global, first: &Text, second: &Text) -> Result<Text, AllocError>
    ensures { IfOk result (λ text. text ≡ first.now ++ second.now) }
{
    let mut out = String::new(alloc);
    out.push_str(first.as_str())?;
    out.push_str(second.as_str())?;
    Text::new(alloc, out.as_str())
}
