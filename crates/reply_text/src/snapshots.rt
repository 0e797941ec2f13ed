//! The replies of commands that show snapshots.
ghost use Rattle.std.specs.Prelude.{◌≡◌, ◌++◌, IfOk, OnOk, string_bytes};
ghost use Rattle.std.specs.List.{flat_map};
ghost use Rattle.reply_text.specs.Snapshots.{snapshot_line, snapshot_list as listed, snapshot_show as shown};

use crate::put::{put_asked, put_count, put_line, put_listed};
use control_stanza::Text;
use machine_state::{Snapshot, State};
use std::alloc::{AllocError, Global};

#[tactic(auto, unfolding(crate::specs::Snapshots::snapshot_line))]
fn put_each(out: &mut String, snapshots: &[Snapshot]) -> Result<(), AllocError>
    ensures { OnOk result (string_bytes out.new ≡ string_bytes out.old ++ flat_map snapshot_line snapshots.now) }
{
    for snapshot in snapshots {
        put_listed(out, &snapshot.name, snapshot.list.len())?;
    }
    Ok(())
}

/// The reply of `snapshot list`: `Snapshots: <n>`, and then ` * <name> [<packages>]` for each snapshot in the order of their names.
/// Fails only for want of memory.
#[tactic(auto, unfolding(crate::specs::Snapshots::snapshot_list, crate::specs::Words::line), using(std::proofs::Common::append_assoc))]
pub fn snapshot_list(alloc: Global, state: &State) -> Result<Text, AllocError>
    ensures { IfOk result (λ text. text ≡ listed state.now.snapshots) }
{
    let mut out = format!(in alloc; "Snapshots: {}\n", state.snapshots.len())?;
    put_each(&mut out, &state.snapshots)?;
    Text::new(alloc, out.as_str())
}

/// The reply of `snapshot show`: the lines `Name: <name>` and `Packages: <n>`, and then, where the packages are asked for, a blank
/// and `name_version_arch` for each in the order of the list. Fails only for want of memory.
#[tactic(auto, unfolding(crate::specs::Snapshots::snapshot_show), using(std::proofs::Common::append_assoc))]
pub fn snapshot_show(
    alloc: Global,
    snapshot: &Snapshot,
    with_packages: bool,
) -> Result<Text, AllocError>
    ensures { IfOk result (λ text. text ≡ shown snapshot.now with_packages) }
{
    let mut out = String::new(alloc);
    put_line(&mut out, "Name: ", snapshot.name.as_str())?;
    put_count(&mut out, snapshot.list.len())?;
    put_asked(alloc, &mut out, &snapshot.list, with_packages)?;
    Text::new(alloc, out.as_str())
}
