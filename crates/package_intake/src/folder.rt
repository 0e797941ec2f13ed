//! The index of a folder.
ghost use Rattle.std.specs.Prelude.{◌≡◌, ◌≤◌, length as length_of, IfOk, IfErr, MatchResult};
ghost use Rattle.std.specs.Option.{ForSome};
ghost use Rattle.ap_host.specs.Calls.{CauseOf};
ghost use Rattle.index_text.specs.Index.{ArePackages};
ghost use Rattle.machine_state.specs.declared.arrived.UpdateFault.TheVariants.{InboxFault, OutOfMemory};
ghost use Rattle.machine_state.specs.declared.refusal.Refusal.TheVariants.{InputAbsent};
ghost use Rattle.package_intake.specs.Index.{AreShort, OfIndex};
ghost use Rattle.package_intake.specs.Faults.{IsInputFault, Tells};
ghost use Rattle.package_intake.specs.Arrival.{index_path};
ghost use Rattle.package_intake.specs.Answers.{IsListed, IsUnlisted};

use crate::index::{path_below, read_entries, read_index};
use ap_host::Inbox;
use ap_text::SafePath;
use machine_state::UpdateFault;
use package_core::Package;
use std::alloc::Global;

/// The name of the index in its folder.
const INDEX: &str = "Packages";

/// The path of the index of a folder.
fn path_of_index(alloc: Global, folder: &SafePath) -> Result<SafePath, UpdateFault>
    ensures path { IfOk result (λ path. path ≡ index_path folder.now) }
    ensures short { length_of folder.now ≤ 200 → IfErr result (λ e. e ≡ OutOfMemory) }
    ensures fault { IfErr result (λ e. Tells e (InputAbsent folder.now)) }
{
    let name = SafePath::fixed(alloc, INDEX)?;
    path_below(alloc, folder, &name)
}

/// The packages of the index of a folder and the paths of their files below it.
pub(crate) fn read_folder<I: Inbox>(
    alloc: Global,
    inbox: &mut I,
    folder: &SafePath,
) -> Result<Vec<(Package, SafePath)>, UpdateFault>
    ensures told { length_of folder.now ≤ 200 → ForSome (I.map inbox.old) (λ f. MatchResult result (λ v. IsListed f folder.now v.items) (IsUnlisted f folder.now)) }
    ensures packages { IfOk result (λ v. ArePackages v.items) }
    ensures short { IfOk result (λ v. AreShort v.items) }
    ensures fault { IfErr result IsInputFault }
    ensures early { IfErr result (OfIndex (index_path folder.now)) }
    ensures map { I.map inbox.new ≡ I.map inbox.old }
    ensures cause { CauseOf InboxFault (I.faults inbox.old) (I.faults inbox.new) result }
{
    let path = path_of_index(alloc, folder)?;
    let bytes = read_index(alloc, inbox, &path)?;
    read_entries(alloc, &path, bytes.as_slice())
}
