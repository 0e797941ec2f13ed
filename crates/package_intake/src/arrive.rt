//! A folder arrives.
ghost use Rattle.std.specs.Prelude.{◌≡◌, ◌≤◌, length, IfOk, IfErr};
ghost use Rattle.std.specs.Option.{ForSome, option_copied};
ghost use Rattle.ap_host.specs.Calls.{CauseOf};
ghost use Rattle.ap_host.specs.Changes.{GoesOn};
ghost use Rattle.index_text.specs.Index.{ArePackages};
ghost use Rattle.machine_state.specs.declared.arrived.UpdateFault.TheVariants.{HostFault, InboxFault};
ghost use Rattle.machine_state.specs.State.{IsCatalogue, Valid};
ghost use Rattle.package_intake.specs.Index.{AreShort, cards_of, path_of};
ghost use Rattle.package_intake.specs.Steps.{Gives};
ghost use Rattle.package_intake.specs.Faults.{FaultOfFiles, IsAnyFault};
ghost use Rattle.package_intake.specs.Additions.{AddsAll};
ghost use Rattle.package_intake.specs.Arrival.{entries_arrive, list_in};
ghost use Rattle.package_intake.specs.Answers.{Adds, Comes, FaultOfFolder, IfList};
ghost use Rattle.package_intake.specs.Fits.{FitsIn, Fitting};

use crate::fit::check;
use crate::folder::read_folder;
use crate::join::{join as join_packages, split};
use crate::taking::take_all;
use ap_host::{Host, Inbox};
use ap_text::{Name, SafePath};
use control_stanza::Text;
use machine_state::{Arrived, Repo, State, UpdateFault};
use package_core::Package;
use package_list::PackageList;
use stage_file::Stage;
use std::alloc::Global;

/// Takes in the packages of an index: they are joined, their files are taken in, and it is looked whether they can be added.
fn take_entries<H: Host, I: Inbox>(
    alloc: Global,
    host: &mut H,
    stage: &mut Stage,
    inbox: &mut I,
    known: &PackageList,
    repo: Option<&Repo>,
    folder: &SafePath,
    entries: Vec<(Package, SafePath)>,
) -> Result<PackageList, UpdateFault>
    ensures told { IsCatalogue known.now → length folder.now ≤ 200 → AreShort entries.items → ForSome (I.map inbox.old) (λ f. Gives result (entries_arrive f known.now (list_in (option_copied repo.entry)) folder.now entries.items)) }
    ensures fits { IfOk result (λ list. IsCatalogue known.now → ArePackages entries.items → Fitting known.now (list_in (option_copied repo.entry)) list) }
    ensures fault { IfErr result IsAnyFault }
    ensures mismatch { IfErr result (FaultOfFiles folder.now (path_of entries.items) (cards_of entries.items)) }
    ensures log { GoesOn (H.log host.old) (H.log host.new) (AddsAll (I.map inbox.old) (cards_of entries.items) known.now result stage.old stage.new) }
    ensures map { I.map inbox.new ≡ I.map inbox.old }
    ensures cause { CauseOf HostFault (H.faults host.old) (H.faults host.new) result }
    ensures input { CauseOf InboxFault (I.faults inbox.old) (I.faults inbox.new) result }
{
    let (packages, paths) = split(alloc, entries)?;
    let joined = join_packages(alloc, &packages)?;
    let list = take_all(alloc, host, stage, inbox, known, folder, &joined, &paths)?;
    check(alloc, known, repo, &list)?;
    Ok(list)
}

/// Takes in a folder of the inbox for a repository: the packages of its index `Packages`, each with the four facts of its file, whose
/// body then stands in the pool. The state isn't changed, and no barrier is made.
///
/// The steps are made in this order, and the first that fails decides:
///
/// 1. The index is there, else `InputAbsent`, and has at most 134,217,728 bytes, else `Limit(Index)`.
/// 2. It is made of stanzas, else `InputMalformed` at the first line that isn't so (Debian Policy 5.1).
/// 3. Each is a binary stanza whose Pre-Depends, Depends, Recommends, Suggests and Provides can be read, else `InputMalformed` at the
///    first line of the first that isn't (Debian Policy 5.3, 7.1, 7.5).
/// 4. The packages are joined in their order, of equal ones the first stands: `Conflict` where one differs from an earlier one of its
///    name, version and architecture, and `Limit(Packages)` at the 200,001st.
/// 5. The files are taken in the order of packages, each at its path below the folder. A stated size has at most 268,435,456 bytes, else
///    `Limit(File)`. Where a known package's file has the SHA-256, what is known of the first such has to agree with what is stated,
///    and nothing is read. Else the file is there, else `InputAbsent`. What is stated of it is so, else `InputMismatch` with the first of
///    size, SHA-256, SHA-1 and MD5 that differs. Where an equal package is known, that one stands.
/// 6. Together with the repository's packages they hold no two of one name, version and architecture, else `Conflict`, and are at most
///    200,000, else `Limit(Packages)`; together with the known ones they are at most 400,000, else `Limit(Known)`, and their texts have
///    at most 1,073,741,824 bytes, else `Limit(Catalogue)`.
///
/// Pool files that were taken in before a refusal stay. Each is one that the index names by its SHA-256. `HostFault` and `InboxFault` come only where the host or the inbox failed. It
/// is meant for a valid state and a folder of at most 200 bytes. Then it gives a list or a refusal, never `Nothing`.
pub fn add<H: Host, I: Inbox>(
    alloc: Global,
    host: &mut H,
    stage: &mut Stage,
    inbox: &mut I,
    state: &State,
    repo: &Name,
    folder: &SafePath,
) -> Result<Arrived, UpdateFault>
    ensures told { Valid state.now → length folder.now ≤ 200 → Comes (I.map inbox.old) state.now repo.now folder.now result }
    ensures fits { Valid state.now → IfList result (FitsIn state.now repo.now) }
    ensures mismatch { IfErr result (FaultOfFolder (I.map inbox.old) folder.now) }
    ensures log { GoesOn (H.log host.old) (H.log host.new) (Adds (I.map inbox.old) folder.now state.now.known result stage.old stage.new) }
    ensures map { I.map inbox.new ≡ I.map inbox.old }
    ensures cause { CauseOf HostFault (H.faults host.old) (H.faults host.new) result }
    ensures input { CauseOf InboxFault (I.faults inbox.old) (I.faults inbox.new) result }
{
    let date = Text::new(alloc, "")?;
    let entries = read_folder(alloc, inbox, folder)?;
    let own = state.repo(repo);
    let list = take_entries(
        alloc,
        host,
        stage,
        inbox,
        &state.known,
        own,
        folder,
        entries,
    )?;
    Ok(Arrived::List { list, date })
}
