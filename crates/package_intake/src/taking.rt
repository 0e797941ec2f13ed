//! The files of packages are taken in, one after the other.
ghost use Rattle.std.specs.Prelude.{◌≡◌, ◌≤◌, ℕ, List, All, length, map, IsSome, IfOk, IfErr};
ghost use Rattle.std.specs.BTreeMap.{get};
ghost use Rattle.std.specs.Option.{ForSome};
ghost use Rattle.std.specs.Rc.{rc_value};
ghost use Rattle.std.specs.declared.cmp.Ordering.TheVariants.{Equal};
ghost use Rattle.ap_text.specs.Paths.{below_folder};
ghost use Rattle.ap_host.specs.Calls.{CauseOf};
ghost use Rattle.ap_host.specs.Changes.{GoesOn};
ghost use Rattle.package_core.specs.Card.{IsPackage};
ghost use Rattle.package_core.specs.Order.{package_cmp};
ghost use Rattle.package_core.specs.Whole.{IsSaid};
ghost use Rattle.package_list.specs.Sorted.{IsAscending};
ghost use Rattle.machine_state.specs.declared.arrived.UpdateFault.TheVariants.{HostFault, InboxFault, OutOfMemory};
ghost use Rattle.machine_state.specs.State.{IsCatalogue};
ghost use Rattle.package_intake.specs.Taking.{AreTakenIn, IsTakenIn, each_taken, known_of, taken_file};
ghost use Rattle.package_intake.specs.Steps.{Gives};
ghost use Rattle.package_intake.specs.Faults.{FaultOfFile, FaultOfFiles, IsAnyFault, IsOtherFault, IsOwnFault};
ghost use Rattle.package_intake.specs.Additions.{AddsAll, AddsOne};
ghost use Rattle.hash_pool.specs.Bodies.{HasBody};
ghost use Rattle.package_intake.specs.Inside.{file_of, path_at};

use crate::body::take_one;
use crate::by_package::ByPackage;
use crate::index::path_below;
use crate::join::Paths;
use crate::known::{KnownFiles, known_files};
use crate::taken::Taken;
use ap_host::{Host, Inbox};
use ap_text::SafePath;
use machine_state::UpdateFault;
use package_core::Package;
use package_list::{JoinedPackages, PackageList};
use stage_file::Stage;
use std::alloc::Global;
use std::rc::Rc;

/// The path of the file of a package of the index.
fn path_of(
    alloc: Global,
    folder: &SafePath,
    paths: &Paths,
    one: &Rc<Package>,
) -> Result<SafePath, UpdateFault>
    requires { IsSome (get package_cmp paths.now one.now.value) }
    ensures path { IfOk result (λ path. path ≡ below_folder folder.now (path_at paths.now one.now.value)) }
    ensures short { length (below_folder folder.now (path_at paths.now one.now.value)) ≤ 1000 → IfErr result (λ e. e ≡ OutOfMemory) }
    ensures fault { IfErr result IsOwnFault }
    ensures other { IfErr result IsOtherFault }
{
    match paths.get(&ByPackage::new(one.clone()?)) {
        Some(path) => path_below(alloc, folder, path),
        None => unreachable!(),
    }
}

/// Takes in the file of one package of the index.
fn take_next<H: Host, I: Inbox>(
    alloc: Global,
    host: &mut H,
    stage: &mut Stage,
    inbox: &mut I,
    known: &PackageList,
    files: &KnownFiles,
    folder: &SafePath,
    paths: &Paths,
    one: &Rc<Package>,
) -> Result<Taken, UpdateFault>
    requires files { (q : List ℕ) → file_of files.now q ≡ known_of known.now q }
    requires path { IsSome (get package_cmp paths.now one.now.value) }
    ensures told { IsCatalogue known.now → length (below_folder folder.now (path_at paths.now one.now.value)) ≤ 1000 → ForSome (I.map inbox.old) (λ f. Gives result (taken_file f known.now (below_folder folder.now (path_at paths.now one.now.value)) one.now.value)) }
    ensures taken { IfOk result (λ q. IsCatalogue known.now → IsPackage one.now.value → IsSaid one.now.value.said → IsTakenIn known.now one.now.value q) }
    ensures same { IfOk result (λ q. package_cmp one.now.value q ≡ Equal) }
    ensures fault { IfErr result IsAnyFault }
    ensures mismatch { IfErr result (FaultOfFile (below_folder folder.now (path_at paths.now one.now.value)) one.now.value.said) }
    ensures log { GoesOn (H.log host.old) (H.log host.new) (AddsOne (I.map inbox.old) one.now.value (λ f. All (HasBody f) known.now) result stage.old stage.new) }
    ensures map { I.map inbox.new ≡ I.map inbox.old }
    ensures cause { CauseOf HostFault (H.faults host.old) (H.faults host.new) result }
    ensures input { CauseOf InboxFault (I.faults inbox.old) (I.faults inbox.new) result }
{
    let path = path_of(alloc, folder, paths, one)?;
    take_one(alloc, host, stage, inbox, known, files, &path, one.as_ref())
}

/// Takes in the files of some packages, which stand in their order, one after the other, each at its path below the folder. What
/// comes of them are the packages with the four facts of their files, whose bodies then stand in the pool. No barrier is made.
///
/// A stated size has at most 268,435,456 bytes, else `Limit(File)`. Where a known package's file has the SHA-256, what is known of the
/// first such has to agree with what is stated, and nothing is read. Else the file is there, else `InputAbsent`. What is stated of it is
/// so, else `InputMismatch` with the first of size in bytes, SHA-256, SHA-1 and MD5 that differs. Where an equal package is known, that
/// one stands. The first package that is refused decides.
///
/// Pool files that were taken in before a refusal stay. `HostFault` and `InboxFault` come only where the host or the inbox failed. It is
/// meant for known packages that are a catalogue, and for paths of at most 1,000 bytes below the folder.
pub fn take_each<H: Host, I: Inbox>(
    alloc: Global,
    host: &mut H,
    stage: &mut Stage,
    inbox: &mut I,
    known: &PackageList,
    folder: &SafePath,
    list: &[Rc<Package>],
    paths: &Paths,
) -> Result<PackageList, UpdateFault>
    requires ascending { IsAscending package_cmp (map rc_value list.now) }
    requires paths { All (λ p. IsSome (get package_cmp paths.now p)) (map rc_value list.now) }
    ensures told { IsCatalogue known.now → All (λ p. length (below_folder folder.now (path_at paths.now p)) ≤ 1000) (map rc_value list.now) → ForSome (I.map inbox.old) (λ f. Gives result (each_taken (λ p. taken_file f known.now (below_folder folder.now (path_at paths.now p)) p) (map rc_value list.now))) }
    ensures taken { IfOk result (λ qs. IsCatalogue known.now → All (λ p. IsPackage p × IsSaid p.said) (map rc_value list.now) → AreTakenIn known.now (map rc_value list.now) qs) }
    ensures fault { IfErr result IsAnyFault }
    ensures mismatch { IfErr result (FaultOfFiles folder.now (path_at paths.now) (map rc_value list.now)) }
    ensures log { GoesOn (H.log host.old) (H.log host.new) (AddsAll (I.map inbox.old) (map rc_value list.now) known.now result stage.old stage.new) }
    ensures map { I.map inbox.new ≡ I.map inbox.old }
    ensures cause { CauseOf HostFault (H.faults host.old) (H.faults host.new) result }
    ensures input { CauseOf InboxFault (I.faults inbox.old) (I.faults inbox.new) result }
{
    let files = known_files(alloc, known)?;
    let mut taken = Vec::with_capacity(alloc, list.len())?;
    for one in list {
        let next = take_next(alloc, host, stage, inbox, known, &files, folder, paths, one)?;
        taken.push(next.into_shared())?;
    }
    Ok(PackageList::from_ascending(taken))
}

/// The same of packages that were joined.
pub fn take_all<H: Host, I: Inbox>(
    alloc: Global,
    host: &mut H,
    stage: &mut Stage,
    inbox: &mut I,
    known: &PackageList,
    folder: &SafePath,
    list: &JoinedPackages,
    paths: &Paths,
) -> Result<PackageList, UpdateFault>
    requires ascending { IsAscending package_cmp list.now }
    requires paths { All (λ p. IsSome (get package_cmp paths.now p)) list.now }
    ensures told { IsCatalogue known.now → All (λ p. length (below_folder folder.now (path_at paths.now p)) ≤ 1000) list.now → ForSome (I.map inbox.old) (λ f. Gives result (each_taken (λ p. taken_file f known.now (below_folder folder.now (path_at paths.now p)) p) list.now)) }
    ensures taken { IfOk result (λ qs. IsCatalogue known.now → All (λ p. IsPackage p × IsSaid p.said) list.now → AreTakenIn known.now list.now qs) }
    ensures fault { IfErr result IsAnyFault }
    ensures mismatch { IfErr result (FaultOfFiles folder.now (path_at paths.now) list.now) }
    ensures log { GoesOn (H.log host.old) (H.log host.new) (AddsAll (I.map inbox.old) list.now known.now result stage.old stage.new) }
    ensures map { I.map inbox.new ≡ I.map inbox.old }
    ensures cause { CauseOf HostFault (H.faults host.old) (H.faults host.new) result }
    ensures input { CauseOf InboxFault (I.faults inbox.old) (I.faults inbox.new) result }
{
    take_each(
        alloc,
        host,
        stage,
        inbox,
        known,
        folder,
        list.as_slice(),
        paths,
    )
}
