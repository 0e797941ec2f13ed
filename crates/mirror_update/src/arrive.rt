//! A mirror is updated.
ghost use Rattle.std.specs.Prelude.{◌≡◌, ◌≤◌, All, IfOk, IfErr, IsSome, OnOk, Ok, Some, map, length};
ghost use Rattle.std.specs.BTreeMap.{get};
ghost use Rattle.std.specs.Option.{ForSome};
ghost use Rattle.std.specs.Rc.{rc_value};
ghost use Rattle.ap_host.specs.Calls.{CauseOf};
ghost use Rattle.ap_host.specs.Changes.{GoesOn};
ghost use Rattle.index_text.specs.Index.{ArePackages};
ghost use Rattle.machine_state.specs.declared.arrived.UpdateFault.TheVariants.{HostFault, InboxFault};
ghost use Rattle.machine_state.specs.declared.limit.Limit.TheVariants.{Packages};
ghost use Rattle.machine_state.specs.State.{IsCatalogue, Valid, mirror_of};
ghost use Rattle.ap_text.specs.Paths.{below_folder};
ghost use Rattle.package_core.specs.Card.{Card, IsPackage};
ghost use Rattle.package_core.specs.Order.{package_cmp};
ghost use Rattle.package_core.specs.Whole.{IsSaid};
ghost use Rattle.package_list.specs.Answers.{join_answer};
ghost use Rattle.package_list.specs.Lists.{joined as joined_of, union};
ghost use Rattle.package_list.specs.Sorted.{IsAscending};
ghost use Rattle.package_intake.specs.Additions.{AddsAll};
ghost use Rattle.package_intake.specs.Faults.{FaultOfFiles, IsAnyFault, IsInputFault, IsOtherFault, IsOwnFault};
ghost use Rattle.package_intake.specs.Catalogue.{within_catalogue};
ghost use Rattle.package_intake.specs.Inside.{path_at};
ghost use Rattle.package_intake.specs.Taking.{AreTakenIn};
ghost use Rattle.package_intake.specs.Index.{AreShort, cards_of, entry_for, path_of};
ghost use Rattle.package_intake.specs.Steps.{FaultGives, Gives, or_refused};
ghost use Rattle.step_model.specs.Answers.{ToldBy};
ghost use Rattle.step_model.specs.Refuses.{ArePatterns, IsPick};
ghost use Rattle.mirror_update.specs.Fetch.{IsShort, MeetsItems, distribution_folder};
ghost use Rattle.mirror_update.specs.Wanted.{wanted_indexes};
ghost use Rattle.mirror_update.specs.Indexes.{FaultOfListed, IndexesSay};
ghost use Rattle.mirror_update.specs.Filter.{chosen_by, conditions_of, queries_of};
ghost use Rattle.mirror_update.specs.Arrival.{Arrives, entries_arrive, files_arrive};
ghost use Rattle.mirror_update.specs.Answers.{Adds, Brings, FaultOfMirror, IfFetched, IsArchiveFault, IsUpdateFault, KeepsText, Updates, chosen_in};
ghost use Rattle.mirror_update.specs.Fits.{FitsIn, FitsWith, IsKnowable};

use crate::filter::{choose, prepared};
use crate::indexes::read_all;
use crate::release::{fetch_release, folder_of};
use crate::wanted::{archs_of, wanted};
use ap_host::{Host, Inbox};
use ap_text::{Name, SafePath};
use control_stanza::Text;
use machine_state::{Arrived, Mirror, State, UpdateFault};
use package_core::Package;
use package_intake::{Paths, check_known, join_packages, split, take_each};
use package_list::PackageList;
use query_eval::{Patterns, Prepared};
use release_file::Release;
use stage_file::Stage;
use std::alloc::Global;
use std::rc::Rc;

/// What the indexes of the archive say.
fn read_indexes<I: Inbox>(
    alloc: Global,
    inbox: &mut I,
    mirror: &Mirror,
    release: &Release,
) -> Result<Vec<(Package, SafePath)>, UpdateFault>
    ensures told { IsShort mirror.now → ForSome (I.map inbox.old) (λ f. MeetsItems (IndexesSay f mirror.now release.now) result) }
    ensures packages { IfOk result (λ v. ArePackages v.items) }
    ensures short { IfOk result (λ v. AreShort v.items) }
    ensures fault { IfErr result IsInputFault }
    ensures mismatch { IfErr result (FaultOfListed (distribution_folder mirror.now) release.now.files (wanted_indexes mirror.now release.now)) }
    ensures map { I.map inbox.new ≡ I.map inbox.old }
    ensures cause { CauseOf InboxFault (I.faults inbox.old) (I.faults inbox.new) result }
{
    let folder = folder_of(alloc, mirror)?;
    let names = wanted(alloc, mirror, release)?;
    read_all(alloc, inbox, &folder, &release.files, &names)
}

/// The packages of these that the filter chooses, and the paths of all.
fn choose_of(
    alloc: Global,
    mirror: &Mirror,
    queries: &[Prepared],
    archs: &[Name],
    entries: Vec<(Package, SafePath)>,
) -> Result<(Vec<Rc<Package>>, Paths), UpdateFault>
    requires queries { queries.now ≡ queries_of mirror.now.filter }
    ensures chosen { IfOk result (λ made. map rc_value made.0.items ≡ chosen_by mirror.now.filter mirror.now.with_deps archs.now (joined_of (cards_of entries.items))) }
    ensures paths { IfOk result (λ made. (q : Card) → get package_cmp made.1 q ≡ entry_for entries.items q) }
    ensures good { OnOk result (or_refused Packages (join_answer (cards_of entries.items)) ≡ Ok (joined_of (cards_of entries.items))) }
    ensures bad { IfErr result (λ e. FaultGives e (or_refused Packages (join_answer (cards_of entries.items)))) }
    ensures fault { IfErr result IsOwnFault }
    ensures other { IfErr result IsOtherFault }
{
    let (packages, paths) = split(alloc, entries)?;
    let joined = join_packages(alloc, &packages)?;
    let chosen = choose(alloc, joined, queries, mirror.with_deps, archs)?;
    Ok((chosen, paths))
}

/// Takes in the files of packages, and looks whether these can be known.
fn take_list<H: Host, I: Inbox>(
    alloc: Global,
    host: &mut H,
    stage: &mut Stage,
    inbox: &mut I,
    known: &PackageList,
    folder: &SafePath,
    chosen: &[Rc<Package>],
    paths: &Paths,
) -> Result<PackageList, UpdateFault>
    requires ascending { IsAscending package_cmp (map rc_value chosen.now) }
    requires paths { All (λ p. IsSome (get package_cmp paths.now p)) (map rc_value chosen.now) }
    ensures told { IsCatalogue known.now → All (λ p. length (below_folder folder.now (path_at paths.now p)) ≤ 1000) (map rc_value chosen.now) → ForSome (I.map inbox.old) (λ f. Gives result (files_arrive f known.now folder.now (path_at paths.now) (map rc_value chosen.now))) }
    ensures taken { IfOk result (λ qs. IsCatalogue known.now → All (λ p. IsPackage p × IsSaid p.said) (map rc_value chosen.now) → AreTakenIn known.now (map rc_value chosen.now) qs) }
    ensures checked { IfOk result (λ qs. within_catalogue (union known.now qs) ≡ Ok tt) }
    ensures fault { IfErr result IsAnyFault }
    ensures mismatch { IfErr result (FaultOfFiles folder.now (path_at paths.now) (map rc_value chosen.now)) }
    ensures log { GoesOn (H.log host.old) (H.log host.new) (AddsAll (I.map inbox.old) (map rc_value chosen.now) known.now result stage.old stage.new) }
    ensures map { I.map inbox.new ≡ I.map inbox.old }
    ensures cause { CauseOf HostFault (H.faults host.old) (H.faults host.new) result }
    ensures input { CauseOf InboxFault (I.faults inbox.old) (I.faults inbox.new) result }
{
    let list = take_each(alloc, host, stage, inbox, known, folder, chosen, paths)?;
    check_known(alloc, known, &list)?;
    Ok(list)
}

/// Takes in the packages of these that the filter chooses.
fn take_chosen<H: Host, I: Inbox>(
    alloc: Global,
    host: &mut H,
    stage: &mut Stage,
    inbox: &mut I,
    known: &PackageList,
    mirror: &Mirror,
    queries: &[Prepared],
    release: &Release,
    entries: Vec<(Package, SafePath)>,
) -> Result<PackageList, UpdateFault>
    requires queries { queries.now ≡ queries_of mirror.now.filter }
    ensures told { IsCatalogue known.now → length mirror.now.archive ≤ 200 → AreShort entries.items → ForSome (I.map inbox.old) (λ f. Gives result (entries_arrive f known.now mirror.now release.now entries.items)) }
    ensures fits { IfOk result (λ list. IsCatalogue known.now → ArePackages entries.items → IsKnowable known.now list) }
    ensures fault { IfErr result IsAnyFault }
    ensures mismatch { IfErr result (FaultOfFiles mirror.now.archive (path_of entries.items) (chosen_in mirror.now release.now entries.items)) }
    ensures log { GoesOn (H.log host.old) (H.log host.new) (AddsAll (I.map inbox.old) (chosen_in mirror.now release.now entries.items) known.now result stage.old stage.new) }
    ensures map { I.map inbox.new ≡ I.map inbox.old }
    ensures cause { CauseOf HostFault (H.faults host.old) (H.faults host.new) result }
    ensures input { CauseOf InboxFault (I.faults inbox.old) (I.faults inbox.new) result }
{
    let archs = archs_of(mirror, release);
    let (chosen, paths) = choose_of(alloc, mirror, queries, archs, entries)?;
    take_list(
        alloc,
        host,
        stage,
        inbox,
        known,
        &mirror.archive,
        &chosen,
        &paths,
    )
}

/// Takes in what the archive has.
fn take_archive<H: Host, I: Inbox>(
    alloc: Global,
    host: &mut H,
    stage: &mut Stage,
    inbox: &mut I,
    known: &PackageList,
    mirror: &Mirror,
    queries: &[Prepared],
) -> Result<Arrived, UpdateFault>
    requires queries { queries.now ≡ queries_of mirror.now.filter }
    ensures told { IsCatalogue known.now → IsShort mirror.now → ForSome (I.map inbox.old) (λ f. Brings (Arrives f known.now mirror.now) result) }
    ensures fits { IsCatalogue known.now → IfFetched result (FitsWith known.now) }
    ensures fault { IfErr result IsArchiveFault }
    ensures mismatch { IfErr result (FaultOfMirror (I.map inbox.old) mirror.now) }
    ensures log { GoesOn (H.log host.old) (H.log host.new) (Adds (I.map inbox.old) mirror.now known.now result stage.old stage.new) }
    ensures map { I.map inbox.new ≡ I.map inbox.old }
    ensures cause { CauseOf HostFault (H.faults host.old) (H.faults host.new) result }
    ensures input { CauseOf InboxFault (I.faults inbox.old) (I.faults inbox.new) result }
{
    let release = fetch_release(alloc, inbox, mirror)?;
    let date = Text::new(alloc, release.date.as_str())?;
    let entries = read_indexes(alloc, inbox, mirror, &release)?;
    let list = take_chosen(
        alloc, host, stage, inbox, known, mirror, queries, &release, entries,
    )?;
    Ok(Arrived::List { list, date })
}

/// Takes in an archive of the inbox for a mirror: the packages that its filter chooses, each with the four facts of its file, whose body
/// then stands in the pool, and the date that the archive states. The state isn't changed, and no barrier is made.
///
/// The patterns of the filter are built first, before anything is read: the first `~` condition that can't be built is told as
/// `BadPattern`, or as `PatternTooLarge` only where `patterns` refused its text for its size in this call, each with its number in the
/// filter, which counts as the first query. Then the steps are made in this order, and the first that fails decides:
///
/// 1. The Release of the distribution is there, else `InputAbsent`, and has at most 4,194,304 bytes, else `Limit(ReleaseBytes)`.
/// 2. It is a Release (the Debian repository format), else `InputMalformed`, as [`fetch_release`] says.
/// 3. For each component of the mirror, or where it names none of the Release, and for each of these for each architecture, likewise: the
///    index `COMPONENT/binary-ARCHITECTURE/Packages` is listed in the Release and there, else `InputAbsent`. Its listed size is at most
///    134,217,728 bytes, else `Limit(Index)`. It has that size and the listed SHA-256, else `InputMismatch`. It is made of stanzas, each
///    of a binary package with readable relations, else `InputMalformed` (Debian Policy 5.1, 5.3, 7.1, 7.5).
/// 4. The packages of all indexes are joined in their order, of equal ones the first stands: `Conflict` where one differs from an earlier
///    one of its name, version and architecture, and `Limit(Packages)` at the 200,001st.
/// 5. Those stay of which the filter is true, where it asks for that with what they depend on of the others, over the same
///    architectures. Without a filter all stay.
/// 6. Their files are taken in, in the order of packages, each at its path below the archive. A stated size has at most 268,435,456 bytes,
///    else `Limit(File)`. Where a known package's file has the SHA-256, what is known of the first such has to agree with what is stated,
///    and nothing is read. Else the file is there, else `InputAbsent`. What is stated of it is so, else `InputMismatch` with the first of
///    size, SHA-256, SHA-1 and MD5 that differs. Where an equal package is known, that one stands.
/// 7. Together with the known packages they are at most 400,000, else `Limit(Known)`, and their texts have at most 1,073,741,824 bytes,
///    else `Limit(Catalogue)`.
///
/// Pool files that were taken in before a refusal stay. Each is one that the archive names by its SHA-256, of a package that the filter
/// chooses. `HostFault` and `InboxFault` come only where the host or the inbox failed. It is meant for a valid state that has the mirror.
/// It gives a list or a refusal, never `Nothing`.
pub fn update<H: Host, I: Inbox, M: Patterns>(
    alloc: Global,
    host: &mut H,
    stage: &mut Stage,
    inbox: &mut I,
    state: &State,
    mirror: &Mirror,
    patterns: &mut M,
) -> Result<Arrived, UpdateFault>
    ensures told { Valid state.now → mirror_of mirror.now.name state.now.mirrors ≡ Some mirror.now → ToldBy M.Patterns patterns.old patterns.new (λ large. Brings (Updates large (I.map inbox.old) state.now mirror.now) result) }
    ensures fits { Valid state.now → IfFetched result (FitsIn state.now mirror.now.name) }
    ensures read { OnOk result (ArePatterns (conditions_of mirror.now)) }
    ensures fault { IfErr result (IsUpdateFault (λ refusal. ToldBy M.Patterns patterns.old patterns.new (λ large. IsPick large (conditions_of mirror.now) (Some refusal))) mirror.now) }
    ensures mismatch { IfErr result (FaultOfMirror (I.map inbox.old) mirror.now) }
    ensures log { GoesOn (H.log host.old) (H.log host.new) (Adds (I.map inbox.old) mirror.now state.now.known result stage.old stage.new) }
    ensures map { I.map inbox.new ≡ I.map inbox.old }
    ensures cause { CauseOf HostFault (H.faults host.old) (H.faults host.new) result }
    ensures input { CauseOf InboxFault (I.faults inbox.old) (I.faults inbox.new) result }
    ensures never_falls { M.refusals patterns.old ≤ M.refusals patterns.new }
    // Which text was refused for its size changes only where such a pattern is told.
    ensures kept { KeepsText (M.refused patterns.old) (M.refused patterns.new) result }
{
    let queries = prepared(alloc, mirror, patterns)?;
    take_archive(alloc, host, stage, inbox, &state.known, mirror, &queries)
}
