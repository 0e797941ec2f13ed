//! The file of one package of an index.
ghost use Rattle.std.specs.Prelude.{◌≡◌, List, ℕ, All, IfOk, IfErr, IfSome};
ghost use Rattle.std.specs.Option.{ForSome};
ghost use Rattle.ap_host.specs.Calls.{CauseOf};
ghost use Rattle.ap_host.specs.Disk.{Files};
ghost use Rattle.ap_host.specs.Changes.{GoesOn};
ghost use Rattle.std.specs.declared.cmp.Ordering.TheVariants.{Equal};
ghost use Rattle.package_core.specs.Card.{IsPackage};
ghost use Rattle.package_core.specs.Order.{package_cmp};
ghost use Rattle.package_core.specs.Whole.{IsSaid, IsWhole};
ghost use Rattle.machine_state.specs.declared.arrived.UpdateFault.TheVariants.{HostFault, InboxFault};
ghost use Rattle.machine_state.specs.State.{IsCatalogue};
ghost use Rattle.package_intake.specs.Taking.{compared, facts_of as facts, known_of, of_file, of_known_or_file, taken_file};
ghost use Rattle.hash_pool.specs.Bodies.{HasBody};
ghost use Rattle.package_intake.specs.Taking.{IsTakenIn};
ghost use Rattle.package_intake.specs.Inside.{IsCompleted, IfWhole};
ghost use Rattle.package_intake.specs.Inside.{file_of};
ghost use Rattle.package_intake.specs.Steps.{Gives};
ghost use Rattle.package_intake.specs.Faults.{FaultOfFile, IsAnyFault, IsOwnFault};
ghost use Rattle.package_intake.specs.Additions.{AddsOne};

use crate::fault::{differs, of_pool, over};
use crate::known::{KnownFiles, facts_of, stand};
use crate::taken::Taken;
use ap_host::{Host, Inbox};
use ap_text::SafePath;
use digest_set::Digests;
use hash_pool::take;
use machine_state::{Limit, UpdateFault};
use package_core::{CompleteFault, Package};
use package_list::PackageList;
use stage_file::Stage;
use std::alloc::Global;

/// The package with what was found of its file, which stands at this path, where that agrees with what is stated.
fn completed(
    alloc: Global,
    path: &SafePath,
    one: &Package,
    found: &Digests,
) -> Result<Package, UpdateFault>
    ensures answer { Gives result (compared path.now one.now found.now) }
    ensures same { IfOk result (λ q. package_cmp one.now q ≡ Equal) }
    ensures fault { IfErr result IsOwnFault }
    ensures mismatch { IfErr result (FaultOfFile path.now one.now.said) }
{
    let mut made = one.copy(alloc)?;
    match made.complete(alloc, found) {
        Ok(()) => Ok(made),
        Err(CompleteFault::Differs(what, said, found)) => {
            Err(differs(alloc, path, what, said, found))
        }
        Err(CompleteFault::OutOfMemory) => Err(UpdateFault::OutOfMemory),
    }
}

/// The package with what is known of its file by another one.
fn reused(
    alloc: Global,
    path: &SafePath,
    one: &Package,
    known: &Package,
) -> Result<Package, UpdateFault>
    ensures answer { IsWhole known.now → Gives result (compared path.now one.now (facts known.now)) }
    ensures made { IfOk result (λ q. IsWhole known.now → IsCompleted one.now q) }
    ensures same { IfOk result (λ q. package_cmp one.now q ≡ Equal) }
    ensures fault { IfErr result IsOwnFault }
    ensures mismatch { IfErr result (FaultOfFile path.now one.now.said) }
    ensures body { IfOk result (λ q. (f : Files) → HasBody f known.now → HasBody f q) }
{
    let found = facts_of(known);
    completed(alloc, path, one, &found)
}

/// The package with the facts of its file, which is taken into the pool.
fn fetched<H: Host, I: Inbox>(
    alloc: Global,
    host: &mut H,
    stage: &mut Stage,
    inbox: &mut I,
    path: &SafePath,
    one: &Package,
) -> Result<Package, UpdateFault>
    ensures told { ForSome (I.map inbox.old) (λ f. Gives result (of_file path.now one.now (f path.now))) }
    ensures made { IfOk result (IsCompleted one.now) }
    ensures same { IfOk result (λ q. package_cmp one.now q ≡ Equal) }
    ensures fault { IfErr result IsAnyFault }
    ensures mismatch { IfErr result (FaultOfFile path.now one.now.said) }
    ensures log { GoesOn (H.log host.old) (H.log host.new) (AddsOne (I.map inbox.old) one.now (λ _. Unit {0}) result stage.old stage.new) }
    ensures map { I.map inbox.new ≡ I.map inbox.old }
    ensures cause { CauseOf HostFault (H.faults host.old) (H.faults host.new) result }
    ensures input { CauseOf InboxFault (I.faults inbox.old) (I.faults inbox.new) result }
{
    match take(alloc, host, stage, inbox, path, &one.said) {
        Ok(found) => completed(alloc, path, one, &found),
        Err(fault) => Err(of_pool(alloc, path, fault)),
    }
}

/// The package with the facts of its file: those that are known of it, where a known package has its SHA-256, and else those of the
/// file, which is taken into the pool.
fn made<H: Host, I: Inbox>(
    alloc: Global,
    host: &mut H,
    stage: &mut Stage,
    inbox: &mut I,
    files: &KnownFiles,
    path: &SafePath,
    one: &Package,
) -> Result<Package, UpdateFault>
    ensures told { IfWhole (file_of files.now one.now.said.sha256) (ForSome (I.map inbox.old) (λ f. Gives result (of_known_or_file path.now one.now (file_of files.now one.now.said.sha256) (f path.now)))) }
    ensures made { IfOk result (λ q. IfWhole (file_of files.now one.now.said.sha256) (IsCompleted one.now q)) }
    ensures same { IfOk result (λ q. package_cmp one.now q ≡ Equal) }
    ensures fault { IfErr result IsAnyFault }
    ensures mismatch { IfErr result (FaultOfFile path.now one.now.said) }
    ensures log { GoesOn (H.log host.old) (H.log host.new) (AddsOne (I.map inbox.old) one.now (λ f. IfSome (file_of files.now one.now.said.sha256) (HasBody f)) result stage.old stage.new) }
    ensures map { I.map inbox.new ≡ I.map inbox.old }
    ensures cause { CauseOf HostFault (H.faults host.old) (H.faults host.new) result }
    ensures input { CauseOf InboxFault (I.faults inbox.old) (I.faults inbox.new) result }
{
    match files.get(&one.said.sha256) {
        Some(known) => reused(alloc, path, one, known.as_ref().package()),
        None => fetched(alloc, host, stage, inbox, path, one),
    }
}

/// What comes of one package of the index.
pub(crate) fn take_one<H: Host, I: Inbox>(
    alloc: Global,
    host: &mut H,
    stage: &mut Stage,
    inbox: &mut I,
    known: &PackageList,
    files: &KnownFiles,
    path: &SafePath,
    one: &Package,
) -> Result<Taken, UpdateFault>
    requires files { (q : List ℕ) → file_of files.now q ≡ known_of known.now q }
    ensures told { IsCatalogue known.now → ForSome (I.map inbox.old) (λ f. Gives result (taken_file f known.now path.now one.now)) }
    ensures taken { IfOk result (λ q. IsCatalogue known.now → IsPackage one.now → IsSaid one.now.said → IsTakenIn known.now one.now q) }
    ensures same { IfOk result (λ q. package_cmp one.now q ≡ Equal) }
    ensures fault { IfErr result IsAnyFault }
    ensures mismatch { IfErr result (FaultOfFile path.now one.now.said) }
    ensures log { GoesOn (H.log host.old) (H.log host.new) (AddsOne (I.map inbox.old) one.now (λ f. All (HasBody f) known.now) result stage.old stage.new) }
    ensures map { I.map inbox.new ≡ I.map inbox.old }
    ensures cause { CauseOf HostFault (H.faults host.old) (H.faults host.new) result }
    ensures input { CauseOf InboxFault (I.faults inbox.old) (I.faults inbox.new) result }
{
    if one.said.size > Limit::File.number() {
        return Err(over(Limit::File));
    }
    let made = made(alloc, host, stage, inbox, files, path, one)?;
    Ok(stand(alloc, known, made)?)
}
