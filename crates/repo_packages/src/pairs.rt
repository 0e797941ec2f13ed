//! Packages that are copied or moved from one repository to another.
ghost use Rattle.std.specs.Prelude.{◌≡◌, ◌≤◌, ◌++◌, List, ℕ, Bool, false, length, Option, IfOk, IfErr, None};
ghost use Rattle.std.specs.List.{filter};
ghost use Rattle.command_value.specs.Plain.{plain_follow};
ghost use Rattle.machine_state.specs.State.{Valid};
ghost use Rattle.machine_state.specs.declared.arrived.Arrived.{Arrived};
ghost use Rattle.package_core.specs.Card.{Card};
ghost use Rattle.package_list.specs.Lists.{union, without};
ghost use Rattle.step_model.specs.Answers.{came, ChangesTo, FaultIs, IsMemory, IsNew, KeepsBy, RefusedBy};
ghost use Rattle.repo_packages.specs.PackageCases.{IsJoinRefusal, added_reply, copy_case, copying, joining, move_case, moving, Finds};
ghost use Rattle.repo_packages.specs.PackageReplies.{dry_run_of, repo_removed as removed_from};

use crate::early::pair_early;
use crate::listing::{appended, listed, set_list};
use crate::replies::{both, repo_removed};
use command_value::Follow;
use control_stanza::Text;
use machine_state::{Change, ChangeFault, Repo, State};
use package_choice::choose;
use package_list::PackageList;
use query_eval::Patterns;
use reply_text::{dry_run_reply, repo_added};
use std::alloc::{AllocError, Global};
use step_model::{prepared_all, without_of};

/// What a dry run tells: what would leave the source, and what would come to the destination.
fn dry_run_change(
    alloc: Global,
    going: &PackageList,
    destination: &Repo,
    more: &PackageList,
) -> Result<Change, ChangeFault>
    ensures same { IfOk result (λ change. change ≡ record { state = None; reply = dry_run_of going.now (without more.now destination.now.list) }) }
    ensures fault { IfErr result IsMemory }
{
    let coming = without_of(alloc, more, &destination.list)?;
    let reply = dry_run_reply(alloc, going.as_slice(), coming.as_slice())?;
    Ok(Change { state: None, reply })
}

/// The line of a repository that has all of these packages now.
fn joined_reply(alloc: Global, repo: &Repo, all: &PackageList) -> Result<Text, AllocError>
    ensures { IfOk result (λ reply. reply ≡ added_reply repo.now.name repo.now.list all.now) }
{
    let added = all.len().saturating_sub(repo.list.len());
    repo_added(alloc, &repo.name, added as u64, all.len() as u64)
}

/// Gives a repository all of these packages, its own and more. Where there are no more the state stays as it was.
fn put_in(
    alloc: Global,
    state: &State,
    destination: &Repo,
    all: PackageList,
) -> Result<Change, ChangeFault>
    ensures comes { (name : List ℕ) (more : List Card) → Valid state.now → Finds state.now name destination.now → all ≡ union destination.now.list more → IfOk result (λ change. copying state.now false name more ≡ came state.now change) }
    ensures fault { IfErr result IsMemory }
    ensures new { (name : List ℕ) (more : List Card) → Valid state.now → Finds state.now name destination.now → all ≡ union destination.now.list more → IfOk result (λ change. IsNew state.now change.state) }
{
    let reply = joined_reply(alloc, destination, &all)?;
    let count = all.len();
    let before = destination.list.len();
    if count <= before {
        return Ok(Change { state: None, reply });
    }
    let new = listed(alloc, state, &destination.name, all)?;
    Ok(Change {
        state: Some(new),
        reply,
    })
}

/// Copies packages into a repository, or tells in a dry run which would come.
pub(crate) fn copied(
    alloc: Global,
    state: &State,
    dry_run: bool,
    destination: &Repo,
    more: &PackageList,
) -> Result<Change, ChangeFault>
    ensures comes { (name : List ℕ) → Valid state.now → Finds state.now name destination.now → IfOk result (λ change. joining state.now name more.now (copying state.now dry_run name more.now) ≡ came state.now change) }
    ensures fault { IfErr result (FaultIs (IsJoinRefusal destination.now.list more.now)) }
    ensures new { (name : List ℕ) → Valid state.now → Finds state.now name destination.now → IfOk result (λ change. IsNew state.now change.state) }
{
    let all = appended(alloc, &destination.list, more)?;
    if dry_run {
        let none = PackageList::new(alloc);
        return dry_run_change(alloc, &none, destination, more);
    }
    put_in(alloc, state, destination, all)
}

/// The two lines of a move.
fn moved_lines(
    alloc: Global,
    source: &Repo,
    left: &PackageList,
    destination: &Repo,
    all: &PackageList,
    more: &PackageList,
) -> Result<Text, AllocError>
    ensures { IfOk result (λ reply. reply ≡ added_reply destination.now.name destination.now.list all.now ++ removed_from source.now.name (length more.now) (length left.now)) }
{
    let joined = joined_reply(alloc, destination, all)?;
    let gone = repo_removed(alloc, &source.name, more.len() as u64, left.len() as u64)?;
    both(alloc, &joined, &gone)
}

/// Takes packages out of the source, and gives the destination all of these. Where there are none the state stays as it was.
fn carry(
    alloc: Global,
    state: &State,
    source: &Repo,
    destination: &Repo,
    all: PackageList,
    more: &PackageList,
) -> Result<Change, ChangeFault>
    ensures comes { (from to : List ℕ) → Valid state.now → Finds state.now from source.now → Finds state.now to destination.now → all ≡ union destination.now.list more.now → IfOk result (λ change. moving state.now false from to more.now ≡ came state.now change) }
    ensures fault { IfErr result IsMemory }
    ensures new { (from to : List ℕ) (test : Card → Bool) → Valid state.now → Finds state.now from source.now → Finds state.now to destination.now → more.now ≡ filter test source.now.list → IfOk result (λ change. IsNew state.now change.state) }
{
    let left = without_of(alloc, &source.list, more)?;
    let reply = moved_lines(alloc, source, &left, destination, &all, more)?;
    let count = more.len();
    if count == 0 {
        return Ok(Change { state: None, reply });
    }
    let mut new = listed(alloc, state, &destination.name, all)?;
    set_list(&mut new.repos, &source.name, left);
    Ok(Change {
        state: Some(new),
        reply,
    })
}

/// Moves packages from one repository to another, or tells in a dry run which would leave and which would come.
fn moved(
    alloc: Global,
    state: &State,
    dry_run: bool,
    source: &Repo,
    destination: &Repo,
    more: &PackageList,
) -> Result<Change, ChangeFault>
    ensures comes { (from to : List ℕ) → Valid state.now → Finds state.now from source.now → Finds state.now to destination.now → IfOk result (λ change. joining state.now to more.now (moving state.now dry_run from to more.now) ≡ came state.now change) }
    ensures fault { IfErr result (FaultIs (IsJoinRefusal destination.now.list more.now)) }
    ensures new { (from to : List ℕ) (test : Card → Bool) → Valid state.now → Finds state.now from source.now → Finds state.now to destination.now → more.now ≡ filter test source.now.list → IfOk result (λ change. IsNew state.now change.state) }
{
    let all = appended(alloc, &destination.list, more)?;
    if dry_run {
        return dry_run_change(alloc, more, destination, more);
    }
    carry(alloc, state, source, destination, all, more)
}

/// What `repo copy` changes in a valid state: the packages of the source of which some query is true join the destination. Of two equal ones
/// the destination's stays. It is refused as `Conflict` where one of them and another package of the destination have one name, version and
/// architecture, and then as `Limit(Packages)` where they are too many. A dry run makes the same checks, tells which would come, and
/// changes nothing. Where `-with-deps` is set they join with what they depend on of the source.
pub fn copy_packages<M: Patterns>(
    alloc: Global,
    state: &State,
    dry_run: &Option<bool>,
    with_deps: &Option<bool>,
    follow: &Follow,
    source: &Text,
    destination: &Text,
    queries: &[Text],
    patterns: &mut M,
) -> Result<Change, ChangeFault>
    ensures ok { (arrived : Arrived) → Valid state.now → IfOk result (ChangesTo state.now (copy_case state.now dry_run.now with_deps.now (plain_follow follow.now) source.now destination.now queries.now) arrived) }
    ensures fault { (arrived : Arrived) → Valid state.now → IfErr result (RefusedBy M.Patterns patterns.old patterns.new (copy_case state.now dry_run.now with_deps.now (plain_follow follow.now) source.now destination.now queries.now) arrived) }
    ensures new { Valid state.now → IfOk result (λ change. IsNew state.now change.state) }
    ensures never_falls { M.refusals patterns.old ≤ M.refusals patterns.new }
    ensures kept { KeepsBy M.Patterns patterns.old patterns.new result }
{
    let (from, to) = pair_early(alloc, state, follow, source, destination)?;
    let asked = prepared_all(alloc, queries, patterns)?;
    let more = choose(alloc, &from.list, &asked, with_deps, follow)?;
    copied(alloc, state, dry_run.unwrap_or(false), to, &more)
}

/// What `repo move` changes in a valid state: the packages of the source of which some query is true join the destination, as `copy_packages`
/// has it, and leave the source. A dry run makes the same checks, tells which would leave and which would come, and changes nothing. Where
/// `-with-deps` is set what they depend on of the source moves with them.
pub fn move_packages<M: Patterns>(
    alloc: Global,
    state: &State,
    dry_run: &Option<bool>,
    with_deps: &Option<bool>,
    follow: &Follow,
    source: &Text,
    destination: &Text,
    queries: &[Text],
    patterns: &mut M,
) -> Result<Change, ChangeFault>
    ensures ok { (arrived : Arrived) → Valid state.now → IfOk result (ChangesTo state.now (move_case state.now dry_run.now with_deps.now (plain_follow follow.now) source.now destination.now queries.now) arrived) }
    ensures fault { (arrived : Arrived) → Valid state.now → IfErr result (RefusedBy M.Patterns patterns.old patterns.new (move_case state.now dry_run.now with_deps.now (plain_follow follow.now) source.now destination.now queries.now) arrived) }
    ensures new { Valid state.now → IfOk result (λ change. IsNew state.now change.state) }
    ensures never_falls { M.refusals patterns.old ≤ M.refusals patterns.new }
    ensures kept { KeepsBy M.Patterns patterns.old patterns.new result }
{
    let (from, to) = pair_early(alloc, state, follow, source, destination)?;
    let asked = prepared_all(alloc, queries, patterns)?;
    let more = choose(alloc, &from.list, &asked, with_deps, follow)?;
    moved(alloc, state, dry_run.unwrap_or(false), from, to, &more)
}
