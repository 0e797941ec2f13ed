//! Packages of a mirror that join a repository.
ghost use Rattle.std.specs.Prelude.{◌≤◌, IfOk, IfErr};
ghost use Rattle.command_value.specs.Plain.{plain_follow};
ghost use Rattle.machine_state.specs.State.{Valid};
ghost use Rattle.machine_state.specs.declared.arrived.Arrived.{Arrived};
ghost use Rattle.step_model.specs.Answers.{ChangesTo, IsNew, KeepsBy, RefusedBy};
ghost use Rattle.repo_packages.specs.PackageCases.{import_case};

use crate::early::import_early;
use crate::pairs::copied;
use command_value::Follow;
use control_stanza::Text;
use machine_state::{Change, ChangeFault, State};
use mirror_lists::updated_of;
use package_choice::choose;
use query_eval::Patterns;
use std::alloc::Global;
use step_model::prepared_all;

/// What `repo import` changes in a valid state: the packages of what the mirror fetched last of which some query is true join the repository.
/// Of two equal ones the repository's stays. Behind the patterns of its queries it is refused as `NotUpdated` where the mirror was never
/// updated; then as `Conflict` where one of them and another package of the repository have one name, version and architecture, and then as
/// `Limit(Packages)` where they are too many. A dry run makes the same checks, tells which would come, and changes nothing. Where
/// `-with-deps` is set they join with what they depend on of what the mirror fetched.
pub fn import_packages<M: Patterns>(
    alloc: Global,
    state: &State,
    dry_run: &Option<bool>,
    with_deps: &Option<bool>,
    follow: &Follow,
    mirror: &Text,
    repo: &Text,
    queries: &[Text],
    patterns: &mut M,
) -> Result<Change, ChangeFault>
    ensures ok { (arrived : Arrived) → Valid state.now → IfOk result (ChangesTo state.now (import_case state.now dry_run.now with_deps.now (plain_follow follow.now) mirror.now repo.now queries.now) arrived) }
    ensures fault { (arrived : Arrived) → Valid state.now → IfErr result (RefusedBy M.Patterns patterns.old patterns.new (import_case state.now dry_run.now with_deps.now (plain_follow follow.now) mirror.now repo.now queries.now) arrived) }
    ensures new { Valid state.now → IfOk result (λ change. IsNew state.now change.state) }
    ensures never_falls { M.refusals patterns.old ≤ M.refusals patterns.new }
    ensures kept { KeepsBy M.Patterns patterns.old patterns.new result }
{
    let (from, to) = import_early(alloc, state, follow, mirror, repo)?;
    let asked = prepared_all(alloc, queries, patterns)?;
    let fetched = updated_of(alloc, from)?;
    let more = choose(alloc, &fetched.list, &asked, with_deps, follow)?;
    copied(alloc, state, dry_run.unwrap_or(false), to, &more)
}
