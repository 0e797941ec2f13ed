//! What is to be read for the commands on packages, or why they are refused before.
ghost use Rattle.std.specs.Prelude.{◌≤◌, Bool, Option, IfOk, IfErr, None, Some};
ghost use Rattle.command_value.specs.Plain.{plain_follow};
ghost use Rattle.machine_state.specs.State.{Valid};
ghost use Rattle.step_model.specs.Answers.{FaultIs, IsWanted, KeepsBy, RefusesBy};
ghost use Rattle.step_model.specs.Case.{Came};
ghost use Rattle.step_model.specs.Refuses.{Refuses};
ghost use Rattle.repo_packages.specs.PackageCases.{addition_case, copy_case, import_case, move_case, pair_case, removal_case};

use crate::checks::named_repo;
use crate::early::{addition_early, import_early, pair_early};
use command_value::Follow;
use control_stanza::Text;
use machine_state::{ChangeFault, State};
use mirror_lists::updated_of;
use query_eval::Patterns;
use std::alloc::Global;
use step_model::{Reading, prepared_all};

/// The folder that `repo add` reads in a valid state, or its first refusal.
pub fn addition_needs(
    alloc: Global,
    state: &State,
    name: &Text,
    folder: &Text,
) -> Result<Reading, ChangeFault>
    ensures ok { Valid state.now → IfOk result (IsWanted None (addition_case state.now name.now folder.now)) }
    ensures fault { Valid state.now → IfErr result (FaultIs (λ refusal. Refuses None (addition_case state.now name.now folder.now) (Some refusal))) }
{
    let (name, folder) = addition_early(alloc, state, name, folder)?;
    Ok(Reading::Folder(name, folder))
}

/// That `repo remove` reads nothing in a valid state, or its first refusal. The patterns of its queries are built.
pub fn removal_needs<M: Patterns>(
    alloc: Global,
    state: &State,
    name: &Text,
    queries: &[Text],
    patterns: &mut M,
) -> Result<Reading, ChangeFault>
    ensures ok { (dry : Option Bool) → Valid state.now → IfOk result (IsWanted None (removal_case state.now dry name.now queries.now)) }
    ensures fault { (dry : Option Bool) → Valid state.now → IfErr result (RefusesBy M.Patterns patterns.old patterns.new (removal_case state.now dry name.now queries.now)) }
    ensures never_falls { M.refusals patterns.old ≤ M.refusals patterns.new }
    ensures kept { KeepsBy M.Patterns patterns.old patterns.new result }
{
    named_repo(alloc, state, name)?;
    prepared_all(alloc, queries, patterns)?;
    Ok(Reading::Nothing)
}

/// That a copy or a move reads nothing in a valid state, whatever it then comes to, or its first refusal. The patterns of its queries are
/// built.
pub fn pair_needs<M: Patterns>(
    alloc: Global,
    state: &State,
    follow: &Follow,
    source: &Text,
    destination: &Text,
    queries: &[Text],
    patterns: &mut M,
) -> Result<Reading, ChangeFault>
    ensures ok { (deps : Option Bool) (comes : Came) → Valid state.now → IfOk result (IsWanted None (pair_case state.now deps (plain_follow follow.now) source.now destination.now queries.now comes)) }
    ensures fault { (deps : Option Bool) (comes : Came) → Valid state.now → IfErr result (RefusesBy M.Patterns patterns.old patterns.new (pair_case state.now deps (plain_follow follow.now) source.now destination.now queries.now comes)) }
    ensures never_falls { M.refusals patterns.old ≤ M.refusals patterns.new }
    ensures kept { KeepsBy M.Patterns patterns.old patterns.new result }
{
    pair_early(alloc, state, follow, source, destination)?;
    prepared_all(alloc, queries, patterns)?;
    Ok(Reading::Nothing)
}

/// That an import reads nothing in a valid state, or its first refusal. The patterns of its queries are built, and behind them a mirror that
/// was never updated is refused.
pub fn import_needs<M: Patterns>(
    alloc: Global,
    state: &State,
    follow: &Follow,
    mirror: &Text,
    repo: &Text,
    queries: &[Text],
    patterns: &mut M,
) -> Result<Reading, ChangeFault>
    ensures ok { (dry deps : Option Bool) → Valid state.now → IfOk result (IsWanted None (import_case state.now dry deps (plain_follow follow.now) mirror.now repo.now queries.now)) }
    ensures fault { (dry deps : Option Bool) → Valid state.now → IfErr result (RefusesBy M.Patterns patterns.old patterns.new (import_case state.now dry deps (plain_follow follow.now) mirror.now repo.now queries.now)) }
    ensures never_falls { M.refusals patterns.old ≤ M.refusals patterns.new }
    ensures kept { KeepsBy M.Patterns patterns.old patterns.new result }
{
    let (from, _) = import_early(alloc, state, follow, mirror, repo)?;
    prepared_all(alloc, queries, patterns)?;
    updated_of(alloc, from)?;
    Ok(Reading::Nothing)
}
