//! What a pull is refused for before anything is read.
ghost use Rattle.std.specs.Prelude.{◌≤◌, Bool, Option, IfOk, IfErr, None};
ghost use Rattle.command_value.specs.Plain.{plain_follow};
ghost use Rattle.depend_pull.specs.declared.flags.PullFlags.{PullFlags as PullFlagsOf};
ghost use Rattle.machine_state.specs.State.{Valid};
ghost use Rattle.step_model.specs.Answers.{IsWanted, KeepsBy, RefusesBy};
ghost use Rattle.snapshot_pull.specs.Pulls.{pull_case};

use crate::early::pull_early;
use command_value::Follow;
use control_stanza::Text;
use machine_state::{ChangeFault, State};
use query_eval::Patterns;
use std::alloc::Global;
use step_model::{Reading, prepared_all};

/// What is to be read for a pull in a valid state, which is nothing, or the first refusal that holds before anything is read. The patterns of
/// its queries are built, and the first that can't be is told: as `PatternTooLarge` only where `patterns` refused its text for its size in
/// this call.
#[tactic(auto, unfolding(crate::specs::Pulls::pull_case))]
pub fn pull_needs<M: Patterns>(
    alloc: Global,
    state: &State,
    follow: &Follow,
    name: &Text,
    source: &Text,
    destination: &Text,
    queries: &[Text],
    patterns: &mut M,
) -> Result<Reading, ChangeFault>
    ensures ok { (dry : Option Bool) (flags : PullFlagsOf) → Valid state.now → IfOk result (IsWanted None (pull_case state.now dry flags (plain_follow follow.now) name.now source.now destination.now queries.now)) }
    ensures fault { (dry : Option Bool) (flags : PullFlagsOf) → Valid state.now → IfErr result (RefusesBy M.Patterns patterns.old patterns.new (pull_case state.now dry flags (plain_follow follow.now) name.now source.now destination.now queries.now)) }
    ensures never_falls { M.refusals patterns.old ≤ M.refusals patterns.new }
    // Which text was refused for its size changes only where such a pattern is told.
    ensures kept { KeepsBy M.Patterns patterns.old patterns.new result }
{
    pull_early(alloc, state, follow, name, source, destination)?;
    prepared_all(alloc, queries, patterns)?;
    Ok(Reading::Nothing)
}
