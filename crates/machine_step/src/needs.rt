//! What a command needs before it can be done.
ghost use Rattle.std.specs.Prelude.{◌≡◌, ◌≤◌, ℤ, IfOk, IfErr, None};
ghost use Rattle.command_words.specs.Plain.{plain};
ghost use Rattle.machine_state.specs.State.{Valid};
ghost use Rattle.step_model.specs.Answers.{KeepsBy, RefusesBy};
ghost use Rattle.step_model.specs.Refuses.{Refuses};
ghost use Rattle.machine_step.specs.Step.{case_of, read_for};

use crate::family::{Family, family_of};
use crate::packages::package_needs;
use command_words::Command;
use machine_state::{ChangeFault, Refusal, State};
use query_eval::Patterns;
use std::alloc::Global;
use step_model::Reading;

/// What is to be read for a command in a valid state, or the first refusal that holds before anything is read.
///
/// The patterns of a query are built, and the first that can't be is told: as `PatternTooLarge` only where `patterns` refused
/// its text for its size in this call. Whether there is room for what a command makes is asked by [`step`](crate::step) alone.
pub fn need<M: Patterns>(
    alloc: Global,
    state: &State,
    command: &Command,
    patterns: &mut M,
) -> Result<Reading, ChangeFault>
    ensures ok { (now : ℤ) → Valid state.now → IfOk result (λ wanted. Refuses None (case_of now state.now (plain command.now)) None × (wanted ≡ read_for now state.now (plain command.now))) }
    ensures fault { (now : ℤ) → Valid state.now → IfErr result (RefusesBy M.Patterns patterns.old patterns.new (case_of now state.now (plain command.now))) }
    ensures never_falls { M.refusals patterns.old ≤ M.refusals patterns.new }
    // Which text was refused for its size changes only where such a pattern is told.
    ensures kept { KeepsBy M.Patterns patterns.old patterns.new result }
{
    match family_of(command) {
        Family::Repo => local_repo::needs(alloc, state, command, patterns),
        Family::Snapshot => snapshot_ops::needs(alloc, state, command, patterns),
        Family::Mirror => mirror_ops::needs(alloc, state, command, patterns),
        Family::Other => package_needs(alloc, command, patterns),
        _ => Err(ChangeFault::Refused(Refusal::NotBuilt)),
    }
}
