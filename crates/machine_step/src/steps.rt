//! One step.
ghost use Rattle.std.specs.Prelude.{◌≤◌, ◌≡◌, ℕ, ℤ, List, IfOk, IfErr, IsSome, None, Option};
ghost use Rattle.ap_host.specs.Disk.{Files};
ghost use Rattle.command_words.specs.Plain.{plain};
ghost use Rattle.machine_state.specs.State.{Valid};
ghost use Rattle.step_model.specs.Answers.{ChangesBy, IsNew, KeepsBy, RefusedBy, ToldBy};
ghost use Rattle.machine_step.specs.Answers.{seen, KeepsUnlessTold};
ghost use Rattle.machine_step.specs.Step.{ArrivesFor, case_of, giving, StepWith};

use crate::family::{Family, family_of};
use crate::outcome::Outcome;
use crate::packages::package_change;
use command_words::Command;
use machine_state::{Arrived, Change, ChangeFault, Refusal, State};
use query_eval::Patterns;
use std::alloc::{AllocError, Global};

/// What the command changes, or why it is refused.
fn change_of<M: Patterns>(
    alloc: Global,
    state: &State,
    command: &Command,
    arrived: &Arrived,
    patterns: &mut M,
) -> Result<Change, ChangeFault>
    ensures ok { (now : ℤ) (inbox : Option Files) (large : Option (List ℕ)) → Valid state.now → ArrivesFor (giving inbox now) large state.now (plain command.now) arrived.now → IfOk result (ChangesBy M.Patterns patterns.old patterns.new state.now (case_of now state.now (plain command.now)) arrived.now) }
    ensures fault { (now : ℤ) (inbox : Option Files) (large : Option (List ℕ)) → Valid state.now → ArrivesFor (giving inbox now) large state.now (plain command.now) arrived.now → IfErr result (RefusedBy M.Patterns patterns.old patterns.new (case_of now state.now (plain command.now)) arrived.now) }
    ensures new { (now : ℤ) (inbox : Option Files) (large : Option (List ℕ)) → Valid state.now → ArrivesFor (giving inbox now) large state.now (plain command.now) arrived.now → IfOk result (λ change. IsNew state.now change.state) }
    ensures never_falls { M.refusals patterns.old ≤ M.refusals patterns.new }
    ensures kept { KeepsBy M.Patterns patterns.old patterns.new result }
{
    match family_of(command) {
        Family::Repo => local_repo::change(alloc, state, command, arrived, patterns),
        Family::Snapshot => snapshot_ops::change(alloc, state, command, patterns),
        Family::Mirror => mirror_ops::change(alloc, state, command, arrived, patterns),
        Family::Other => package_change(alloc, state, command, patterns),
        _ => Err(ChangeFault::Refused(Refusal::NotBuilt)),
    }
}

/// What the command comes to in a valid state with what arrived for it: its reply and the new state, or the first refusal
/// that holds. `now` is in seconds since 1970. Fails only for want of memory.
///
/// What arrived is nothing where [`need`](crate::need) refuses or reads nothing.
pub fn step_at<M: Patterns>(
    alloc: Global,
    state: &State,
    command: &Command,
    arrived: Arrived,
    now: &i64,
    patterns: &mut M,
) -> Result<Outcome, AllocError>
    ensures step { (inbox : Option Files) (large : Option (List ℕ)) → Valid state.now → ArrivesFor (giving inbox now.now) large state.now (plain command.now) arrived → IfOk result (λ outcome. ToldBy M.Patterns patterns.old patterns.new (λ large. StepWith now.now large state.now (plain command.now) arrived (seen state.now outcome))) }
    // A state is new only where it is another one.
    ensures changed { (inbox : Option Files) (large : Option (List ℕ)) → Valid state.now → ArrivesFor (giving inbox now.now) large state.now (plain command.now) arrived → IfOk result (λ outcome. IsNew state.now outcome.state) }
    // A refused command leaves the state as it was.
    ensures kept { IfOk result (λ outcome. IsSome outcome.refusal → outcome.state ≡ None) }
    ensures never_falls { M.refusals patterns.old ≤ M.refusals patterns.new }
    // Which text was refused for its size changes only where such a pattern is told.
    ensures untold { IfOk result (λ outcome. KeepsUnlessTold (M.refused patterns.old) (M.refused patterns.new) outcome.refusal) }
{
    match change_of(alloc, state, command, &arrived, patterns) {
        Ok(change) => Ok(Outcome {
            state: change.state,
            reply: change.reply,
            refusal: None,
        }),
        Err(ChangeFault::Refused(refusal)) => Outcome::refused(alloc, refusal),
        Err(ChangeFault::OutOfMemory) => Err(AllocError),
    }
}

/// [`step_at`] with the moment by value.
pub fn step<M: Patterns>(
    alloc: Global,
    state: &State,
    command: &Command,
    arrived: Arrived,
    now: i64,
    patterns: &mut M,
) -> Result<Outcome, AllocError>
    ensures step { (inbox : Option Files) (large : Option (List ℕ)) → Valid state.now → ArrivesFor (giving inbox now) large state.now (plain command.now) arrived → IfOk result (λ outcome. ToldBy M.Patterns patterns.old patterns.new (λ large. StepWith now large state.now (plain command.now) arrived (seen state.now outcome))) }
    // A state is new only where it is another one.
    ensures changed { (inbox : Option Files) (large : Option (List ℕ)) → Valid state.now → ArrivesFor (giving inbox now) large state.now (plain command.now) arrived → IfOk result (λ outcome. IsNew state.now outcome.state) }
    // A refused command leaves the state as it was.
    ensures kept { IfOk result (λ outcome. IsSome outcome.refusal → outcome.state ≡ None) }
    ensures never_falls { M.refusals patterns.old ≤ M.refusals patterns.new }
    // Which text was refused for its size changes only where such a pattern is told.
    ensures untold { IfOk result (λ outcome. KeepsUnlessTold (M.refused patterns.old) (M.refused patterns.new) outcome.refusal) }
{
    step_at(alloc, state, command, arrived, &now, patterns)
}
