//! What a command comes to: what it needs is read, and its step is made.
ghost use Rattle.std.specs.Prelude.{◌≡◌, ◌≤◌, ℕ, ℤ, List, None, Option, IfOk, IsSome};
ghost use Rattle.ap_host.specs.Calls.{CauseOf};
ghost use Rattle.ap_host.specs.Changes.{GoesOn};
ghost use Rattle.command_words.specs.Plain.{plain};
ghost use Rattle.machine_state.specs.State.{Valid};
ghost use Rattle.step_model.specs.Answers.{IsNew, Told, ToldBy};
ghost use Rattle.step_model.specs.declared.reading.Reading.TheVariants as readings;
ghost use Rattle.machine_step.specs.Answers.{seen};
ghost use Rattle.step_model.specs.Refuses.{IsReadable};
ghost use Rattle.machine_step.specs.Step.{MayArrive, NoArchive, Step, giving, read_for};
ghost use Rattle.aptly_core.specs.declared.fault.RunFault.TheVariants.{HostFault, InboxFault};
ghost use Rattle.aptly_core.specs.Arrives.{Arrives, Decides, IsReading, ReadsSo, arrived_of};

use crate::fault::RunFault;
use ap_host::{Host, Inbox};
use ap_text::Name;
use command_words::Command;
use local_repo::add;
use machine_state::{Arrived, ChangeFault, Kind, Refusal, State, UpdateFault};
use machine_step::{Outcome, Reading, need, step_at};
use mirror_update::update;
use query_eval::Patterns;
use stage_file::Stage;
use std::alloc::Global;

/// A refusal of what was read has arrived too.
fn arrived_of(given: Result<Arrived, UpdateFault>) -> Result<Arrived, RunFault>
    ensures { result ≡ arrived_of given }
{
    match given {
        Ok(arrived) => Ok(arrived),
        Err(UpdateFault::Refused(refusal)) => Ok(Arrived::Refused(refusal)),
        Err(UpdateFault::HostFault) => Err(RunFault::HostFault),
        Err(UpdateFault::InboxFault) => Err(RunFault::InboxFault),
        Err(UpdateFault::OutOfMemory) => Err(RunFault::OutOfMemory),
    }
}

/// Reads what a command needs that reads no archive.
fn arrive<H: Host, I: Inbox>(
    alloc: Global,
    host: &mut H,
    inbox: &mut I,
    stage: &mut Stage,
    state: &State,
    reading: Reading,
) -> Result<Arrived, RunFault>
    ensures arrived { (now : ℤ) (large : Option (List ℕ)) → Valid state.now → IsReadable reading → IfOk result (MayArrive (giving (I.map inbox.old) now) large state.now reading) }
    ensures log { GoesOn (H.log host.old) (H.log host.new) (Arrives (I.map inbox.old) state.now reading stage.old stage.new result) }
    ensures map { I.map inbox.new ≡ I.map inbox.old }
    ensures host_cause { CauseOf HostFault (H.faults host.old) (H.faults host.new) result }
    ensures inbox_cause { CauseOf InboxFault (I.faults inbox.old) (I.faults inbox.new) result }
{
    match reading {
        Reading::Nothing => Ok(Arrived::Nothing),
        Reading::Mirror(_) => Ok(Arrived::Nothing),
        Reading::Folder(name, folder) => {
            arrived_of(add(alloc, host, stage, inbox, state, &name, &folder))
        }
    }
}

/// What a command that reads no archive comes to in a valid state: what this reading brings, and then its step.
fn decide_read<H: Host, I: Inbox, M: Patterns>(
    alloc: Global,
    host: &mut H,
    inbox: &mut I,
    stage: &mut Stage,
    state: &State,
    command: &Command,
    now: &i64,
    patterns: &mut M,
    reading: Reading,
) -> Result<Outcome, RunFault>
    ensures comes { NoArchive reading → Valid state.now → reading ≡ read_for now.now state.now (plain command.now) → IfOk result (λ outcome. Told (M.refusals patterns.old) (M.refusals patterns.new) (M.refused patterns.new) (λ large. Step (giving (I.map inbox.old) now.now) large state.now (plain command.now) (seen state.now outcome))) }
    ensures changed { NoArchive reading → Valid state.now → reading ≡ read_for now.now state.now (plain command.now) → IfOk result (λ outcome. IsNew state.now outcome.state) }
    ensures kept { IfOk result (λ outcome. IsSome outcome.refusal → outcome.state ≡ None) }
    ensures later { M.refusals patterns.old ≤ M.refusals patterns.new }
    ensures log { GoesOn (H.log host.old) (H.log host.new) (Decides (ReadsSo now.now state.now (plain command.now) reading) (giving (I.map inbox.old) now.now) state.now (plain command.now) stage.old stage.new result) }
    ensures map { I.map inbox.new ≡ I.map inbox.old }
    ensures host_cause { CauseOf HostFault (H.faults host.old) (H.faults host.new) result }
    ensures inbox_cause { CauseOf InboxFault (I.faults inbox.old) (I.faults inbox.new) result }
{
    let arrived = arrive(alloc, host, inbox, stage, state, reading)?;
    Ok(step_at(alloc, state, command, arrived, now, patterns)?)
}

/// What the archive of the mirror of this name brings. A mirror that isn't there is unknown.
fn fetch<H: Host, I: Inbox, M: Patterns>(
    alloc: Global,
    host: &mut H,
    inbox: &mut I,
    stage: &mut Stage,
    state: &State,
    name: Name,
    patterns: &mut M,
) -> Result<Arrived, RunFault>
    ensures arrived { (now : ℤ) → Valid state.now → IfOk result (λ arrived. ToldBy M.Patterns patterns.old patterns.new (λ large. MayArrive (giving (I.map inbox.old) now) large state.now (readings.Mirror name) arrived)) }
    ensures later { M.refusals patterns.old ≤ M.refusals patterns.new }
    ensures log { GoesOn (H.log host.old) (H.log host.new) (Arrives (I.map inbox.old) state.now (readings.Mirror name) stage.old stage.new result) }
    ensures map { I.map inbox.new ≡ I.map inbox.old }
    ensures host_cause { CauseOf HostFault (H.faults host.old) (H.faults host.new) result }
    ensures inbox_cause { CauseOf InboxFault (I.faults inbox.old) (I.faults inbox.new) result }
{
    match state.mirror(&name) {
        Some(mirror) => arrived_of(update(alloc, host, stage, inbox, state, mirror, patterns)),
        None => Ok(Arrived::Refused(Refusal::Unknown(Kind::Mirror, name))),
    }
}

/// What a command that reads the archive of the mirror of this name comes to in a valid state: where it is refused the command is, and else
/// its step is made with what arrived.
fn decide_archive<H: Host, I: Inbox, M: Patterns>(
    alloc: Global,
    host: &mut H,
    inbox: &mut I,
    stage: &mut Stage,
    state: &State,
    command: &Command,
    now: &i64,
    patterns: &mut M,
    name: Name,
) -> Result<Outcome, RunFault>
    ensures comes { Valid state.now → readings.Mirror name ≡ read_for now.now state.now (plain command.now) → IfOk result (λ outcome. Told (M.refusals patterns.old) (M.refusals patterns.new) (M.refused patterns.new) (λ large. Step (giving (I.map inbox.old) now.now) large state.now (plain command.now) (seen state.now outcome))) }
    ensures changed { Valid state.now → readings.Mirror name ≡ read_for now.now state.now (plain command.now) → IfOk result (λ outcome. IsNew state.now outcome.state) }
    ensures kept { IfOk result (λ outcome. IsSome outcome.refusal → outcome.state ≡ None) }
    ensures later { M.refusals patterns.old ≤ M.refusals patterns.new }
    ensures log { GoesOn (H.log host.old) (H.log host.new) (Decides (IsReading now.now state.now (plain command.now) (readings.Mirror name)) (giving (I.map inbox.old) now.now) state.now (plain command.now) stage.old stage.new result) }
    ensures map { I.map inbox.new ≡ I.map inbox.old }
    ensures host_cause { CauseOf HostFault (H.faults host.old) (H.faults host.new) result }
    ensures inbox_cause { CauseOf InboxFault (I.faults inbox.old) (I.faults inbox.new) result }
{
    match fetch(alloc, host, inbox, stage, state, name, patterns)? {
        Arrived::Refused(refusal) => Ok(Outcome::refused(alloc, refusal)?),
        arrived => Ok(step_at(alloc, state, command, arrived, now, patterns)?),
    }
}

/// What a command comes to in a valid state that isn't refused before anything is read: what this reading brings, and then
/// its step.
fn decide_with<H: Host, I: Inbox, M: Patterns>(
    alloc: Global,
    host: &mut H,
    inbox: &mut I,
    stage: &mut Stage,
    state: &State,
    command: &Command,
    now: &i64,
    patterns: &mut M,
    reading: Reading,
) -> Result<Outcome, RunFault>
    ensures comes { Valid state.now → reading ≡ read_for now.now state.now (plain command.now) → IfOk result (λ outcome. Told (M.refusals patterns.old) (M.refusals patterns.new) (M.refused patterns.new) (λ large. Step (giving (I.map inbox.old) now.now) large state.now (plain command.now) (seen state.now outcome))) }
    ensures changed { Valid state.now → reading ≡ read_for now.now state.now (plain command.now) → IfOk result (λ outcome. IsNew state.now outcome.state) }
    ensures kept { IfOk result (λ outcome. IsSome outcome.refusal → outcome.state ≡ None) }
    ensures later { M.refusals patterns.old ≤ M.refusals patterns.new }
    ensures log { GoesOn (H.log host.old) (H.log host.new) (Decides (IsReading now.now state.now (plain command.now) reading) (giving (I.map inbox.old) now.now) state.now (plain command.now) stage.old stage.new result) }
    ensures map { I.map inbox.new ≡ I.map inbox.old }
    ensures host_cause { CauseOf HostFault (H.faults host.old) (H.faults host.new) result }
    ensures inbox_cause { CauseOf InboxFault (I.faults inbox.old) (I.faults inbox.new) result }
{
    match reading {
        Reading::Mirror(name) => decide_archive(
            alloc, host, inbox, stage, state, command, now, patterns, name,
        ),
        other => decide_read(
            alloc, host, inbox, stage, state, command, now, patterns, other,
        ),
    }
}

/// What a command comes to in a valid state. Files that it takes in are in the pool then, and durable only after the next
/// barrier.
pub fn decide<H: Host, I: Inbox, M: Patterns>(
    alloc: Global,
    host: &mut H,
    inbox: &mut I,
    stage: &mut Stage,
    state: &State,
    command: &Command,
    now: &i64,
    patterns: &mut M,
) -> Result<Outcome, RunFault>
    ensures comes { Valid state.now → IfOk result (λ outcome. Told (M.refusals patterns.old) (M.refusals patterns.new) (M.refused patterns.new) (λ large. Step (giving (I.map inbox.old) now.now) large state.now (plain command.now) (seen state.now outcome))) }
    ensures changed { Valid state.now → IfOk result (λ outcome. IsNew state.now outcome.state) }
    ensures kept { IfOk result (λ outcome. IsSome outcome.refusal → outcome.state ≡ None) }
    ensures later { M.refusals patterns.old ≤ M.refusals patterns.new }
    ensures log { GoesOn (H.log host.old) (H.log host.new) (Decides (Valid state.now) (giving (I.map inbox.old) now.now) state.now (plain command.now) stage.old stage.new result) }
    ensures map { I.map inbox.new ≡ I.map inbox.old }
    ensures host_cause { CauseOf HostFault (H.faults host.old) (H.faults host.new) result }
    ensures inbox_cause { CauseOf InboxFault (I.faults inbox.old) (I.faults inbox.new) result }
{
    match need(alloc, state, command, patterns) {
        Ok(reading) => decide_with(
            alloc, host, inbox, stage, state, command, now, patterns, reading,
        ),
        Err(ChangeFault::Refused(refusal)) => Ok(Outcome::refused(alloc, refusal)?),
        Err(ChangeFault::OutOfMemory) => Err(RunFault::OutOfMemory),
    }
}
