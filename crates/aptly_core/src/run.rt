//! Runs of commands over a store.
ghost use Rattle.std.specs.Prelude.{◌≡◌, ◌≢◌, ◌≤◌, ℕ, List, ◌∷◌, Option, IfOk, IfErr, OnOk, Err, map, codes};
ghost use Rattle.ap_host.specs.declared.host.HostErr.TheVariants as HostErr;
ghost use Rattle.ap_host.specs.Calls.{CauseOf, HasCause, Rose};
ghost use Rattle.ap_host.specs.Changes.{GoesOn};
ghost use Rattle.command_words.specs.Commands as spelled;
ghost use Rattle.command_words.specs.Commands.{IsUsagePlace, is_first};
ghost use Rattle.command_words.specs.Fault.{IsAt};
ghost use Rattle.command_words.specs.Plain.{PlainCommand, plain};
ghost use Rattle.machine_state.specs.declared.refusal.Refusal.TheVariants.{BadPattern, NotBuilt, PatternTooLarge};
ghost use Rattle.machine_state.specs.State.{Valid};
ghost use Rattle.query_eval.specs.Build.{IsNoPattern};
ghost use Rattle.step_model.specs.Answers.{IsTold};
ghost use Rattle.machine_step.specs.Causes.{IsUnbuilt};
ghost use Rattle.machine_step.specs.Step.{giving};
ghost use Rattle.aptly_core.specs.declared.fault.RunFault.TheVariants.{HostFault, InboxFault};
ghost use Rattle.aptly_core.specs.declared.status.Status.TheVariants as Status;
ghost use Rattle.catalogue_root.specs.declared.damage.LoadFault.TheVariants as LoadFault;
ghost use Rattle.catalogue_root.specs.declared.damage.Damage.{Damage};
ghost use Rattle.catalogue_root.specs.Loads.{IsDifference};
ghost use Rattle.aptly_core.specs.Calls.{asked, Called, CalledWith, IsUsageAnswer, SaysUsage, TellsUsage};
ghost use Rattle.aptly_core.specs.Causes.{AsksFor, HasCondition};
ghost use Rattle.aptly_core.specs.Opens.{RunsClaimed, IsClaimedStatus, IsFault, status_of_load};
ghost use Rattle.aptly_core.specs.Runs.{RunsOne, RunsList, ComesTo, EndsFrom, EndsWith, IsEnd, IsRunStatus, Turns, TurnComes, IsTurnEnd, status_of_fault, next_of_done};
ghost use Rattle.aptly_core.specs.Status.{status_of_host};

use crate::decide::decide;
use crate::fault::RunFault;
use crate::status::Status;
use ap_host::{Host, HostErr, Inbox};
use catalogue_root::{LoadFault, enter, open_store, save};
use command_words::{Command, WordFault, Words, read_words};
use machine_state::{Refusal, State};
use query_eval::Patterns;
use reply_text::usage_line;
use stage_file::Stage;
use std::alloc::Global;

/// Runs one command in a valid state, at this moment.
fn run_in<H: Host, I: Inbox, M: Patterns>(
    alloc: Global,
    host: &mut H,
    inbox: &mut I,
    stage: &mut Stage,
    state: State,
    command: &Command,
    now: &i64,
    patterns: &mut M,
) -> Result<(State, Option<Refusal>), RunFault>
    ensures comes { Valid state → IfOk result (ComesTo (giving (I.map inbox.old) now.now) (IsTold (M.refusals patterns.old) (M.refusals patterns.new) (M.refused patterns.new)) state (plain command.now)) }
    ensures log { GoesOn (H.log host.old) (H.log host.new) (RunsOne (giving (I.map inbox.old) now.now) (IsTold (M.refusals patterns.old) (M.refusals patterns.new) (M.refused patterns.new)) state (plain command.now) stage.old stage.new result) }
    ensures host_cause { CauseOf HostFault (H.faults host.old) (H.faults host.new) result }
    ensures inbox_cause { CauseOf InboxFault (I.faults inbox.old) (I.faults inbox.new) result }
    ensures map { I.map inbox.new ≡ I.map inbox.old }
    ensures later { M.refusals patterns.old ≤ M.refusals patterns.new }
{
    let outcome = decide(alloc, host, inbox, stage, &state, command, now, patterns)?;
    save(alloc, host, stage, &state, &outcome.state)?;
    host.say(outcome.reply.as_str().as_bytes())?;
    Ok((outcome.state.unwrap_or(state), outcome.refusal))
}

/// Runs one command in a valid state: its step, its commit where the state changes, and its reply. `now` is in seconds since
/// 1970. A refusal is a reply too. `HostFault` comes only where a call of the host failed, and `InboxFault` only where one of
/// the inbox did.
pub fn run_one<H: Host, I: Inbox, M: Patterns>(
    alloc: Global,
    host: &mut H,
    inbox: &mut I,
    stage: &mut Stage,
    state: State,
    command: &Command,
    now: i64,
    patterns: &mut M,
) -> Result<(State, Option<Refusal>), RunFault>
    ensures comes { Valid state → IfOk result (ComesTo (giving (I.map inbox.old) now) (IsTold (M.refusals patterns.old) (M.refusals patterns.new) (M.refused patterns.new)) state (plain command.now)) }
    ensures log { GoesOn (H.log host.old) (H.log host.new) (RunsOne (giving (I.map inbox.old) now) (IsTold (M.refusals patterns.old) (M.refusals patterns.new) (M.refused patterns.new)) state (plain command.now) stage.old stage.new result) }
    ensures host_cause { CauseOf HostFault (H.faults host.old) (H.faults host.new) result }
    ensures inbox_cause { CauseOf InboxFault (I.faults inbox.old) (I.faults inbox.new) result }
    ensures map { I.map inbox.new ≡ I.map inbox.old }
    ensures later { M.refusals patterns.old ≤ M.refusals patterns.new }
{
    run_in(alloc, host, inbox, stage, state, command, &now, patterns)
}

/// How a call ends whose host gave this error.
fn status_of_host(error: HostErr) -> Status
    ensures value { result ≡ status_of_host error }
    ensures host { result ≡ Status.HostFault → error ≡ HostErr.Failed }
    ensures fault { IsFault result }
{
    match error {
        HostErr::Failed => Status::HostFault,
        HostErr::OutOfMemory => Status::OutOfMemory,
    }
}

/// How a list ends with a command that broke off.
fn status_of(fault: RunFault) -> Status
    ensures { result ≡ status_of_fault fault }
{
    match fault {
        RunFault::HostFault => Status::HostFault,
        RunFault::InboxFault => Status::InboxFault,
        RunFault::OutOfMemory => Status::OutOfMemory,
    }
}

/// The next state, or the status of a refusal.
fn next_of(done: (State, Option<Refusal>)) -> Result<State, Status>
    ensures { result ≡ next_of_done done }
{
    let (state, refusal) = done;
    match refusal {
        None => Ok(state),
        Some(refusal) => Err(Status::Refused(refusal)),
    }
}

/// Runs one command of a list: gives the next state, or the status that ends the list.
fn turn<H: Host, I: Inbox, M: Patterns>(
    alloc: Global,
    host: &mut H,
    inbox: &mut I,
    stage: &mut Stage,
    state: State,
    command: &Command,
    now: &i64,
    patterns: &mut M,
) -> Result<State, Status>
    ensures comes { Valid state → TurnComes (giving (I.map inbox.old) now.now) (IsTold (M.refusals patterns.old) (M.refusals patterns.new) (M.refused patterns.new)) state (plain command.now) result }
    ensures log { GoesOn (H.log host.old) (H.log host.new) (Turns (giving (I.map inbox.old) now.now) (IsTold (M.refusals patterns.old) (M.refusals patterns.new) (M.refused patterns.new)) state (plain command.now) stage.old stage.new result) }
    ensures host_later { H.faults host.old ≤ H.faults host.new }
    ensures host_fault { result ≡ Err Status.HostFault → Rose (H.faults host.old) (H.faults host.new) }
    ensures inbox_later { I.faults inbox.old ≤ I.faults inbox.new }
    ensures inbox_fault { result ≡ Err Status.InboxFault → Rose (I.faults inbox.old) (I.faults inbox.new) }
    ensures map { I.map inbox.new ≡ I.map inbox.old }
    ensures later { M.refusals patterns.old ≤ M.refusals patterns.new }
    ensures only { IfErr result IsTurnEnd }
{
    match run_in(alloc, host, inbox, stage, state, command, now, patterns) {
        Ok(done) => next_of(done),
        Err(fault) => Err(status_of(fault)),
    }
}

/// Runs commands in turn, up to the first refused one.
fn run_list<H: Host, I: Inbox, M: Patterns>(
    alloc: Global,
    host: &mut H,
    inbox: &mut I,
    stage: &mut Stage,
    state: State,
    commands: &[Command],
    now: &i64,
    patterns: &mut M,
) -> Status
    ensures comes { Valid state → EndsWith (giving (I.map inbox.old) now.now) (IsTold (M.refusals patterns.old) (M.refusals patterns.new) (M.refused patterns.new)) state (map plain commands.now) result }
    ensures log { GoesOn (H.log host.old) (H.log host.new) (RunsList (giving (I.map inbox.old) now.now) (IsTold (M.refusals patterns.old) (M.refusals patterns.new) (M.refused patterns.new)) state (map plain commands.now) stage.old result) }
    ensures host_later { H.faults host.old ≤ H.faults host.new }
    ensures host_fault { result ≡ Status.HostFault → Rose (H.faults host.old) (H.faults host.new) }
    ensures inbox_later { I.faults inbox.old ≤ I.faults inbox.new }
    ensures inbox_fault { result ≡ Status.InboxFault → Rose (I.faults inbox.old) (I.faults inbox.new) }
    ensures only { IsRunStatus result }
{
    let mut state = state;
    for command in commands {
        match turn(alloc, host, inbox, stage, state, command, now, patterns) {
            Ok(next) => state = next,
            Err(end) => return end,
        }
    }
    Status::Done
}

/// How a call ends whose store gave no state.
fn status_of_load(fault: LoadFault) -> Status
    ensures value { result ≡ status_of_load fault }
    ensures damaged { (damage : Damage) → result ≡ Status.Damaged damage → fault ≡ LoadFault.Damaged damage }
    ensures host { result ≡ Status.HostFault → fault ≡ LoadFault.HostFault }
    ensures inbox { result ≡ Status.InboxFault → ⊥ }
    ensures only { IsClaimedStatus result }
{
    match fault {
        LoadFault::Damaged(damage) => Status::Damaged(damage),
        LoadFault::HostFault => Status::HostFault,
        LoadFault::OutOfMemory => Status::OutOfMemory,
    }
}

/// Opens a store that was claimed, and runs the commands.
fn run_claimed<H: Host, I: Inbox, M: Patterns>(
    alloc: Global,
    host: &mut H,
    inbox: &mut I,
    commands: &[Command],
    now: &i64,
    patterns: &mut M,
) -> Status
    ensures ended { IsEnd result → EndsFrom (giving (I.map inbox.old) now.now) (IsTold (M.refusals patterns.old) (M.refusals patterns.new) (M.refused patterns.new)) (map plain commands.now) result }
    ensures log { GoesOn (H.log host.old) (H.log host.new) (RunsClaimed (giving (I.map inbox.old) now.now) (IsTold (M.refusals patterns.old) (M.refusals patterns.new) (M.refused patterns.new)) (map plain commands.now) result) }
    ensures host_later { H.faults host.old ≤ H.faults host.new }
    ensures host_fault { result ≡ Status.HostFault → Rose (H.faults host.old) (H.faults host.new) }
    ensures inbox_later { I.faults inbox.old ≤ I.faults inbox.new }
    ensures inbox_fault { result ≡ Status.InboxFault → Rose (I.faults inbox.old) (I.faults inbox.new) }
    ensures differs { (damage : Damage) → result ≡ Status.Damaged damage → IsDifference damage }
    ensures only { IsClaimedStatus result }
{
    let mut stage = Stage::new(alloc);
    match open_store(alloc, host, &mut stage) {
        Ok(state) => run_list(
            alloc, host, inbox, &mut stage, state, commands, now, patterns,
        ),
        Err(fault) => status_of_load(fault),
    }
}

/// The call of commands.
fn run_commands<H: Host, I: Inbox, M: Patterns>(
    alloc: Global,
    host: &mut H,
    inbox: &mut I,
    commands: &[Command],
    now: &i64,
    patterns: &mut M,
) -> Status
    ensures ended { IsEnd result → EndsFrom (giving (I.map inbox.old) now.now) (IsTold (M.refusals patterns.old) (M.refusals patterns.new) (M.refused patterns.new)) (map plain commands.now) result }
    ensures log { GoesOn (H.log host.old) (H.log host.new) (Called (giving (I.map inbox.old) now.now) (IsTold (M.refusals patterns.old) (M.refusals patterns.new) (M.refused patterns.new)) (map plain commands.now) result) }
    ensures host_later { H.faults host.old ≤ H.faults host.new }
    ensures host_fault { result ≡ Status.HostFault → Rose (H.faults host.old) (H.faults host.new) }
    ensures inbox_later { I.faults inbox.old ≤ I.faults inbox.new }
    ensures inbox_fault { result ≡ Status.InboxFault → Rose (I.faults inbox.old) (I.faults inbox.new) }
    ensures differs { (damage : Damage) → result ≡ Status.Damaged damage → IsDifference damage }
    ensures only { (place : ℕ) → result ≡ Status.Usage place → ⊥ }
{
    match enter(host) {
        Ok(true) => run_claimed(alloc, host, inbox, commands, now, patterns),
        Ok(false) => Status::Busy,
        Err(error) => status_of_host(error),
    }
}

/// The call of commands at this moment.
fn run_now<H: Host, I: Inbox, M: Patterns>(
    alloc: Global,
    host: &mut H,
    inbox: &mut I,
    commands: &[Command],
    now: i64,
    patterns: &mut M,
) -> Status
    ensures ended { IsEnd result → EndsFrom (giving (I.map inbox.old) now) (IsTold (M.refusals patterns.old) (M.refusals patterns.new) (M.refused patterns.new)) (map plain commands.now) result }
    ensures log { GoesOn (H.log host.old) (H.log host.new) (Called (giving (I.map inbox.old) now) (IsTold (M.refusals patterns.old) (M.refusals patterns.new) (M.refused patterns.new)) (map plain commands.now) result) }
    ensures host_later { H.faults host.old ≤ H.faults host.new }
    ensures host_fault { result ≡ Status.HostFault → Rose (H.faults host.old) (H.faults host.new) }
    ensures inbox_later { I.faults inbox.old ≤ I.faults inbox.new }
    ensures inbox_fault { result ≡ Status.InboxFault → Rose (I.faults inbox.old) (I.faults inbox.new) }
    ensures differs { (damage : Damage) → result ≡ Status.Damaged damage → IsDifference damage }
    ensures only { (place : ℕ) → result ≡ Status.Usage place → ⊥ }
{
    run_commands(alloc, host, inbox, commands, &now, patterns)
}

/// Says the usage line.
fn say_usage<H: Host>(alloc: Global, host: &mut H, place: u64) -> Result<(), HostErr>
    ensures log { GoesOn (H.log host.old) (H.log host.new) (λ l. SaysUsage place result) }
    ensures cause { HasCause (H.faults host.old) (H.faults host.new) result }
{
    let line = usage_line(alloc, place)?;
    host.say(line.as_str().as_bytes())
}

/// The call of words that spell no commands.
fn tell_usage<H: Host>(alloc: Global, host: &mut H, place: u64) -> Status
    ensures place { (p : ℕ) → result ≡ Status.Usage p → p ≡ place }
    ensures log { GoesOn (H.log host.old) (H.log host.new) (λ l. TellsUsage place result) }
    ensures host_later { H.faults host.old ≤ H.faults host.new }
    ensures host_fault { result ≡ Status.HostFault → Rose (H.faults host.old) (H.faults host.new) }
    ensures only { IsUsageAnswer result }
{
    match say_usage(alloc, host, place) {
        Ok(()) => Status::Usage(place),
        Err(error) => status_of_host(error),
    }
}

fn is_demo(words: &Words) -> bool
    ensures { result ≡ is_first (codes "demo") words.now }
{
    match words.as_slice() {
        [first, ..] => first.as_str() == "demo",
        [] => false,
    }
}

/// The commands that the words ask for. As long as its archive isn't made, `demo` is one command that isn't built.
fn asked(alloc: Global, words: &Words) -> Result<Vec<Command>, WordFault>
    ensures read { IfOk result (λ cs. asked words.now ≡ Option.Some (map plain cs.items)) }
    ensures spelled { OnOk result (spelled.commands words.now ≢ Option.None) }
    ensures fault { IfErr result (IsAt (IsUsagePlace words.now)) }
{
    let commands = read_words(alloc, words)?;
    if !is_demo(words) {
        return Ok(commands);
    }
    let mut one = Vec::new(alloc);
    one.push(Command::DbCleanup)?;
    Ok(one)
}

/// One call of the program. It claims the store, makes what it holds durable, loads it, and runs the commands that the words
/// spell, in turn up to the first refused one; each is committed before its reply is said. Words that spell no commands have
/// the usage line said, and nothing else is done. `now` is in seconds since 1970.
///
/// Whatever moment the call is stopped at, the store then stands for the state after some first commands, each that was
/// answered among them, and the next call goes on from there.
pub fn aptly<H: Host, I: Inbox, M: Patterns>(
    alloc: Global,
    words: &Words,
    now: i64,
    host: &mut H,
    inbox: &mut I,
    patterns: &mut M,
) -> Status
    // What the call did, on a host that tells its log.
    ensures log { GoesOn (H.log host.old) (H.log host.new) (CalledWith words.now (giving (I.map inbox.old) now) (IsTold (M.refusals patterns.old) (M.refusals patterns.new) (M.refused patterns.new)) (Rose (H.faults host.old) (H.faults host.new)) (Rose (I.faults inbox.old) (I.faults inbox.new)) result) }
    // On every host: a call that ended came from a valid state, and ends as the commands say from there.
    ensures ended { IsEnd result → (commands : List PlainCommand) × (asked words.now ≡ Option.Some commands) × EndsFrom (giving (I.map inbox.old) now) (IsTold (M.refusals patterns.old) (M.refusals patterns.new) (M.refused patterns.new)) commands result }
    // A pattern is told to be too large only where the builder refused a text for its size in this call, and the text that it
    // refused last is that of this condition of a command that the words ask for.
    ensures too_large { (query : ℕ) (test : ℕ) → result ≡ Status.Refused (PatternTooLarge query test) → (text : List ℕ) × IsTold (M.refusals patterns.old) (M.refusals patterns.new) (M.refused patterns.new) (Option.Some text) × AsksFor words.now (HasCondition query test text) }
    // One is told to be bad only where the text of this condition is no pattern, or is nested too deep.
    ensures no_pattern { (query : ℕ) (test : ℕ) → result ≡ Status.Refused (BadPattern query test) → (text : List ℕ) × IsNoPattern text × AsksFor words.now (HasCondition query test text) }
    // A call is refused as not built only where a command isn't; where all commands were done each is, and where the first
    // isn't, a call that ends is refused so.
    ensures not_built { result ≡ Status.Refused NotBuilt → AsksFor words.now IsUnbuilt }
    ensures all_built { result ≡ Status.Done → AsksFor words.now IsUnbuilt → ⊥ }
    ensures unbuilt_first { IsEnd result → (first : PlainCommand) (rest : List PlainCommand) → asked words.now ≡ Option.Some (first ∷ rest) → IsUnbuilt first → result ≡ Status.Refused NotBuilt }
    // On every host: the usage place is the words'.
    ensures usage_place { (place : ℕ) → result ≡ Status.Usage place → IsUsagePlace words.now place }
    // And words that spell no commands are answered so, but for a fault of the host or want of memory.
    ensures usage_complete { spelled.commands words.now ≡ Option.None → IsUsageAnswer result }
    // On every host: what a damage tells to be found is another value than is said.
    ensures differs { (damage : Damage) → result ≡ Status.Damaged damage → IsDifference damage }
    // Faults are told only where their count rose.
    ensures host_fault { result ≡ Status.HostFault → Rose (H.faults host.old) (H.faults host.new) }
    ensures inbox_fault { result ≡ Status.InboxFault → Rose (I.faults inbox.old) (I.faults inbox.new) }
    ensures host_later { H.faults host.old ≤ H.faults host.new }
    ensures inbox_later { I.faults inbox.old ≤ I.faults inbox.new }
{
    match asked(alloc, words) {
        Ok(commands) => run_now(alloc, host, inbox, &commands, now, patterns),
        Err(WordFault::At { place }) => tell_usage(alloc, host, place),
        Err(WordFault::OutOfMemory) => Status::OutOfMemory,
    }
}
