//! What a pull makes of a base and a source.
ghost use Rattle.std.specs.Prelude.{◌≡◌, List, ℕ, Ok, Err, true, false, IfOk, IfErr, OnOk, None, length, map};
ghost use Rattle.command_value.specs.Plain.{plain_follow};
ghost use Rattle.depend_pull.specs.Pull.{pull_answer, pulled as pulled_of, taken as taken_by};
ghost use Rattle.machine_state.specs.State.{Valid};
ghost use Rattle.package_core.specs.Card.{Card};
ghost use Rattle.package_choice.specs.Choice.{bad_follow};
ghost use Rattle.package_list.specs.Lists.{without};
ghost use Rattle.query_grammar.specs.Said.{query_of};
ghost use Rattle.reply_text.specs.DryRuns.{dry_run_of};
ghost use Rattle.step_model.specs.Answers.{came, FaultIs, IsNew};
ghost use Rattle.step_model.specs.Case.{refuses};
ghost use Rattle.snapshot_pull.specs.Pulls.{became as became_in, pull_refused, pulled_onto, taken_for};
ghost use Rattle.snapshot_pull.specs.Replies.{snapshot_pulled as pulled_line};
ghost use Rattle.snapshot_pull.specs.Snapshots.{taken};

use crate::making::{made, room, too_long};
use crate::replies::snapshot_pulled;
use ap_text::Name;
use command_value::Follow;
use control_stanza::Text;
use depend_pull::{PullFlags, Pulled, pull_set};
use machine_state::{Change, ChangeFault, Refusal, State};
use package_choice::archs_for_both;
use package_list::{ListFault, PackageList};
use query_eval::Prepared;
use reply_text::dry_run_reply;
use std::alloc::{AllocError, Global};

/// What is pulled of the source onto the base. It is refused where the base can't take it.
fn pulled(
    alloc: Global,
    state: &State,
    base: &PackageList,
    source: &PackageList,
    asked: &[Prepared],
    flags: &PullFlags,
    archs: &[Name],
) -> Result<Pulled, ChangeFault>
    ensures list { IfOk result (λ made. made.list ≡ pulled_of flags.now.remove base.now (taken_by flags.now archs.now base.now source.now asked.now)) }
    ensures added { IfOk result (λ made. made.added ≡ without made.list base.now) }
    ensures removed { IfOk result (λ made. made.removed ≡ without base.now made.list) }
    ensures good { OnOk result (pull_answer flags.now.remove base.now (taken_by flags.now archs.now base.now source.now asked.now) ≡ Ok tt) }
    ensures fault { IfErr result (FaultIs (λ refusal. pull_refused state.now (pull_answer flags.now.remove base.now (taken_by flags.now archs.now base.now source.now asked.now)) ≡ Err refusal)) }
{
    match pull_set(alloc, base, source, asked, flags, archs) {
        Ok(made) => Ok(made),
        Err(ListFault::Conflict(triple)) => Err(ChangeFault::Refused(Refusal::Conflict(triple))),
        Err(ListFault::Full) => Err(ChangeFault::Refused(too_long(state))),
        Err(ListFault::OutOfMemory) => Err(ChangeFault::OutOfMemory),
    }
}

/// What is said of a pull in a dry run.
fn dry_reply(alloc: Global, change: &Pulled) -> Result<Text, AllocError>
    ensures { IfOk result (λ text. text ≡ dry_run_of change.now.removed change.now.added) }
{
    dry_run_reply(alloc, change.removed.as_slice(), change.added.as_slice())
}

/// What is said of a pull that made a snapshot of this name.
fn made_reply(alloc: Global, name: &Name, change: &Pulled) -> Result<Text, AllocError>
    ensures { IfOk result (λ text. text ≡ pulled_line name.now (length change.now.list) (length change.now.added) (length change.now.removed)) }
{
    snapshot_pulled(
        alloc,
        name,
        change.list.len() as u64,
        change.added.len() as u64,
        change.removed.len() as u64,
    )
}

/// Tells what would go and what would come. It is refused where there is no room for a snapshot more.
fn told(alloc: Global, state: &State, change: &Pulled) -> Result<Change, ChangeFault>
    ensures comes { (base : List Card) (destination : List ℕ) → change.now.added ≡ without change.now.list base → change.now.removed ≡ without base change.now.list → IfOk result (λ told. became_in state.now true destination base change.now.list ≡ came state.now told) }
    ensures fault { (base : List Card) (destination : List ℕ) → IfErr result (FaultIs (λ refusal. became_in state.now true destination base change.now.list ≡ refuses refusal)) }
    ensures new { IfOk result (λ told. IsNew state.now told.state) }
{
    room(state)?;
    let reply = dry_reply(alloc, change)?;
    Ok(Change { state: None, reply })
}

/// Makes the snapshot, and tells how many packages came and went.
fn kept(
    alloc: Global,
    state: &State,
    destination: Name,
    change: Pulled,
) -> Result<Change, ChangeFault>
    ensures comes { (base : List Card) → Valid state.now → change.added ≡ without change.list base → change.removed ≡ without base change.list → IfOk result (λ told. became_in state.now false destination base change.list ≡ came state.now told) }
    ensures fault { (base : List Card) → change.added ≡ without change.list base → change.removed ≡ without base change.list → IfErr result (FaultIs (λ refusal. became_in state.now false destination base change.list ≡ refuses refusal)) }
    ensures new { taken state.now.snapshots destination ≡ None → Valid state.now → IfOk result (λ told. IsNew state.now told.state) }
{
    let reply = made_reply(alloc, &destination, &change)?;
    made(alloc, state, destination, change.list, reply)
}

/// What becomes of a pull: a new snapshot, or in a dry run what is told of it.
fn became(
    alloc: Global,
    state: &State,
    dry_run: bool,
    destination: Name,
    change: Pulled,
) -> Result<Change, ChangeFault>
    ensures comes { (base : List Card) → Valid state.now → change.added ≡ without change.list base → change.removed ≡ without base change.list → IfOk result (λ told. became_in state.now dry_run destination base change.list ≡ came state.now told) }
    ensures fault { (base : List Card) → change.added ≡ without change.list base → change.removed ≡ without base change.list → IfErr result (FaultIs (λ refusal. became_in state.now dry_run destination base change.list ≡ refuses refusal)) }
    ensures new { taken state.now.snapshots destination ≡ None → Valid state.now → IfOk result (λ told. IsNew state.now told.state) }
{
    if dry_run {
        return told(alloc, state, &change);
    }
    kept(alloc, state, destination, change)
}

/// Pulls what the queries take of the source onto the base, with the architectures that are written or else those of both.
pub(crate) fn pull_onto(
    alloc: Global,
    state: &State,
    dry_run: bool,
    flags: &PullFlags,
    follow: &Follow,
    base: &PackageList,
    source: &PackageList,
    destination: Name,
    asked: &[Prepared],
) -> Result<Change, ChangeFault>
    requires { bad_follow (plain_follow follow.now) ≡ None }
    ensures comes { (queries : List (List ℕ)) → map query_of queries ≡ map Ok asked.now → Valid state.now → IfOk result (λ told. pulled_onto state.now dry_run flags.now.remove destination base.now (taken_for flags.now (plain_follow follow.now).architectures base.now source.now queries) ≡ came state.now told) }
    ensures fault { (queries : List (List ℕ)) → map query_of queries ≡ map Ok asked.now → IfErr result (FaultIs (λ refusal. pulled_onto state.now dry_run flags.now.remove destination base.now (taken_for flags.now (plain_follow follow.now).architectures base.now source.now queries) ≡ refuses refusal)) }
    ensures new { taken state.now.snapshots destination ≡ None → Valid state.now → IfOk result (λ told. IsNew state.now told.state) }
{
    let archs = archs_for_both(alloc, follow, base, source)?;
    let change = pulled(alloc, state, base, source, asked, flags, &archs)?;
    became(alloc, state, dry_run, destination, change)
}
