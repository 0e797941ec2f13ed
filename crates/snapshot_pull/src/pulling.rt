//! `snapshot pull`.
ghost use Rattle.std.specs.Prelude.{◌≡◌, ◌≤◌, List, ℕ, Bool, Option, IfOk, IfErr, None};
ghost use Rattle.command_value.specs.Plain.{PlainFollow, plain, plain_follow, of_snapshot, snapshot_pull};
ghost use Rattle.machine_state.specs.State.{Valid};
ghost use Rattle.machine_state.specs.declared.arrived.Arrived.{Arrived};
ghost use Rattle.step_model.specs.Answers.{ChangesTo, IsNew, KeepsBy, RefusedBy};
ghost use Rattle.snapshot_pull.specs.Pulls.{flags_of, pull_case};

use crate::early::pull_early;
use crate::onto::pull_onto;
use command_value::{Command, Follow};
use control_stanza::Text;
use depend_pull::PullFlags;
use machine_state::{Change, ChangeFault, Refusal, State};
use query_eval::Patterns;
use std::alloc::Global;
use step_model::prepared_all;

/// What a pull is asked for by its flags. One that isn't written asks for nothing.
fn flags_for(
    all_matches: &Option<bool>,
    no_deps: &Option<bool>,
    no_remove: &Option<bool>,
    follow: &Follow,
) -> PullFlags
    ensures { result ≡ flags_of all_matches.now no_deps.now no_remove.now (plain_follow follow.now) }
{
    PullFlags {
        deps: !no_deps.unwrap_or(false),
        remove: !no_remove.unwrap_or(false),
        all_matches: all_matches.unwrap_or(false),
        recommends: follow.recommends.unwrap_or(false),
        suggests: follow.suggests.unwrap_or(false),
    }
}

/// Pulls what the queries take of one snapshot onto another.
#[tactic(auto, unfolding(crate::specs::Pulls::pull_case))]
fn pull_named<M: Patterns>(
    alloc: Global,
    state: &State,
    dry_run: &Option<bool>,
    flags: &PullFlags,
    follow: &Follow,
    name: &Text,
    source: &Text,
    destination: &Text,
    queries: &[Text],
    patterns: &mut M,
) -> Result<Change, ChangeFault>
    ensures ok { (arrived : Arrived) → Valid state.now → IfOk result (ChangesTo state.now (pull_case state.now dry_run.now flags.now (plain_follow follow.now) name.now source.now destination.now queries.now) arrived) }
    ensures fault { (arrived : Arrived) → Valid state.now → IfErr result (RefusedBy M.Patterns patterns.old patterns.new (pull_case state.now dry_run.now flags.now (plain_follow follow.now) name.now source.now destination.now queries.now) arrived) }
    ensures new { Valid state.now → IfOk result (λ change. IsNew state.now change.state) }
    ensures never_falls { M.refusals patterns.old ≤ M.refusals patterns.new }
    ensures kept { KeepsBy M.Patterns patterns.old patterns.new result }
{
    let (base, from, to) = pull_early(alloc, state, follow, name, source, destination)?;
    let asked = prepared_all(alloc, queries, patterns)?;
    let dry = dry_run.unwrap_or(false);
    pull_onto(
        alloc, state, dry, flags, follow, &base.list, &from.list, to, &asked,
    )
}

/// `snapshot pull`: a new snapshot of what another has, once what queries take of a source came to it, with what that depends on. With
/// `-dry-run` nothing is made, and it is told what would go and what would come. It needs a command of that verb.
pub fn pull<M: Patterns>(
    alloc: Global,
    state: &State,
    command: &Command,
    patterns: &mut M,
) -> Result<Change, ChangeFault>
    ensures ok { (all dry no_deps no_remove : Option Bool) (follow : PlainFollow) (name source destination : List ℕ) (queries : List (List ℕ)) → plain command.now ≡ of_snapshot (snapshot_pull all dry no_deps no_remove follow name source destination queries) → (arrived : Arrived) → Valid state.now → IfOk result (ChangesTo state.now (pull_case state.now dry (flags_of all no_deps no_remove follow) follow name source destination queries) arrived) }
    ensures fault { (all dry no_deps no_remove : Option Bool) (follow : PlainFollow) (name source destination : List ℕ) (queries : List (List ℕ)) → plain command.now ≡ of_snapshot (snapshot_pull all dry no_deps no_remove follow name source destination queries) → (arrived : Arrived) → Valid state.now → IfErr result (RefusedBy M.Patterns patterns.old patterns.new (pull_case state.now dry (flags_of all no_deps no_remove follow) follow name source destination queries) arrived) }
    // A state that is told is another one.
    ensures new { Valid state.now → IfOk result (λ change. IsNew state.now change.state) }
    ensures never_falls { M.refusals patterns.old ≤ M.refusals patterns.new }
    // Which text was refused for its size changes only where such a pattern is told.
    ensures kept { KeepsBy M.Patterns patterns.old patterns.new result }
{
    match command {
        Command::SnapshotPull {
            all_matches,
            dry_run,
            no_deps,
            no_remove,
            follow,
            name,
            source,
            destination,
            queries,
        } => pull_named(
            alloc,
            state,
            dry_run,
            &flags_for(all_matches, no_deps, no_remove, follow),
            follow,
            name,
            source,
            destination,
            queries,
            patterns,
        ),
        _ => Err(ChangeFault::Refused(Refusal::NotBuilt)),
    }
}
