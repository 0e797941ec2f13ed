//! What queries choose of a snapshot.
ghost use Rattle.std.specs.Prelude.{◌≡◌, ◌≤◌, ◌∷◌, [], List, ℕ, Bool, false, Option, IfOk, IfErr, None, Ok, unwrap_or};
ghost use Rattle.command_value.specs.Plain.{PlainFollow, plain, plain_follow, of_snapshot, snapshot_filter, snapshot_search};
ghost use Rattle.package_choice.specs.Choice.{bad_follow, chosen_with};
ghost use Rattle.query_grammar.specs.Said.{query_of};
ghost use Rattle.step_model.specs.Answers.{KeepsText};
ghost use Rattle.snapshot_ops.specs.Answers.{IsDone, IsOther, IsRefusedTold};
ghost use Rattle.snapshot_ops.specs.Cases.{filter_case, search_case, snapshot_case};

use crate::creation::created;
use crate::early::{filter_early, search_early};
use command_value::{Command, Follow};
use control_stanza::Text;
use machine_state::{Change, ChangeFault, Refusal, State};
use package_choice::choose;
use package_list::PackageList;
use query_eval::{Patterns, Prepared};
use reply_text::package_search;
use std::alloc::{AllocError, Global};
use step_model::{prepared, prepared_all};

/// Makes a snapshot of what queries choose of another.
fn filter_chosen<M: Patterns>(
    alloc: Global,
    state: &State,
    with_deps: &Option<bool>,
    follow: &Follow,
    source: &Text,
    destination: &Text,
    queries: &[Text],
    patterns: &mut M,
) -> Result<Change, ChangeFault>
    ensures ok { IsDone state.now (filter_case state.now with_deps.now (plain_follow follow.now) source.now destination.now queries.now) result }
    ensures fault { IsRefusedTold state.now (filter_case state.now with_deps.now (plain_follow follow.now) source.now destination.now queries.now) (M.refusals patterns.old) (M.refusals patterns.new) (M.refused patterns.new) result }
    ensures new { IsOther state.now result }
    ensures never_falls { M.refusals patterns.old ≤ M.refusals patterns.new }
    ensures kept { KeepsText (M.refused patterns.old) (M.refused patterns.new) result }
{
    let (snapshot, name) = filter_early(alloc, state, follow, source, destination)?;
    let asked = prepared_all(alloc, queries, patterns)?;
    let list = choose(alloc, &snapshot.list, &asked, with_deps, follow)?;
    created(alloc, state, name, list)
}

/// `snapshot filter`: a new snapshot of the packages of another of which some query is true, with `-with-deps` together with what they
/// depend on of it. It needs a command of that verb.
pub fn filter<M: Patterns>(
    alloc: Global,
    state: &State,
    command: &Command,
    patterns: &mut M,
) -> Result<Change, ChangeFault>
    ensures ok { (deps : Option Bool) (follow : PlainFollow) (source destination : List ℕ) (queries : List (List ℕ)) → plain command.now ≡ of_snapshot (snapshot_filter deps follow source destination queries) → IsDone state.now (snapshot_case state.now (snapshot_filter deps follow source destination queries)) result }
    ensures fault { (deps : Option Bool) (follow : PlainFollow) (source destination : List ℕ) (queries : List (List ℕ)) → plain command.now ≡ of_snapshot (snapshot_filter deps follow source destination queries) → IsRefusedTold state.now (snapshot_case state.now (snapshot_filter deps follow source destination queries)) (M.refusals patterns.old) (M.refusals patterns.new) (M.refused patterns.new) result }
    // A state that is told is another one.
    ensures new { IsOther state.now result }
    ensures never_falls { M.refusals patterns.old ≤ M.refusals patterns.new }
    // Which text was refused for its size changes only where such a pattern is told.
    ensures kept { KeepsText (M.refused patterns.old) (M.refused patterns.new) result }
{
    match command {
        Command::SnapshotFilter {
            with_deps,
            follow,
            source,
            destination,
            queries,
        } => filter_chosen(
            alloc,
            state,
            with_deps,
            follow,
            source,
            destination,
            queries,
            patterns,
        ),
        _ => Err(ChangeFault::Refused(Refusal::NotBuilt)),
    }
}

/// What a query chooses of a list.
fn found(
    alloc: Global,
    list: &PackageList,
    query: Prepared,
    with_deps: &Option<bool>,
    follow: &Follow,
) -> Result<PackageList, AllocError>
    requires { bad_follow (plain_follow follow.now) ≡ None }
    ensures { (text : List ℕ) → query_of text ≡ Ok query → IfOk result (λ found. found ≡ chosen_with (unwrap_or with_deps.now false) (plain_follow follow.now) list.now (text ∷ [])) }
{
    let asked = [query];
    choose(alloc, list, &asked, with_deps, follow)
}

/// Tells what a query chooses of a snapshot.
fn search_named<M: Patterns>(
    alloc: Global,
    state: &State,
    with_deps: &Option<bool>,
    follow: &Follow,
    name: &Text,
    query: &Text,
    patterns: &mut M,
) -> Result<Change, ChangeFault>
    ensures ok { IsDone state.now (search_case state.now with_deps.now (plain_follow follow.now) name.now query.now) result }
    ensures fault { IsRefusedTold state.now (search_case state.now with_deps.now (plain_follow follow.now) name.now query.now) (M.refusals patterns.old) (M.refusals patterns.new) (M.refused patterns.new) result }
    ensures new { IsOther state.now result }
    ensures never_falls { M.refusals patterns.old ≤ M.refusals patterns.new }
    ensures kept { KeepsText (M.refused patterns.old) (M.refused patterns.new) result }
{
    let snapshot = search_early(alloc, state, follow, name)?;
    let asked = prepared(alloc, query, patterns)?;
    let chosen = found(alloc, &snapshot.list, asked, with_deps, follow)?;
    let reply = package_search(alloc, &chosen)?;
    Ok(Change { state: None, reply })
}

/// `snapshot search`: the packages of a snapshot of which the query is true, with `-with-deps` together with what they depend on of it.
/// It needs a command of that verb.
pub fn search<M: Patterns>(
    alloc: Global,
    state: &State,
    command: &Command,
    patterns: &mut M,
) -> Result<Change, ChangeFault>
    ensures ok { (deps : Option Bool) (follow : PlainFollow) (name query : List ℕ) → plain command.now ≡ of_snapshot (snapshot_search deps follow name query) → IsDone state.now (snapshot_case state.now (snapshot_search deps follow name query)) result }
    ensures fault { (deps : Option Bool) (follow : PlainFollow) (name query : List ℕ) → plain command.now ≡ of_snapshot (snapshot_search deps follow name query) → IsRefusedTold state.now (snapshot_case state.now (snapshot_search deps follow name query)) (M.refusals patterns.old) (M.refusals patterns.new) (M.refused patterns.new) result }
    ensures new { IsOther state.now result }
    ensures never_falls { M.refusals patterns.old ≤ M.refusals patterns.new }
    // Which text was refused for its size changes only where such a pattern is told.
    ensures kept { KeepsText (M.refused patterns.old) (M.refused patterns.new) result }
{
    match command {
        Command::SnapshotSearch {
            with_deps,
            follow,
            name,
            query,
        } => search_named(alloc, state, with_deps, follow, name, query, patterns),
        _ => Err(ChangeFault::Refused(Refusal::NotBuilt)),
    }
}
