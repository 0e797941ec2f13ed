//! The commands of packages.
ghost use Rattle.std.specs.Prelude.{◌≡◌, ◌≤◌, ◌∷◌, List, ℕ, [], IfOk, IfErr, OnOk, None};
ghost use Rattle.command_words.specs.Plain.{OtherCommand, plain, of_other};
ghost use Rattle.package_core.specs.Card.{Card};
ghost use Rattle.query_grammar.specs.Said.{query_of};
ghost use Rattle.machine_state.specs.Values.{StateView};
ghost use Rattle.machine_state.specs.declared.arrived.Arrived.{Arrived as ArrivedOf};
ghost use Rattle.reply_text.specs.Replies.{package_search as search_line, package_show as show_line};
ghost use Rattle.step_model.specs.Answers.{AreBuilt, ChangesTo, FaultIs, IsNew, IsWanted, KeepsBy, QueriesRefuse, RefusedBy, RefusesBy, ToldBy};
ghost use Rattle.step_model.specs.Queries.{found_by};
ghost use Rattle.machine_step.specs.Step.{asking, other_case};

use command_words::Command;
use control_stanza::Text;
use machine_state::{Change, ChangeFault, Refusal, State};
use package_list::PackageList;
use query_eval::Patterns;
use reply_text::{package_search, package_show};
use std::alloc::Global;
use step_model::{Reading, found_in, prepared};

/// What is to be read for a query: nothing, where it is one and its patterns are built.
fn asking_needs<M: Patterns>(
    alloc: Global,
    query: &Text,
    patterns: &mut M,
) -> Result<Reading, ChangeFault>
    ensures ok { (state : StateView) (say : List Card → List ℕ) → IfOk result (IsWanted None (asking state query.now say)) }
    ensures fault { (state : StateView) (say : List Card → List ℕ) → IfErr result (RefusesBy M.Patterns patterns.old patterns.new (asking state query.now say)) }
    ensures never_falls { M.refusals patterns.old ≤ M.refusals patterns.new }
    ensures kept { KeepsBy M.Patterns patterns.old patterns.new result }
{
    prepared(alloc, query, patterns)?;
    Ok(Reading::Nothing)
}

/// What is to be read for a command of packages, or the first refusal that holds before anything is read.
pub(crate) fn package_needs<M: Patterns>(
    alloc: Global,
    command: &Command,
    patterns: &mut M,
) -> Result<Reading, ChangeFault>
    ensures ok { (state : StateView) (c : OtherCommand) → plain command.now ≡ of_other c → IfOk result (IsWanted None (other_case state c)) }
    ensures fault { (state : StateView) (c : OtherCommand) → plain command.now ≡ of_other c → IfErr result (RefusesBy M.Patterns patterns.old patterns.new (other_case state c)) }
    ensures never_falls { M.refusals patterns.old ≤ M.refusals patterns.new }
    ensures kept { KeepsBy M.Patterns patterns.old patterns.new result }
{
    match command {
        Command::PackageSearch { query } => asking_needs(alloc, query, patterns),
        Command::PackageShow { query } => asking_needs(alloc, query, patterns),
        _ => Err(ChangeFault::Refused(Refusal::NotBuilt)),
    }
}

/// The known packages of which the query of a text is true.
fn found<M: Patterns>(
    alloc: Global,
    state: &State,
    text: &Text,
    patterns: &mut M,
) -> Result<PackageList, ChangeFault>
    ensures found { IfOk result (λ found. found ≡ found_by state.now.known (query_of text.now)) }
    ensures good { OnOk result (AreBuilt (text.now ∷ [])) }
    ensures fault { IfErr result (FaultIs (λ refusal. ToldBy M.Patterns patterns.old patterns.new (λ large. QueriesRefuse large (text.now ∷ []) refusal))) }
    ensures never_falls { M.refusals patterns.old ≤ M.refusals patterns.new }
    ensures kept { KeepsBy M.Patterns patterns.old patterns.new result }
{
    let asked = prepared(alloc, text, patterns)?;
    Ok(found_in(alloc, &state.known, &asked)?)
}

/// `package search`.
fn search<M: Patterns>(
    alloc: Global,
    state: &State,
    query: &Text,
    patterns: &mut M,
) -> Result<Change, ChangeFault>
    ensures ok { (arrived : ArrivedOf) → IfOk result (ChangesTo state.now (asking state.now query.now search_line) arrived) }
    ensures fault { (arrived : ArrivedOf) → IfErr result (RefusedBy M.Patterns patterns.old patterns.new (asking state.now query.now search_line) arrived) }
    ensures new { IfOk result (λ change. IsNew state.now change.state) }
    ensures never_falls { M.refusals patterns.old ≤ M.refusals patterns.new }
    ensures kept { KeepsBy M.Patterns patterns.old patterns.new result }
{
    let found = found(alloc, state, query, patterns)?;
    let reply = package_search(alloc, &found)?;
    Ok(Change { state: None, reply })
}

/// `package show`.
fn show<M: Patterns>(
    alloc: Global,
    state: &State,
    query: &Text,
    patterns: &mut M,
) -> Result<Change, ChangeFault>
    ensures ok { (arrived : ArrivedOf) → IfOk result (ChangesTo state.now (asking state.now query.now show_line) arrived) }
    ensures fault { (arrived : ArrivedOf) → IfErr result (RefusedBy M.Patterns patterns.old patterns.new (asking state.now query.now show_line) arrived) }
    ensures new { IfOk result (λ change. IsNew state.now change.state) }
    ensures never_falls { M.refusals patterns.old ≤ M.refusals patterns.new }
    ensures kept { KeepsBy M.Patterns patterns.old patterns.new result }
{
    let found = found(alloc, state, query, patterns)?;
    let reply = package_show(alloc, &found)?;
    Ok(Change { state: None, reply })
}

/// What a command of packages comes to, or the first refusal that holds. None of them changes the state.
pub(crate) fn package_change<M: Patterns>(
    alloc: Global,
    state: &State,
    command: &Command,
    patterns: &mut M,
) -> Result<Change, ChangeFault>
    ensures ok { (c : OtherCommand) (arrived : ArrivedOf) → plain command.now ≡ of_other c → IfOk result (ChangesTo state.now (other_case state.now c) arrived) }
    ensures fault { (c : OtherCommand) (arrived : ArrivedOf) → plain command.now ≡ of_other c → IfErr result (RefusedBy M.Patterns patterns.old patterns.new (other_case state.now c) arrived) }
    ensures new { IfOk result (λ change. IsNew state.now change.state) }
    ensures never_falls { M.refusals patterns.old ≤ M.refusals patterns.new }
    ensures kept { KeepsBy M.Patterns patterns.old patterns.new result }
{
    match command {
        Command::PackageSearch { query } => search(alloc, state, query, patterns),
        Command::PackageShow { query } => show(alloc, state, query, patterns),
        _ => Err(ChangeFault::Refused(Refusal::NotBuilt)),
    }
}
