//! The queries of a command: read, prepared, and asked of packages.
ghost use Rattle.std.specs.Prelude.{◌≡◌, ◌≤◌, ◌∷◌, ℕ, List, [], map, IfOk, IfErr, OnOk, None, Some, Ok};
ghost use Rattle.std.specs.List.{filter};
ghost use Rattle.query_tree.specs.Tree.{plain, plains};
ghost use Rattle.query_grammar.specs.Said.{query_of};
ghost use Rattle.query_eval.specs.Conditions.{patterns_of};
ghost use Rattle.query_eval.specs.Truth.{matches};
ghost use Rattle.step_model.specs.Answers.{AreBuilt, FaultIs, IsFirst, KeepsBy, QueriesRefuse, ToldBy};
ghost use Rattle.step_model.specs.Case.{bad_query, bad_queries, conditions_behind, numbered};
ghost use Rattle.step_model.specs.Queries.{chosen};
ghost use Rattle.step_model.specs.Refuses.{IsPick};

use control_stanza::Text;
use machine_state::{ChangeFault, Refusal};
use package_list::PackageList;
use query_eval::{EvalFault, Patterns, Prepared, is_any_true};
use query_grammar::{Query, QueryFault, read_query};
use std::alloc::{AllocError, Global};

/// The query that a text spells, which has this number among those of its command.
fn read(alloc: Global, text: &Text, number: u64) -> Result<Query, ChangeFault>
    ensures fault { IfErr result (IsFirst (bad_query number (query_of text.now))) }
    ensures tree { IfOk result (λ query. query_of text.now ≡ Ok (plain query)) }
{
    match read_query(alloc, text.as_str()) {
        Ok(query) => Ok(query),
        Err(QueryFault::At { place, .. }) => Err(ChangeFault::Refused(Refusal::BadQuery {
            query: number,
            place,
        })),
        Err(QueryFault::OutOfMemory) => Err(ChangeFault::OutOfMemory),
    }
}

/// The queries that the texts of a command spell, in their order. The first text that spells none is refused with its number,
/// counted from 1, and the place of its fault.
pub fn read_queries(alloc: Global, texts: &[Text]) -> Result<Vec<Query>, ChangeFault>
    ensures trees { IfOk result (λ queries. map query_of texts.now ≡ map Ok (plains queries.items)) }
    ensures good { OnOk result (bad_queries texts.now ≡ None) }
    ensures fault { IfErr result (IsFirst (bad_queries texts.now)) }
{
    let mut queries = Vec::new(alloc);
    for i in 0..texts.len() {
        queries.push(read(alloc, &texts[i], i as u64 + 1)?)?;
    }
    Ok(queries)
}

/// The query with its patterns built, which has this number among those of its command.
fn built<M: Patterns>(
    alloc: Global,
    query: &Query,
    number: u64,
    patterns: &mut M,
) -> Result<Prepared, ChangeFault>
    ensures same { IfOk result (λ made. made ≡ plain query.now) }
    ensures read { OnOk result (IsPick None (numbered number 0 (patterns_of (plain query.now))) None) }
    ensures fault { IfErr result (FaultIs (λ refusal. ToldBy M.Patterns patterns.old patterns.new (λ large. IsPick large (numbered number 0 (patterns_of (plain query.now))) (Some refusal)))) }
    ensures never_falls { M.refusals patterns.old ≤ M.refusals patterns.new }
    ensures kept { KeepsBy M.Patterns patterns.old patterns.new result }
{
    match Prepared::new(alloc, query, patterns) {
        Ok(prepared) => Ok(prepared),
        Err(EvalFault::BadPattern(test)) => Err(ChangeFault::Refused(Refusal::BadPattern {
            query: number,
            test,
        })),
        Err(EvalFault::PatternTooLarge(test)) => Err(ChangeFault::Refused(
            Refusal::PatternTooLarge {
                query: number,
                test,
            },
        )),
        Err(EvalFault::OutOfMemory) => Err(ChangeFault::OutOfMemory),
    }
}

/// The queries of a command with their patterns built, in their order. The first `~` condition that can't be built is refused,
/// with the number of its query and its own there: as `PatternTooLarge` only where `patterns` refused its text for its size in
/// this call.
pub fn prepare_queries<M: Patterns>(
    alloc: Global,
    queries: &[Query],
    patterns: &mut M,
) -> Result<Vec<Prepared>, ChangeFault>
    ensures same { IfOk result (λ made. made.items ≡ plains queries.now) }
    ensures read { OnOk result (IsPick None (conditions_behind 0 (map Ok (plains queries.now))) None) }
    ensures fault { IfErr result (FaultIs (λ refusal. ToldBy M.Patterns patterns.old patterns.new (λ large. IsPick large (conditions_behind 0 (map Ok (plains queries.now))) (Some refusal)))) }
    ensures never_falls { M.refusals patterns.old ≤ M.refusals patterns.new }
    // Which text was refused for its size changes only where such a pattern is told.
    ensures kept { KeepsBy M.Patterns patterns.old patterns.new result }
{
    let mut made = Vec::new(alloc);
    for i in 0..queries.len() {
        made.push(built(alloc, &queries[i], i as u64 + 1, patterns)?)?;
    }
    Ok(made)
}

/// The only query of a command, read and with its patterns built.
pub fn prepared<M: Patterns>(
    alloc: Global,
    text: &Text,
    patterns: &mut M,
) -> Result<Prepared, ChangeFault>
    ensures same { IfOk result (λ made. query_of text.now ≡ Ok made) }
    ensures good { OnOk result (AreBuilt (text.now ∷ [])) }
    ensures fault { IfErr result (FaultIs (λ refusal. ToldBy M.Patterns patterns.old patterns.new (λ large. QueriesRefuse large (text.now ∷ []) refusal))) }
    ensures never_falls { M.refusals patterns.old ≤ M.refusals patterns.new }
    // Which text was refused for its size changes only where such a pattern is told.
    ensures kept { KeepsBy M.Patterns patterns.old patterns.new result }
{
    let query = read(alloc, text, 1)?;
    built(alloc, &query, 1, patterns)
}

/// The queries of a command, read and with their patterns built, in their order. All are read before the first pattern is built:
/// the first text that spells no query is refused with its number, counted from 1, and the place of its fault; and else the first
/// `~` condition that can't be built.
pub fn prepared_all<M: Patterns>(
    alloc: Global,
    texts: &[Text],
    patterns: &mut M,
) -> Result<Vec<Prepared>, ChangeFault>
    ensures same { IfOk result (λ made. map query_of texts.now ≡ map Ok made.items) }
    ensures good { OnOk result (AreBuilt texts.now) }
    ensures fault { IfErr result (FaultIs (λ refusal. ToldBy M.Patterns patterns.old patterns.new (λ large. QueriesRefuse large texts.now refusal))) }
    ensures never_falls { M.refusals patterns.old ≤ M.refusals patterns.new }
    // Which text was refused for its size changes only where such a pattern is told.
    ensures kept { KeepsBy M.Patterns patterns.old patterns.new result }
{
    let queries = read_queries(alloc, texts)?;
    prepare_queries(alloc, &queries, patterns)
}

/// The members of which the query is true, in the order of the list. Fails only for want of memory.
pub fn found_in(
    alloc: Global,
    list: &PackageList,
    asked: &Prepared,
) -> Result<PackageList, AllocError>
    ensures { IfOk result (λ found. found ≡ filter (matches asked.now) list.now) }
{
    list.members_ascend();
    let mut found = Vec::new(alloc);
    for candidate in list.as_slice() {
        if asked.matches(alloc, candidate.package())? {
            found.push(candidate.clone()?)?;
        }
    }
    Ok(PackageList::from_ascending(found))
}

/// The members of which some query of a command is true, in the order of the list. Fails only for want of memory.
pub fn chosen_in(
    alloc: Global,
    list: &PackageList,
    asked: &[Prepared],
) -> Result<PackageList, AllocError>
    ensures { (queries : List (List ℕ)) → map query_of queries ≡ map Ok asked.now → IfOk result (λ found. found ≡ chosen list.now queries) }
{
    list.members_ascend();
    let mut found = Vec::new(alloc);
    for candidate in list.as_slice() {
        if is_any_true(alloc, asked, candidate.package())? {
            found.push(candidate.clone()?)?;
        }
    }
    Ok(PackageList::from_ascending(found))
}
