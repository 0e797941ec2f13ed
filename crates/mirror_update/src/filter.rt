//! What the filter of a mirror chooses.
ghost use Rattle.std.specs.Prelude.{◌≡◌, ◌≤◌, IfOk, IfErr, OnOk, Option, map, None, Some};
ghost use Rattle.std.specs.List.{filter};
ghost use Rattle.std.specs.Option.{option_map};
ghost use Rattle.std.specs.Rc.{rc_value};
ghost use Rattle.query_tree.specs.Tree.{Tree, plain, plains};
ghost use Rattle.query_eval.specs.Truth.{matches};
ghost use Rattle.depend_pull.specs.Pull.{with_what_it_needs};
ghost use Rattle.step_model.specs.Answers.{ToldBy};
ghost use Rattle.step_model.specs.Refuses.{IsPick};
ghost use Rattle.mirror_update.specs.Answers.{IfRefused, KeepsText, change_tells};
ghost use Rattle.mirror_update.specs.Filter.{chosen_by, conditions_of, following as follow, queries_of};

use ap_text::Name;
use depend_pull::{PullFlags, with_deps};
use machine_state::{ChangeFault, Mirror, UpdateFault};
use package_core::Package;
use package_list::{JoinedPackages, PackageList};
use query_eval::{Patterns, Prepared};
use query_tree::Query;
use std::alloc::{AllocError, Global};
use std::rc::Rc;
use step_model::prepare_queries;

/// The query that a filter is, or none.
fn query_of(alloc: Global, filter: &Option<Query>) -> Result<Vec<Query>, AllocError>
    ensures { IfOk result (λ queries. plains queries.items ≡ queries_of (option_map plain filter.now)) }
{
    let mut queries = Vec::new(alloc);
    if let Some(query) = filter {
        queries.push(query.copy(alloc)?)?;
    }
    Ok(queries)
}

/// The fault of a change, as that of an update.
fn of_change(fault: ChangeFault) -> UpdateFault
    ensures { result ≡ change_tells fault }
{
    match fault {
        ChangeFault::Refused(refusal) => UpdateFault::Refused(refusal),
        ChangeFault::OutOfMemory => UpdateFault::OutOfMemory,
    }
}

/// The filter of a mirror with its patterns built: one query, or none.
pub(crate) fn prepared<M: Patterns>(
    alloc: Global,
    mirror: &Mirror,
    patterns: &mut M,
) -> Result<Vec<Prepared>, UpdateFault>
    ensures same { IfOk result (λ made. made.items ≡ queries_of mirror.now.filter) }
    ensures read { OnOk result (IsPick None (conditions_of mirror.now) None) }
    ensures fault { IfErr result (IfRefused (λ refusal. ToldBy M.Patterns patterns.old patterns.new (λ large. IsPick large (conditions_of mirror.now) (Some refusal)))) }
    ensures never_falls { M.refusals patterns.old ≤ M.refusals patterns.new }
    ensures kept { KeepsText (M.refused patterns.old) (M.refused patterns.new) result }
{
    let queries = query_of(alloc, &mirror.filter)?;
    match prepare_queries(alloc, &queries, patterns) {
        Ok(made) => Ok(made),
        Err(fault) => Err(of_change(fault)),
    }
}

/// Which fields are followed.
fn following() -> PullFlags
    ensures { result ≡ follow }
{
    PullFlags {
        deps: true,
        remove: true,
        all_matches: true,
        recommends: false,
        suggests: false,
    }
}

/// The packages of which the query is true, in their order.
fn matching(
    alloc: Global,
    packages: &[Rc<Package>],
    query: &Prepared,
) -> Result<Vec<Rc<Package>>, AllocError>
    ensures { IfOk result (λ found. map rc_value found.items ≡ filter (matches query.now) (map rc_value packages.now)) }
{
    let mut found = Vec::new(alloc);
    for one in packages {
        if query.matches(alloc, one.as_ref())? {
            found.push(one.clone()?)?;
        }
    }
    Ok(found)
}

/// The same packages, each held once more.
fn held(alloc: Global, packages: &[Rc<Package>]) -> Result<Vec<Rc<Package>>, AllocError>
    ensures { IfOk result (λ held. map rc_value held.items ≡ map rc_value packages.now) }
{
    let mut held = Vec::with_capacity(alloc, packages.len())?;
    for one in packages {
        held.push(one.clone()?)?;
    }
    Ok(held)
}

/// The packages of a list, not shared yet.
fn unshared(alloc: Global, list: &PackageList) -> Result<Vec<Rc<Package>>, AllocError>
    ensures { IfOk result (λ made. map rc_value made.items ≡ list.now) }
{
    let mut made = Vec::with_capacity(alloc, list.len())?;
    for one in list.as_slice() {
        let package = one.as_ref().package().copy(alloc)?;
        made.push(Rc::new(alloc, package)?)?;
    }
    Ok(made)
}

/// What queries choose, with what that depends on.
fn with_needs(
    alloc: Global,
    list: &PackageList,
    queries: &[Prepared],
    archs: &[Name],
) -> Result<PackageList, AllocError>
    ensures { IfOk result (λ found. found ≡ with_what_it_needs follow archs.now list.now queries.now) }
{
    match with_deps(alloc, list, queries, &following(), archs) {
        Ok(found) => Ok(found),
        Err(_) => Err(AllocError),
    }
}

/// The same of packages that were joined. They come to be shared for it, each with its stated facts.
fn needed(
    alloc: Global,
    joined: JoinedPackages,
    queries: &[Prepared],
    archs: &[Name],
) -> Result<Vec<Rc<Package>>, AllocError>
    ensures { IfOk result (λ found. map rc_value found.items ≡ with_what_it_needs follow archs.now joined queries.now) }
{
    let list = joined.share(alloc)?;
    let found = with_needs(alloc, &list, queries, archs)?;
    unshared(alloc, &found)
}

/// The packages of which the filter is true, with what they depend on of them where that is wanted, over these architectures. Without a
/// filter they are all. Fails only for want of memory.
pub(crate) fn choose(
    alloc: Global,
    joined: JoinedPackages,
    queries: &[Prepared],
    deps: bool,
    archs: &[Name],
) -> Result<Vec<Rc<Package>>, AllocError>
    ensures { (tree : Option Tree) → queries.now ≡ queries_of tree → IfOk result (λ found. map rc_value found.items ≡ chosen_by tree deps archs.now joined) }
{
    let Some(query) = queries.first() else {
        return held(alloc, joined.as_slice());
    };
    if deps {
        return needed(alloc, joined, queries, archs);
    }
    matching(alloc, joined.as_slice(), query)
}
