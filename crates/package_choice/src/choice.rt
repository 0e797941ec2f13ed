//! What queries choose of a list.
ghost use Rattle.std.specs.Prelude.{◌≡◌, IfOk, List, ℕ, map, Ok, None, unwrap_or, false};
ghost use Rattle.command_value.specs.Plain.{plain_follow};
ghost use Rattle.depend_pull.specs.Pull.{with_what_it_needs};
ghost use Rattle.query_grammar.specs.Said.{query_of};
ghost use Rattle.package_choice.specs.Choice.{archs_for as archs_of, bad_follow, chosen_with, flags_of};

use crate::archs::archs_for;
use command_value::Follow;
use depend_pull::{PullFlags, with_deps as chosen_with_deps};
use package_list::PackageList;
use query_eval::Prepared;
use std::alloc::{AllocError, Global};
use step_model::chosen_in;

/// Which fields are followed.
fn flags_for(follow: &Follow) -> PullFlags
    ensures { result ≡ flags_of (plain_follow follow.now) }
{
    PullFlags {
        deps: true,
        remove: true,
        all_matches: true,
        recommends: follow.recommends.unwrap_or(false),
        suggests: follow.suggests.unwrap_or(false),
    }
}

/// What the queries choose, with what that needs of the list.
fn followed(
    alloc: Global,
    list: &PackageList,
    queries: &[Prepared],
    follow: &Follow,
) -> Result<PackageList, AllocError>
    requires { bad_follow (plain_follow follow.now) ≡ None }
    ensures { IfOk result (λ found. found ≡ with_what_it_needs (flags_of (plain_follow follow.now)) (archs_of (plain_follow follow.now).architectures list.now) list.now queries.now) }
{
    let archs = archs_for(alloc, follow, list)?;
    let flags = flags_for(follow);
    match chosen_with_deps(alloc, list, queries, &flags, &archs) {
        Ok(found) => Ok(found),
        Err(_) => Err(AllocError),
    }
}

/// The members of which some of the queries is true, and where `-with-deps` is set what they depend on of the list besides: what a pull onto
/// nothing takes where every match is a seed. Without it, which architectures are written and which fields are followed has no effect.
/// The architectures that are written can be listed. Fails only for want of memory.
pub fn choose(
    alloc: Global,
    list: &PackageList,
    queries: &[Prepared],
    with_deps: &Option<bool>,
    follow: &Follow,
) -> Result<PackageList, AllocError>
    requires { bad_follow (plain_follow follow.now) ≡ None }
    ensures { (texts : List (List ℕ)) → map query_of texts ≡ map Ok queries.now → IfOk result (λ found. found ≡ chosen_with (unwrap_or with_deps.now false) (plain_follow follow.now) list.now texts) }
{
    if with_deps.unwrap_or(false) {
        return followed(alloc, list, queries, follow);
    }
    chosen_in(alloc, list, queries)
}
