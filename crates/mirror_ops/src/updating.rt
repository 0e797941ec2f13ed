//! A mirror has fetched its archive.
ghost use Rattle.std.specs.Prelude.{◌≡◌, ◌≤◌, Option, IfOk, IfErr, length};
ghost use Rattle.ap_host.specs.Disk.{Files};
ghost use Rattle.command_value.specs.Plain.{MirrorCommand, plain, of_mirror};
ghost use Rattle.machine_state.specs.State.{Valid};
ghost use Rattle.machine_state.specs.declared.fetched.Fetched.{Fetched};
ghost use Rattle.package_list.specs.Lists.{union};
ghost use Rattle.package_list.specs.declared.list.TheConstants.{MOST_KNOWN};
ghost use Rattle.mirror_update.specs.Fits.{FitsIn, updated, with_fetched};
ghost use Rattle.step_model.specs.Answers.{IsMemory, IsNew};
ghost use Rattle.mirror_ops.specs.Cases.{ChangesWith, IsUpdate, RefusesWith, mirror_case, update_case};
ghost use Rattle.mirror_ops.specs.Updates.{Has, IsOneWith, TakesIn, fetched_in, fetched_of, has_fetched as has_fetched_of, same_members as same_members_of};

use crate::early::named_mirror;
use command_value::Command;
use control_stanza::Text;
use machine_state::{
    Arrived, Change, ChangeFault, Fetched, Limit, Mirror, Refusal, State, set_named,
};
use mirror_update::archives_fit;
use package_core::compare_packages;
use package_list::{ListFault, PackageList};
use query_eval::Patterns;
use reply_text::mirror_updated;
use std::alloc::{AllocError, Global};

/// Whether both lists have equal members, one by one. It is one pass over both, and takes no memory.
fn same_members(list: &PackageList, other: &PackageList) -> bool
    ensures { result ≡ same_members_of list.now other.now }
{
    let members = list.as_slice();
    let others = other.as_slice();
    if members.len() != others.len() {
        return false;
    }
    for i in 0..members.len() {
        if compare_packages(members[i].package(), others[i].package()).is_ne() {
            return false;
        }
    }
    true
}

/// Whether the mirror has fetched just this already.
fn has_fetched(mirror: &Mirror, list: &PackageList, date: &Text) -> bool
    ensures { result ≡ has_fetched_of mirror.now.updated (fetched_of list.now date.now) }
{
    match &mirror.updated {
        None => false,
        Some(old) => old.date.as_str() == date.as_str() && same_members(&old.list, list),
    }
}

/// The mirror with what it has fetched.
fn fetched_by(
    alloc: Global,
    mirror: &Mirror,
    list: &PackageList,
    date: &Text,
) -> Result<Mirror, AllocError>
    ensures { IfOk result (λ made. made ≡ with_fetched (fetched_of list.now date.now) mirror.now) }
{
    let mut made = mirror.copy(alloc)?;
    made.updated = Some(Fetched {
        date: date.copy(alloc)?,
        list: list.copy(alloc)?,
    });
    Ok(made)
}

/// All of what is known and of the list.
fn joined(
    alloc: Global,
    known: &PackageList,
    list: &PackageList,
) -> Result<PackageList, ChangeFault>
    ensures same { IfOk result (λ all. all ≡ union known.now list.now) }
    ensures fits { length (union known.now list.now) ≤ MOST_KNOWN → IfErr result IsMemory }
{
    let mut all = known.copy(alloc)?;
    match all.join_known(alloc, list) {
        Ok(()) => Ok(all),
        Err(ListFault::OutOfMemory) => Err(ChangeFault::OutOfMemory),
        Err(_) => Err(ChangeFault::Refused(Refusal::Limit(Limit::Known))),
    }
}

/// The state with this mirror in the place of that of its name.
fn with_mirror(alloc: Global, state: &State, made: Mirror) -> Result<State, AllocError>
    ensures { (fetched : Fetched) → Valid state.now → IsOneWith state.now fetched made → IfOk result (λ new. new ≡ fetched_in state.now made.name fetched) }
{
    let mut state = state.copy(alloc)?;
    set_named(&mut state.mirrors, made);
    Ok(state)
}

/// The state in which the mirror, which is one of it, has fetched this.
fn state_with(
    alloc: Global,
    state: &State,
    mirror: &Mirror,
    list: &PackageList,
    date: &Text,
) -> Result<State, ChangeFault>
    ensures same { Valid state.now → Has state.now mirror.now → IfOk result (λ made. made ≡ updated state.now mirror.now.name (fetched_of list.now date.now)) }
    ensures fits { length (union state.now.known list.now) ≤ MOST_KNOWN → IfErr result IsMemory }
{
    let known = joined(alloc, &state.known, list)?;
    let fetched = fetched_by(alloc, mirror, list, date)?;
    let mut made = with_mirror(alloc, state, fetched)?;
    made.known = known;
    Ok(made)
}

/// The mirror, which is one of the state, has fetched what arrived. Where it has fetched just this already the state stays as it was.
fn take_in(
    alloc: Global,
    state: &State,
    mirror: &Mirror,
    list: &PackageList,
    date: &Text,
) -> Result<Change, ChangeFault>
    ensures taken { let fetched = fetched_of list.now date.now in Valid state.now → Has state.now mirror.now → FitsIn state.now mirror.now.name fetched → TakesIn state.now mirror.now fetched result }
    ensures fits { FitsIn state.now mirror.now.name (fetched_of list.now date.now) → IfErr result IsMemory }
    ensures new { Valid state.now → Has state.now mirror.now → IfOk result (λ change. IsNew state.now change.state) }
{
    let reply = mirror_updated(alloc, &mirror.name, list.len() as u64)?;
    if has_fetched(mirror, list, date) {
        return Ok(Change { state: None, reply });
    }
    Ok(Change {
        state: Some(state_with(alloc, state, mirror, list, date)?),
        reply,
    })
}

/// The mirror of that name has fetched what arrived of its archive.
fn update_named(
    alloc: Global,
    state: &State,
    name: &Text,
    arrived: &Arrived,
) -> Result<Change, ChangeFault>
    ensures ok { (inbox : Option Files) → ChangesWith inbox state.now (update_case state.now name.now) arrived.now result }
    ensures fault { (inbox : Option Files) → RefusesWith inbox state.now (update_case state.now name.now) arrived.now result }
    ensures new { Valid state.now → IfOk result (λ change. IsNew state.now change.state) }
{
    archives_fit();
    let mirror = named_mirror(alloc, state, name)?;
    match arrived {
        Arrived::Nothing => Err(ChangeFault::Refused(Refusal::NotBuilt)),
        Arrived::Refused(refusal) => Err(ChangeFault::Refused(refusal.copy(alloc)?)),
        Arrived::List { list, date } => take_in(alloc, state, mirror, list, date),
    }
}

/// `mirror update`: a mirror has fetched what arrived of its archive, and the packages are known. Where it has fetched just this already the
/// state stays as it was. A refusal that arrived is the command's. It needs a command of that verb.
pub fn update<M: Patterns>(
    alloc: Global,
    state: &State,
    command: &Command,
    arrived: &Arrived,
    _patterns: &mut M,
) -> Result<Change, ChangeFault>
    ensures ok { (c : MirrorCommand) (inbox : Option Files) → plain command.now ≡ of_mirror c → IsUpdate c → ChangesWith inbox state.now (mirror_case state.now c) arrived.now result }
    ensures fault { (c : MirrorCommand) (inbox : Option Files) → plain command.now ≡ of_mirror c → IsUpdate c → RefusesWith inbox state.now (mirror_case state.now c) arrived.now result }
    // A state that is told is another one.
    ensures new { Valid state.now → IfOk result (λ change. IsNew state.now change.state) }
    ensures untouched { _patterns.new ≡ _patterns.old }
{
    match command {
        Command::MirrorUpdate { name } => update_named(alloc, state, name, arrived),
        _ => Err(ChangeFault::Refused(Refusal::NotBuilt)),
    }
}
