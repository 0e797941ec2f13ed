//! Mirrors that have another name, or are no more.
ghost use Rattle.std.specs.Prelude.{◌≡◌, List, ℕ, IfOk, IfErr, OnOk, None};
ghost use Rattle.command_value.specs.Plain.{MirrorCommand, plain, of_mirror};
ghost use Rattle.machine_state.specs.Ascending.{IsAscending};
ghost use Rattle.machine_state.specs.Named.{renamed};
ghost use Rattle.machine_state.specs.State.{Valid, mirror_cmp, mirror_name};
ghost use Rattle.machine_state.specs.declared.arrived.Arrived.{Arrived};
ghost use Rattle.step_model.specs.Answers.{ChangesTo, FaultIs, IsNew, IsRefusedFor};
ghost use Rattle.mirror_ops.specs.Cases.{IsDrop, IsRename, called, drop_case, mirror_case, mirror_renamed_in, rename_case, without_mirror};

use crate::early::{name_early, rename_early};
use ap_text::Name;
use command_value::Command;
use control_stanza::Text;
use machine_state::{Change, ChangeFault, Mirror, Refusal, State, put_named, take_named};
use query_eval::Patterns;
use reply_text::{mirror_dropped, mirror_renamed};
use std::alloc::{AllocError, Global};

/// The same mirror under another name.
fn under(mirror: Mirror, name: Name) -> Mirror
    ensures { result ≡ called mirror name }
{
    let mut mirror = mirror;
    mirror.name = name;
    mirror
}

/// Gives the mirror of the first name the second, and the place of that.
fn rename_mirror(mirrors: &mut Vec<Mirror>, before: &Name, after: Name) -> Result<(), AllocError>
    ensures { IsAscending mirror_cmp mirrors.old.items → OnOk result (mirrors.new.items ≡ renamed mirror_name called before.now after mirrors.old.items) }
{
    match take_named(mirrors, before) {
        None => Ok(()),
        Some(mirror) => put_named(mirrors, under(mirror, after)),
    }
}

/// The state where a mirror has another name.
fn renamed_state(
    alloc: Global,
    state: &State,
    before: &Name,
    after: Name,
) -> Result<State, AllocError>
    ensures { Valid state.now → IfOk result (λ new. new ≡ mirror_renamed_in state.now before.now after) }
{
    let mut state = state.copy(alloc)?;
    rename_mirror(&mut state.mirrors, before, after)?;
    Ok(state)
}

fn rename_named(alloc: Global, state: &State, from: &Text, to: &Text) -> Result<Change, ChangeFault>
    ensures ok { (arrived : Arrived) → Valid state.now → IfOk result (ChangesTo state.now (rename_case state.now from.now to.now) arrived) }
    ensures fault { (arrived : Arrived) → Valid state.now → IfErr result (FaultIs (IsRefusedFor None (rename_case state.now from.now to.now) arrived)) }
    ensures new { Valid state.now → IfOk result (λ change. IsNew state.now change.state) }
{
    let (before, after) = rename_early(alloc, state, from, to)?;
    let reply = mirror_renamed(alloc, &before, &after)?;
    Ok(Change {
        state: Some(renamed_state(alloc, state, &before, after)?),
        reply,
    })
}

/// `mirror rename`: a mirror has another name. It needs a command of that verb.
pub fn rename<M: Patterns>(
    alloc: Global,
    state: &State,
    command: &Command,
    _patterns: &mut M,
) -> Result<Change, ChangeFault>
    ensures ok { (c : MirrorCommand) (arrived : Arrived) → plain command.now ≡ of_mirror c → IsRename c → Valid state.now → IfOk result (ChangesTo state.now (mirror_case state.now c) arrived) }
    ensures fault { (c : MirrorCommand) (arrived : Arrived) → plain command.now ≡ of_mirror c → IsRename c → Valid state.now → IfErr result (FaultIs (IsRefusedFor None (mirror_case state.now c) arrived)) }
    // A state that is told is another one.
    ensures new { Valid state.now → IfOk result (λ change. IsNew state.now change.state) }
    ensures untouched { _patterns.new ≡ _patterns.old }
{
    match command {
        Command::MirrorRename { from_name, to_name } => {
            rename_named(alloc, state, from_name, to_name)
        }
        _ => Err(ChangeFault::Refused(Refusal::NotBuilt)),
    }
}

/// The state without the mirror of that name.
fn state_without(alloc: Global, state: &State, name: &Name) -> Result<State, AllocError>
    ensures { Valid state.now → IfOk result (λ new. new ≡ without_mirror state.now name.now) }
{
    let mut state = state.copy(alloc)?;
    take_named(&mut state.mirrors, name);
    Ok(state)
}

fn drop_named(alloc: Global, state: &State, name: &Text) -> Result<Change, ChangeFault>
    ensures ok { (arrived : Arrived) → Valid state.now → IfOk result (ChangesTo state.now (drop_case state.now name.now) arrived) }
    ensures fault { (arrived : Arrived) → Valid state.now → IfErr result (FaultIs (IsRefusedFor None (drop_case state.now name.now) arrived)) }
    ensures new { Valid state.now → IfOk result (λ change. IsNew state.now change.state) }
{
    let name = name_early(alloc, state, name)?;
    let reply = mirror_dropped(alloc, &name)?;
    Ok(Change {
        state: Some(state_without(alloc, state, &name)?),
        reply,
    })
}

/// `mirror drop`: a mirror is no more. What it fetched stays known. It needs a command of that verb.
pub fn drop<M: Patterns>(
    alloc: Global,
    state: &State,
    command: &Command,
    _patterns: &mut M,
) -> Result<Change, ChangeFault>
    ensures ok { (c : MirrorCommand) (arrived : Arrived) → plain command.now ≡ of_mirror c → IsDrop c → Valid state.now → IfOk result (ChangesTo state.now (mirror_case state.now c) arrived) }
    ensures fault { (c : MirrorCommand) (arrived : Arrived) → plain command.now ≡ of_mirror c → IsDrop c → Valid state.now → IfErr result (FaultIs (IsRefusedFor None (mirror_case state.now c) arrived)) }
    // A state that is told is another one.
    ensures new { Valid state.now → IfOk result (λ change. IsNew state.now change.state) }
    ensures untouched { _patterns.new ≡ _patterns.old }
{
    match command {
        Command::MirrorDrop { name } => drop_named(alloc, state, name),
        _ => Err(ChangeFault::Refused(Refusal::NotBuilt)),
    }
}
