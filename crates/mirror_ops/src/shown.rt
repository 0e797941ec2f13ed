//! Mirrors that are listed and shown.
ghost use Rattle.std.specs.Prelude.{◌≡◌, List, ℕ, Bool, false, Option, IfOk, IfErr, None, unwrap_or};
ghost use Rattle.command_value.specs.Plain.{MirrorCommand, plain, of_mirror, mirror_list as listed};
ghost use Rattle.machine_state.specs.State.{Valid};
ghost use Rattle.machine_state.specs.declared.arrived.Arrived.{Arrived};
ghost use Rattle.step_model.specs.Answers.{ChangesTo, FaultIs, IsMemory, IsNew, IsRefusedFor};
ghost use Rattle.mirror_ops.specs.Cases.{IsShow, mirror_case, show_case};

use crate::early::named_mirror;
use command_value::Command;
use control_stanza::Text;
use machine_state::{Change, ChangeFault, Refusal, State};
use query_eval::Patterns;
use reply_text::{mirror_list, mirror_show};
use std::alloc::Global;

/// `mirror list`: each mirror with the count of its packages. It fails only for want of memory.
pub fn list(alloc: Global, state: &State) -> Result<Change, ChangeFault>
    ensures ok { (arrived : Arrived) → IfOk result (ChangesTo state.now (mirror_case state.now listed) arrived) }
    ensures fault { IfErr result IsMemory }
    ensures new { IfOk result (λ change. IsNew state.now change.state) }
{
    let reply = mirror_list(alloc, state)?;
    Ok(Change { state: None, reply })
}

/// Shows a mirror, and its packages where they are asked for.
fn show_named(
    alloc: Global,
    state: &State,
    with_packages: &Option<bool>,
    name: &Text,
) -> Result<Change, ChangeFault>
    ensures ok { (arrived : Arrived) → Valid state.now → IfOk result (ChangesTo state.now (show_case state.now (unwrap_or with_packages.now false) name.now) arrived) }
    ensures fault { (arrived : Arrived) → Valid state.now → IfErr result (FaultIs (IsRefusedFor None (show_case state.now (unwrap_or with_packages.now false) name.now) arrived)) }
    ensures new { IfOk result (λ change. IsNew state.now change.state) }
{
    let mirror = named_mirror(alloc, state, name)?;
    let reply = mirror_show(alloc, mirror, with_packages.unwrap_or(false))?;
    Ok(Change { state: None, reply })
}

/// `mirror show`. It needs a command of that verb.
pub fn show<M: Patterns>(
    alloc: Global,
    state: &State,
    command: &Command,
    _patterns: &mut M,
) -> Result<Change, ChangeFault>
    ensures ok { (c : MirrorCommand) (arrived : Arrived) → plain command.now ≡ of_mirror c → IsShow c → Valid state.now → IfOk result (ChangesTo state.now (mirror_case state.now c) arrived) }
    ensures fault { (c : MirrorCommand) (arrived : Arrived) → plain command.now ≡ of_mirror c → IsShow c → Valid state.now → IfErr result (FaultIs (IsRefusedFor None (mirror_case state.now c) arrived)) }
    ensures new { IfOk result (λ change. IsNew state.now change.state) }
    ensures untouched { _patterns.new ≡ _patterns.old }
{
    match command {
        Command::MirrorShow {
            with_packages,
            name,
        } => show_named(alloc, state, with_packages, name),
        _ => Err(ChangeFault::Refused(Refusal::NotBuilt)),
    }
}
