//! The commands of mirrors, by their verbs.
ghost use Rattle.std.specs.Prelude.{◌≡◌, ◌≤◌, Bool, Option, IfOk, IfErr, None, Some};
ghost use Rattle.std.specs.Option.{option_map};
ghost use Rattle.ap_host.specs.Disk.{Files};
ghost use Rattle.command_value.specs.Plain.{MirrorCommand, plain, of_mirror};
ghost use Rattle.machine_state.specs.State.{Valid};
ghost use Rattle.step_model.specs.Answers.{FaultIs, IsNew, IsWanted, KeepsBy, RefusesBy};
ghost use Rattle.step_model.specs.Refuses.{Refuses};
ghost use Rattle.mirror_ops.specs.Cases.{ChangesWith, RefusedWith, create_case, drop_case, mirror_case, rename_case, show_case, update_case};

use crate::creation::create;
use crate::early::{create_early, name_early, named_mirror, rename_early};
use crate::naming::{drop, rename};
use crate::settings::filter_of;
use crate::shown::{list, show};
use crate::updating::update;
use command_value::Command;
use control_stanza::Text;
use machine_state::{Arrived, Change, ChangeFault, Refusal, State};
use query_eval::Patterns;
use std::alloc::Global;
use step_model::Reading;

fn create_needs<M: Patterns>(
    alloc: Global,
    state: &State,
    architectures: &Option<Vec<Text>>,
    filter: &Option<Text>,
    name: &Text,
    archive: &Text,
    distribution: &Text,
    components: &[Text],
    patterns: &mut M,
) -> Result<Reading, ChangeFault>
    ensures ok { (deps : Option Bool) → Valid state.now → IfOk result (IsWanted None (create_case state.now (option_map (λ v. v.items) architectures.now) filter.now deps name.now archive.now distribution.now components.now)) }
    ensures fault { (deps : Option Bool) → Valid state.now → IfErr result (RefusesBy M.Patterns patterns.old patterns.new (create_case state.now (option_map (λ v. v.items) architectures.now) filter.now deps name.now archive.now distribution.now components.now)) }
    ensures never_falls { M.refusals patterns.old ≤ M.refusals patterns.new }
    ensures kept { KeepsBy M.Patterns patterns.old patterns.new result }
{
    create_early(
        alloc,
        state,
        architectures,
        filter,
        name,
        archive,
        distribution,
        components,
    )?;
    filter_of(alloc, filter, patterns)?;
    Ok(Reading::Nothing)
}

fn update_needs(alloc: Global, state: &State, name: &Text) -> Result<Reading, ChangeFault>
    ensures ok { Valid state.now → IfOk result (IsWanted None (update_case state.now name.now)) }
    ensures fault { Valid state.now → IfErr result (FaultIs (λ refusal. Refuses None (update_case state.now name.now) (Some refusal))) }
{
    let name = name_early(alloc, state, name)?;
    Ok(Reading::Mirror(name))
}

fn show_needs(alloc: Global, state: &State, name: &Text) -> Result<Reading, ChangeFault>
    ensures ok { (packages : Bool) → Valid state.now → IfOk result (IsWanted None (show_case state.now packages name.now)) }
    ensures fault { (packages : Bool) → Valid state.now → IfErr result (FaultIs (λ refusal. Refuses None (show_case state.now packages name.now) (Some refusal))) }
{
    named_mirror(alloc, state, name)?;
    Ok(Reading::Nothing)
}

fn rename_needs(
    alloc: Global,
    state: &State,
    from: &Text,
    to: &Text,
) -> Result<Reading, ChangeFault>
    ensures ok { Valid state.now → IfOk result (IsWanted None (rename_case state.now from.now to.now)) }
    ensures fault { Valid state.now → IfErr result (FaultIs (λ refusal. Refuses None (rename_case state.now from.now to.now) (Some refusal))) }
{
    rename_early(alloc, state, from, to)?;
    Ok(Reading::Nothing)
}

fn drop_needs(alloc: Global, state: &State, name: &Text) -> Result<Reading, ChangeFault>
    ensures ok { Valid state.now → IfOk result (IsWanted None (drop_case state.now name.now)) }
    ensures fault { Valid state.now → IfErr result (FaultIs (λ refusal. Refuses None (drop_case state.now name.now) (Some refusal))) }
{
    name_early(alloc, state, name)?;
    Ok(Reading::Nothing)
}

/// What is to be read for a command of mirrors in a valid state, which is the archive of the mirror that is to be updated and nothing for
/// each other one, or the first refusal that holds before anything is read. The patterns of a new filter are built, and the first that
/// can't be is told: as `PatternTooLarge` only where `patterns` refused its text for its size in this call.
pub fn needs<M: Patterns>(
    alloc: Global,
    state: &State,
    command: &Command,
    patterns: &mut M,
) -> Result<Reading, ChangeFault>
    ensures ok { (c : MirrorCommand) → plain command.now ≡ of_mirror c → Valid state.now → IfOk result (IsWanted None (mirror_case state.now c)) }
    ensures fault { (c : MirrorCommand) → plain command.now ≡ of_mirror c → Valid state.now → IfErr result (RefusesBy M.Patterns patterns.old patterns.new (mirror_case state.now c)) }
    ensures never_falls { M.refusals patterns.old ≤ M.refusals patterns.new }
    // Which text was refused for its size changes only where such a pattern is told.
    ensures kept { KeepsBy M.Patterns patterns.old patterns.new result }
{
    match command {
        Command::MirrorCreate {
            architectures,
            filter,
            name,
            archive,
            distribution,
            components,
            ..
        } => create_needs(
            alloc,
            state,
            architectures,
            filter,
            name,
            archive,
            distribution,
            components,
            patterns,
        ),
        Command::MirrorUpdate { name } => update_needs(alloc, state, name),
        Command::MirrorList => Ok(Reading::Nothing),
        Command::MirrorShow { name, .. } => show_needs(alloc, state, name),
        Command::MirrorRename { from_name, to_name } => {
            rename_needs(alloc, state, from_name, to_name)
        }
        Command::MirrorDrop { name } => drop_needs(alloc, state, name),
        _ => Err(ChangeFault::Refused(Refusal::NotBuilt)),
    }
}

/// What a command of mirrors changes in a valid state with what arrived for it, or the first refusal that holds.
pub fn change<M: Patterns>(
    alloc: Global,
    state: &State,
    command: &Command,
    arrived: &Arrived,
    patterns: &mut M,
) -> Result<Change, ChangeFault>
    ensures ok { (c : MirrorCommand) (inbox : Option Files) → plain command.now ≡ of_mirror c → ChangesWith inbox state.now (mirror_case state.now c) arrived.now result }
    ensures fault { (c : MirrorCommand) (inbox : Option Files) → plain command.now ≡ of_mirror c → RefusedWith M.Patterns patterns.old patterns.new inbox state.now c arrived.now result }
    // A state that is told is another one.
    ensures new { Valid state.now → IfOk result (λ change. IsNew state.now change.state) }
    ensures never_falls { M.refusals patterns.old ≤ M.refusals patterns.new }
    // Which text was refused for its size changes only where such a pattern is told.
    ensures kept { KeepsBy M.Patterns patterns.old patterns.new result }
{
    match command {
        Command::MirrorCreate { .. } => create(alloc, state, command, patterns),
        Command::MirrorUpdate { .. } => update(alloc, state, command, arrived, patterns),
        Command::MirrorList => list(alloc, state),
        Command::MirrorShow { .. } => show(alloc, state, command, patterns),
        Command::MirrorRename { .. } => rename(alloc, state, command, patterns),
        Command::MirrorDrop { .. } => drop(alloc, state, command, patterns),
        _ => Err(ChangeFault::Refused(Refusal::NotBuilt)),
    }
}
