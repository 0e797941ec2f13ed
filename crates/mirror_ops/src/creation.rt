//! New mirrors.
ghost use Rattle.std.specs.Prelude.{◌≡◌, ◌≤◌, List, ℕ, Bool, Option, IfOk, IfErr, None, Some};
ghost use Rattle.std.specs.Option.{option_map};
ghost use Rattle.command_value.specs.Plain.{MirrorCommand, plain, of_mirror};
ghost use Rattle.machine_state.specs.State.{Valid};
ghost use Rattle.machine_state.specs.declared.arrived.Arrived.{Arrived};
ghost use Rattle.reply_text.specs.Mirrors.{mirror_created as created_line};
ghost use Rattle.step_model.specs.Answers.{came, ChangesTo, FaultIs, IsMemory, IsNew, KeepsBy, RefusedBy};
ghost use Rattle.step_model.specs.Case.{refuses};
ghost use Rattle.mirror_ops.specs.Cases.{IsCreate, create_case, created as created_in, mirror_case, taken, with_mirror};

use crate::early::create_early;
use crate::settings::{filter_of, filtered};
use command_value::Command;
use control_stanza::Text;
use machine_state::{Change, ChangeFault, Limit, Mirror, Refusal, State, put_named};
use query_eval::Patterns;
use reply_text::mirror_created;
use std::alloc::Global;

/// Puts a mirror at its place among the others.
fn put_mirror(alloc: Global, state: &State, mirror: Mirror) -> Result<Change, ChangeFault>
    ensures same { Valid state.now → IfOk result (λ change. change ≡ record { state = Some (with_mirror state.now mirror); reply = created_line mirror.name }) }
    ensures fits { IfErr result IsMemory }
{
    let reply = mirror_created(alloc, &mirror.name)?;
    let mut state = state.copy(alloc)?;
    put_named(&mut state.mirrors, mirror)?;
    Ok(Change {
        state: Some(state),
        reply,
    })
}

/// Makes a mirror, where there is room for one more.
fn created(alloc: Global, state: &State, mirror: Mirror) -> Result<Change, ChangeFault>
    ensures comes { Valid state.now → IfOk result (λ change. created_in state.now mirror ≡ came state.now change) }
    ensures fault { IfErr result (FaultIs (λ refusal. created_in state.now mirror ≡ refuses refusal)) }
    ensures new { taken state.now.mirrors mirror.name ≡ None → Valid state.now → IfOk result (λ change. IsNew state.now change.state) }
{
    if state.mirrors.len() as u64 >= Limit::Mirrors.number() {
        return Err(ChangeFault::Refused(Refusal::Limit(Limit::Mirrors)));
    }
    put_mirror(alloc, state, mirror)
}

/// Makes a mirror of these words.
fn create_with<M: Patterns>(
    alloc: Global,
    state: &State,
    architectures: &Option<Vec<Text>>,
    filter: &Option<Text>,
    with_deps: &Option<bool>,
    name: &Text,
    archive: &Text,
    distribution: &Text,
    components: &[Text],
    patterns: &mut M,
) -> Result<Change, ChangeFault>
    ensures ok { (arrived : Arrived) → Valid state.now → IfOk result (ChangesTo state.now (create_case state.now (option_map (λ v. v.items) architectures.now) filter.now with_deps.now name.now archive.now distribution.now components.now) arrived) }
    ensures fault { (arrived : Arrived) → Valid state.now → IfErr result (RefusedBy M.Patterns patterns.old patterns.new (create_case state.now (option_map (λ v. v.items) architectures.now) filter.now with_deps.now name.now archive.now distribution.now components.now) arrived) }
    ensures new { Valid state.now → IfOk result (λ change. IsNew state.now change.state) }
    ensures never_falls { M.refusals patterns.old ≤ M.refusals patterns.new }
    ensures kept { KeepsBy M.Patterns patterns.old patterns.new result }
{
    let bare = create_early(
        alloc,
        state,
        architectures,
        filter,
        name,
        archive,
        distribution,
        components,
    )?;
    let filter = filter_of(alloc, filter, patterns)?;
    created(alloc, state, filtered(bare, filter, with_deps))
}

/// `mirror create`: a new mirror that was never updated. Its components and architectures are in the order of their bytes, each once. It
/// needs a command of that verb.
pub fn create<M: Patterns>(
    alloc: Global,
    state: &State,
    command: &Command,
    patterns: &mut M,
) -> Result<Change, ChangeFault>
    ensures ok { (c : MirrorCommand) (arrived : Arrived) → plain command.now ≡ of_mirror c → IsCreate c → Valid state.now → IfOk result (ChangesTo state.now (mirror_case state.now c) arrived) }
    ensures fault { (c : MirrorCommand) (arrived : Arrived) → plain command.now ≡ of_mirror c → IsCreate c → Valid state.now → IfErr result (RefusedBy M.Patterns patterns.old patterns.new (mirror_case state.now c) arrived) }
    // A state that is told is another one.
    ensures new { Valid state.now → IfOk result (λ change. IsNew state.now change.state) }
    ensures never_falls { M.refusals patterns.old ≤ M.refusals patterns.new }
    // Which text was refused for its size changes only where such a pattern is told.
    ensures kept { KeepsBy M.Patterns patterns.old patterns.new result }
{
    match command {
        Command::MirrorCreate {
            architectures,
            filter,
            filter_with_deps,
            name,
            archive,
            distribution,
            components,
        } => create_with(
            alloc,
            state,
            architectures,
            filter,
            filter_with_deps,
            name,
            archive,
            distribution,
            components,
            patterns,
        ),
        _ => Err(ChangeFault::Refused(Refusal::NotBuilt)),
    }
}
