//! What a pull is refused for by its words and by what is there.
ghost use Rattle.std.specs.Prelude.{◌≡◌, IfOk, IfErr, OnOk, None, Some};
ghost use Rattle.command_value.specs.Plain.{plain_follow};
ghost use Rattle.machine_state.specs.State.{Valid, snapshot_of};
ghost use Rattle.package_choice.specs.Choice.{bad_follow};
ghost use Rattle.step_model.specs.Answers.{IsFirst};
ghost use Rattle.snapshot_pull.specs.Pulls.{bad_ends, bad_pull};

use crate::checks::{free, there};
use ap_text::Name;
use command_value::Follow;
use control_stanza::Text;
use machine_state::{ChangeFault, Snapshot, State};
use package_choice::check_follow;
use std::alloc::Global;
use step_model::name_of;

/// The two snapshots that these texts name, and the name that is free: all are names before one is looked for.
fn named_ends<'a>(
    alloc: Global,
    state: &'a State,
    name: &Text,
    source: &Text,
    destination: &Text,
) -> Result<(&'a Snapshot, &'a Snapshot, Name), ChangeFault>
    ensures good { Valid state.now → OnOk result (bad_ends state.now name.now source.now destination.now ≡ None) }
    ensures fault { Valid state.now → IfErr result (IsFirst (bad_ends state.now name.now source.now destination.now)) }
    ensures base { Valid state.now → IfOk result (λ ends. snapshot_of name.now state.now.snapshots ≡ Some ends.0.now) }
    ensures source { Valid state.now → IfOk result (λ ends. snapshot_of source.now state.now.snapshots ≡ Some ends.1.now) }
    ensures name { IfOk result (λ ends. ends.2 ≡ destination.now) }
{
    let under = name_of(alloc, name)?;
    let from = name_of(alloc, source)?;
    let to = name_of(alloc, destination)?;
    free(alloc, state, &to)?;
    let base = there(alloc, state, &under)?;
    let more = there(alloc, state, &from)?;
    Ok((base, more, to))
}

/// The base and the source of a pull, and the name of the new snapshot.
pub(crate) fn pull_early<'a>(
    alloc: Global,
    state: &'a State,
    follow: &Follow,
    name: &Text,
    source: &Text,
    destination: &Text,
) -> Result<(&'a Snapshot, &'a Snapshot, Name), ChangeFault>
    ensures good { Valid state.now → OnOk result (bad_pull state.now (plain_follow follow.now) name.now source.now destination.now ≡ None) }
    ensures fault { Valid state.now → IfErr result (IsFirst (bad_pull state.now (plain_follow follow.now) name.now source.now destination.now)) }
    ensures listed { OnOk result (bad_follow (plain_follow follow.now) ≡ None) }
    ensures base { Valid state.now → IfOk result (λ ends. snapshot_of name.now state.now.snapshots ≡ Some ends.0.now) }
    ensures source { Valid state.now → IfOk result (λ ends. snapshot_of source.now state.now.snapshots ≡ Some ends.1.now) }
    ensures name { IfOk result (λ ends. ends.2 ≡ destination.now) }
{
    check_follow(alloc, follow)?;
    named_ends(alloc, state, name, source, destination)
}
