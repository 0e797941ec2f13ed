//! The state of a store, set at its root.
ghost use Rattle.std.specs.Prelude.{◌≡◌};
ghost use Rattle.ap_host.specs.Calls.{HasCause};
ghost use Rattle.ap_host.specs.Changes.{GoesOn};
ghost use Rattle.catalogue_text.specs.Root.{root_text as text_of};
ghost use Rattle.machine_state.specs.Values.{StateView};
ghost use Rattle.catalogue_root.specs.Commits.{Commits, Saves, SetsRoot};

use crate::loading::ROOT;
use ap_host::{Host, HostErr};
use ap_text::SafePath;
use catalogue_text::root_text;
use machine_state::State;
use stage_file::Stage;
use std::alloc::Global;

/// Sets the root to this text, durably.
fn set_root<H: Host>(
    alloc: Global,
    host: &mut H,
    stage: &mut Stage,
    text: &str,
) -> Result<(), HostErr>
    ensures log { GoesOn (H.log host.old) (H.log host.new) (λ l ops. (old new : StateView) → text.now ≡ text_of new → SetsRoot old new result l ops) }
    ensures cause { HasCause (H.faults host.old) (H.faults host.new) result }
{
    let root = SafePath::fixed(alloc, ROOT)?;
    let name = stage.lay(host, text.as_bytes())?;
    stage.place(host, name, &root)?;
    stage.barrier(host)
}

/// Sets the root to the text of the new state, durably, behind a barrier where the stage has touched the host, so that the
/// files that were taken in are durable before. Each image of the log has to be open for the old state, and the pool has to
/// have the file of each package that the new state knows; then a stop leaves the old state or the new one, and after Ok the
/// new one. It touches no path but the root's and a staged file's.
pub fn commit<H: Host>(
    alloc: Global,
    host: &mut H,
    stage: &mut Stage,
    _old: &State,
    new: &State,
) -> Result<(), HostErr>
    ensures log { GoesOn (H.log host.old) (H.log host.new) (Commits _old.now new.now stage.old result) }
    ensures cause { HasCause (H.faults host.old) (H.faults host.new) result }
{
    let text = root_text(alloc, new)?;
    stage.barrier(host)?;
    set_root(alloc, host, stage, text.as_str())
}

/// Commits the new state, where there is one. Where there is none, nothing is done.
pub fn save<H: Host>(
    alloc: Global,
    host: &mut H,
    stage: &mut Stage,
    old: &State,
    new: &Option<State>,
) -> Result<(), HostErr>
    ensures log { GoesOn (H.log host.old) (H.log host.new) (Saves old.now new.now stage.old stage.new result) }
    ensures cause { HasCause (H.faults host.old) (H.faults host.new) result }
{
    match new {
        None => Ok(()),
        Some(new) => commit(alloc, host, stage, old, new),
    }
}
