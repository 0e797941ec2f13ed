//! The state of a store, read from its root.
ghost use Rattle.std.specs.Prelude.{◌≡◌, ◌≤◌, IfOk, map};
ghost use Rattle.std.specs.Option.{ForSome};
ghost use Rattle.std.specs.Rc.{rc_value};
ghost use Rattle.ap_host.specs.Disk.{live_of};
ghost use Rattle.ap_host.specs.Calls.{CauseOf};
ghost use Rattle.machine_state.specs.State.{Valid};
ghost use Rattle.catalogue_text.specs.Root.{root_text};
ghost use Rattle.catalogue_root.specs.declared.damage.LoadFault.TheVariants.{HostFault};
ghost use Rattle.catalogue_root.specs.Loads.{AreLookedFor, DiffersIn, IsLoadOf, IsLookedFor, MayLoad};
ghost use Rattle.catalogue_root.specs.Store.{root};

use crate::damage::{Damage, LoadFault};
use ap_host::Host;
use ap_text::SafePath;
use catalogue_text::{RootFault, publications_line, read_root};
use hash_pool::{length, pool_path, read_whole};
use machine_state::State;
use package_core::Package;
use package_list::SharedPackage;
use std::alloc::Global;
use std::rc::Rc;

/// The path of the root.
pub const ROOT: &str = "db/root";

/// The state, whose text the root at this path is. So far no store holds a publication: a root that has one can't be read from the
/// line on that counts them.
fn without_publications(alloc: Global, path: SafePath, state: State) -> Result<State, LoadFault>
    requires path { path ≡ root }
    requires valid { Valid state }
    ensures { IsLoadOf (root_text state) result }
{
    if state.publications.is_empty() {
        return Ok(state);
    }
    let line = publications_line(alloc, &state)?;
    Err(LoadFault::Damaged(Damage::Unreadable { path, line }))
}

/// The state whose text the root is.
fn state_of(alloc: Global, path: SafePath, text: &[u8]) -> Result<State, LoadFault>
    requires { path ≡ root }
    ensures { IsLoadOf text.now result }
{
    match read_root(alloc, text) {
        Ok(state) => without_publications(alloc, path, state),
        Err(RootFault::At { line }) => Err(LoadFault::Damaged(Damage::Unreadable { path, line })),
        Err(RootFault::OutOfMemory) => Err(LoadFault::OutOfMemory),
    }
}

/// Looks for the file of a package in the pool: whether it is there, and has the length that is said of it.
fn look_for<H: Host>(alloc: Global, host: &mut H, wanted: &Package) -> Result<(), LoadFault>
    ensures told { ForSome (H.log host.old) (λ l. IsLookedFor (live_of l) wanted.now result) }
    ensures differs { DiffersIn result }
    ensures log { H.log host.new ≡ H.log host.old }
    ensures cause { CauseOf HostFault (H.faults host.old) (H.faults host.new) result }
{
    let said = wanted.said.size;
    let path = pool_path(alloc, &wanted.said.sha256)?;
    match length(alloc, host, &wanted.said.sha256)? {
        None => Err(LoadFault::Damaged(Damage::Missing { path })),
        Some(found) if found == said => Ok(()),
        Some(found) => Err(LoadFault::Damaged(Damage::Size { path, said, found })),
    }
}

/// Looks for the files of packages, in their order.
fn look_for_all<H: Host>(
    alloc: Global,
    host: &mut H,
    packages: &[Rc<SharedPackage>],
) -> Result<(), LoadFault>
    ensures told { ForSome (H.log host.old) (λ l. AreLookedFor (live_of l) (map rc_value packages.now) result) }
    ensures differs { DiffersIn result }
    ensures log { H.log host.new ≡ H.log host.old }
    ensures cause { CauseOf HostFault (H.faults host.old) (H.faults host.new) result }
{
    for member in packages {
        look_for(alloc, host, member.as_ref().package())?;
    }
    Ok(())
}

/// The state, where the pool has the file of each known package.
fn with_files<H: Host>(alloc: Global, host: &mut H, state: State) -> Result<State, LoadFault>
    ensures same { IfOk result (λ loaded. loaded ≡ state) }
    ensures told { ForSome (H.log host.old) (λ l. AreLookedFor (live_of l) state.known result) }
    ensures differs { DiffersIn result }
    ensures log { H.log host.new ≡ H.log host.old }
    ensures cause { CauseOf HostFault (H.faults host.old) (H.faults host.new) result }
{
    look_for_all(alloc, host, state.known.as_slice())?;
    Ok(state)
}

/// The state that a store stands for. A store without a root is empty. `Damaged` comes only where what the store holds stands
/// for no state, but for package texts that share a SHA-256: it names the root and its first line that can't stand there, or
/// the file of the first known package whose file isn't in the pool or has another length than is said of it. Files of the
/// pool aren't read. `HostFault` comes only where a call of the host failed. It changes nothing.
pub fn load<H: Host>(alloc: Global, host: &mut H) -> Result<State, LoadFault>
    ensures valid { IfOk result Valid }
    ensures told { ForSome (H.log host.old) (λ l. MayLoad (live_of l) result) }
    ensures differs { DiffersIn result }
    ensures log { H.log host.new ≡ H.log host.old }
    ensures cause { CauseOf HostFault (H.faults host.old) (H.faults host.new) result }
{
    let path = SafePath::fixed(alloc, ROOT)?;
    match read_whole(alloc, host, &path)? {
        None => Ok(State::empty(alloc)),
        Some(text) => {
            let state = state_of(alloc, path, text.as_slice())?;
            with_files(alloc, host, state)
        }
    }
}
