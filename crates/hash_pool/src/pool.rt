// What the pool has.
ghost use Rattle.std.specs.Prelude.{◌≡◌, IfOk, is_some, length as length_of, option_map};
ghost use Rattle.std.specs.Option.{ForSome};
ghost use Rattle.ap_host.specs.Disk.{live_of};
ghost use Rattle.ap_host.specs.Calls.{HasCause};
ghost use Rattle.hash_pool.specs.Names.{pool_name};

use crate::name::pool_path;
use crate::reading::read_whole;
use ap_host::{Bytes, Host, HostErr};
use std::alloc::Global;

/// The length in bytes of the pool file of a SHA-256, none where there is no such file. `Failed` comes only where the host failed.
pub fn length<H: Host>(
    alloc: Global,
    host: &mut H,
    sha256: &[u8; 32],
) -> Result<Option<u64>, HostErr>
    ensures told { IfOk result (λ n. ForSome (H.log host.old) (λ l. n ≡ option_map length_of (live_of l (pool_name sha256.now)))) }
    ensures log { H.log host.new ≡ H.log host.old }
    ensures cause { HasCause (H.faults host.old) (H.faults host.new) result }
{
    let path = pool_path(alloc, sha256)?;
    host.length(&path)
}

/// Whether the pool has a file of this SHA-256, by its name. `Failed` comes only where the host failed.
pub fn has<H: Host>(alloc: Global, host: &mut H, sha256: &[u8; 32]) -> Result<bool, HostErr>
    ensures told { IfOk result (λ there. ForSome (H.log host.old) (λ l. there ≡ is_some (live_of l (pool_name sha256.now)))) }
    ensures log { H.log host.new ≡ H.log host.old }
    ensures cause { HasCause (H.faults host.old) (H.faults host.new) result }
{
    let found = length(alloc, host, sha256)?;
    Ok(found.is_some())
}

/// The bytes of the pool file of a SHA-256, none where there is no such file. They are as reads give them, and are not hashed
/// again. `Failed` comes only where the host failed.
pub fn get<H: Host>(
    alloc: Global,
    host: &mut H,
    sha256: &[u8; 32],
) -> Result<Option<Bytes>, HostErr>
    ensures told { IfOk result (λ file. ForSome (H.log host.old) (λ l. file ≡ live_of l (pool_name sha256.now))) }
    ensures log { H.log host.new ≡ H.log host.old }
    ensures cause { HasCause (H.faults host.old) (H.faults host.new) result }
{
    let path = pool_path(alloc, sha256)?;
    read_whole(alloc, host, &path)
}
