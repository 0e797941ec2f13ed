// A file is put into the pool.
ghost use Rattle.std.specs.Prelude.{◌≡◌, ◌≢◌, IsErrOf, None, Some};
ghost use Rattle.ap_host.specs.Calls.{CauseOf, HasCause};
ghost use Rattle.ap_host.specs.Changes.{GoesOn};
ghost use Rattle.digest_set.specs.Difference.{difference};
ghost use Rattle.digest_set.specs.Facts.{digests_of as facts};
ghost use Rattle.sha2.specs.Sha256.{sha256 as sha256_of};
ghost use Rattle.hash_pool.specs.declared.fault.PoolFault.TheVariants.{HostFault, InboxFault};
ghost use Rattle.hash_pool.specs.Answers.{IsAnswer, IsPut};
ghost use Rattle.hash_pool.specs.Lodging.{Sets, Lodges};

use crate::fault::PoolFault;
use crate::name::pool_path;
use ap_host::{Host, HostErr};
use ap_text::SafePath;
use digest_set::{Digests, Said, digests_of, mismatch};
use stage_file::Stage;
use std::alloc::Global;

/// The facts of bytes that are as said.
fn compared(alloc: Global, bytes: &[u8], said: &Said) -> Result<Digests, PoolFault>
    ensures answer { IsAnswer (Some bytes.now) said.now result }
    ensures host { IsErrOf result HostFault → ⊥ }
    ensures inbox { IsErrOf result InboxFault → ⊥ }
{
    let digests = digests_of(bytes);
    match mismatch(alloc, said, &digests)? {
        None => Ok(digests),
        Some((what, said, found)) => Err(PoolFault::Mismatch(what, said, found)),
    }
}

/// Lays a file and places it.
fn set<H: Host>(
    host: &mut H,
    stage: &mut Stage,
    bytes: &[u8],
    path: &SafePath,
) -> Result<(), HostErr>
    ensures log { GoesOn (H.log host.old) (H.log host.new) (Sets path.now bytes.now stage.old stage.new result) }
    ensures cause { HasCause (H.faults host.old) (H.faults host.new) result }
{
    let name = stage.lay(host, bytes)?;
    stage.place(host, name, path)
}

/// Sets the pool file of these bytes, whose SHA-256 is handed, where the pool hasn't its name.
fn lodge<H: Host>(
    alloc: Global,
    host: &mut H,
    stage: &mut Stage,
    bytes: &[u8],
    sha256: &[u8; 32],
) -> Result<(), HostErr>
    requires { sha256_of bytes.now ≡ sha256.now }
    ensures log { GoesOn (H.log host.old) (H.log host.new) (Lodges (λ b. b ≡ bytes.now) sha256.now stage.old stage.new result) }
    ensures cause { HasCause (H.faults host.old) (H.faults host.new) result }
{
    let path = pool_path(alloc, sha256)?;
    if host.length(&path)?.is_some() {
        return Ok(());
    }
    set(host, stage, bytes, &path)
}

/// Puts bytes into the pool under their SHA-256, and gives their facts. First the bytes are compared with what is said of them:
/// the first difference is told as `Mismatch`, with what is said and what was found, exactly where there is one, and nothing is
/// done. A name that the pool has isn't set again; else a staged file is laid, synced and renamed. No barrier is made. After
/// `HostFault`, which comes only where the host failed, and after `OutOfMemory` the name has what it had, or these bytes.
/// `Absent` and `InboxFault` never come.
pub fn put<H: Host>(
    alloc: Global,
    host: &mut H,
    stage: &mut Stage,
    bytes: &[u8],
    said: &Said,
) -> Result<Digests, PoolFault>
    ensures answer { IsAnswer (Some bytes.now) said.now result }
    ensures log { GoesOn (H.log host.old) (H.log host.new) (Lodges (IsPut bytes.now said.now) said.now.sha256 stage.old stage.new result) }
    ensures cause { CauseOf HostFault (H.faults host.old) (H.faults host.new) result }
    ensures still { difference said.now (facts bytes.now) ≢ None → H.log host.new ≡ H.log host.old }
    ensures inbox { IsErrOf result InboxFault → ⊥ }
{
    let digests = compared(alloc, bytes, said)?;
    lodge(alloc, host, stage, bytes, &said.sha256)?;
    Ok(digests)
}
