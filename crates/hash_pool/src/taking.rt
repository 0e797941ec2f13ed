// A file of the inbox is taken into the pool.
ghost use Rattle.std.specs.Prelude.{◌≡◌, ◌≤◌, length as length_of, IfOk, IfErr, IsErrOf};
ghost use Rattle.std.specs.Fmt.{decimal};
ghost use Rattle.std.specs.Option.{ForSome};
ghost use Rattle.ap_host.specs.Calls.{CauseOf};
ghost use Rattle.ap_host.specs.Changes.{GoesOn};
ghost use Rattle.digest_set.specs.declared.facts.What.TheVariants as whats;
ghost use Rattle.hash_pool.specs.declared.fault.PoolFault.TheVariants.{Mismatch, HostFault, InboxFault};
ghost use Rattle.hash_pool.specs.Answers.{IsAnswer, IsFound, IsDifference, Compares, IsTaken};
ghost use Rattle.hash_pool.specs.Lodging.{Lodges};

use crate::fault::PoolFault;
use crate::lodging::put;
use crate::reading::read_input;
use ap_host::{Bytes, Host, Inbox};
use ap_text::SafePath;
use digest_set::{Digests, Digits, Said, What};
use stage_file::Stage;
use std::alloc::{AllocError, Global};

/// That a file has another size than the stated one.
fn other_size(alloc: Global, said: u64, found: u64) -> Result<PoolFault, AllocError>
    ensures { IfOk result (λ fault. fault ≡ Mismatch whats.Size (decimal said) (decimal found)) }
{
    let said = Digits::decimal(alloc, said)?;
    let found = Digits::decimal(alloc, found)?;
    Ok(PoolFault::Mismatch(What::Size, said, found))
}

/// The bytes of a file of the inbox that has the stated length; a read may give fewer.
fn body<I: Inbox>(
    alloc: Global,
    inbox: &mut I,
    path: &SafePath,
    said: &Said,
) -> Result<Bytes, PoolFault>
    ensures told { ForSome (I.map inbox.old) (λ f. IsFound (f path.now) said.now result) }
    ensures bound { IfOk result (λ bytes. length_of bytes ≤ said.now.size) }
    ensures differs { IfErr result (IsDifference said.now) }
    ensures host { IsErrOf result HostFault → ⊥ }
    ensures map { I.map inbox.new ≡ I.map inbox.old }
    ensures cause { CauseOf InboxFault (I.faults inbox.old) (I.faults inbox.new) result }
{
    let Some(length) = inbox.length(path)? else {
        return Err(PoolFault::Absent);
    };
    if length != said.size {
        return Err(other_size(alloc, said.size, length)?);
    }
    Ok(read_input(alloc, inbox, path, length)?)
}

/// Takes a file of the inbox into the pool under its SHA-256, and gives its facts. `Absent` comes exactly where the inbox hasn't
/// the file. `Mismatch` tells the first difference between what is said of the file and what was found, exactly where there is
/// one: a file that hasn't the stated size isn't read, and one that ends before that has the size that was reached. Then nothing
/// is renamed; a staged file may stay. Else the file is put into the pool as by [`put`]: a name that the pool has isn't set again, and no barrier is made.
/// `HostFault` and `InboxFault` come only where the host or the inbox failed.
pub fn take<H: Host, I: Inbox>(
    alloc: Global,
    host: &mut H,
    stage: &mut Stage,
    inbox: &mut I,
    path: &SafePath,
    said: &Said,
) -> Result<Digests, PoolFault>
    ensures told { ForSome (I.map inbox.old) (λ f. IsAnswer (f path.now) said.now result) }
    ensures compares { Compares said.now result }
    ensures log { GoesOn (H.log host.old) (H.log host.new) (Lodges (IsTaken (I.map inbox.old) path.now said.now result) said.now.sha256 stage.old stage.new result) }
    ensures map { I.map inbox.new ≡ I.map inbox.old }
    ensures cause { CauseOf HostFault (H.faults host.old) (H.faults host.new) result }
    ensures input { CauseOf InboxFault (I.faults inbox.old) (I.faults inbox.new) result }
{
    let bytes = body(alloc, inbox, path, said)?;
    put(alloc, host, stage, bytes.as_slice(), said)
}
