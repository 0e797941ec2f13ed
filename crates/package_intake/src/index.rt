//! An index of the inbox.
ghost use Rattle.std.specs.Prelude.{◌≡◌, ◌+◌, ◌≤◌, None, length as length_of, IfOk, IfErr, IsErrOf, MatchResult, option_map};
ghost use Rattle.std.specs.Fmt.{decimal};
ghost use Rattle.std.specs.Option.{ForSome};
ghost use Rattle.ap_text.specs.Paths.{below_folder};
ghost use Rattle.ap_host.specs.Calls.{CauseOf};
ghost use Rattle.digest_set.specs.declared.facts.What.TheVariants.{Size};
ghost use Rattle.digest_set.specs.Facts.{digests_of as facts_of_bytes};
ghost use Rattle.digest_set.specs.Difference.{difference};
ghost use Rattle.hash_pool.specs.Reading.{IsReadTo};
ghost use Rattle.index_text.specs.Index.{Lists, ArePackages};
ghost use Rattle.machine_state.specs.declared.arrived.UpdateFault.TheVariants.{HostFault, InboxFault, OutOfMemory};
ghost use Rattle.machine_state.specs.declared.refusal.Refusal.TheVariants.{InputAbsent, InputMismatch};
ghost use Rattle.package_intake.specs.Index.{bytes_within, index_bytes, or_differs, stated_bytes};
ghost use Rattle.package_intake.specs.Index.{AreShort, IsMalformed, IsUnreadFault, OfIndex};
ghost use Rattle.package_intake.specs.Steps.{Gives};
ghost use Rattle.package_intake.specs.Faults.{FaultOfFile, IsInputFault, IsOwnFault, IsNoRefusal, Tells};

use crate::fault::{absent, differs, malformed, of_inbox, over};
use ap_host::{Bytes, Inbox};
use ap_text::SafePath;
use digest_set::{Digits, Said, What, digests_of, mismatch};
use hash_pool::read_input;
use index_text::{IndexFault, read_packages};
use machine_state::{Limit, UpdateFault};
use package_core::Package;
use std::alloc::Global;

/// The path of what stands at a path below a folder. Where the two are too long for one path together, nothing can stand there, and
/// the folder is told to be absent.
pub fn path_below(
    alloc: Global,
    folder: &SafePath,
    rest: &SafePath,
) -> Result<SafePath, UpdateFault>
    ensures path { IfOk result (λ path. path ≡ below_folder folder.now rest.now) }
    ensures short { length_of (below_folder folder.now rest.now) ≤ 1000 → IfErr result (λ e. e ≡ OutOfMemory) }
    ensures fault { IfErr result (λ e. Tells e (InputAbsent folder.now)) }
{
    if folder.as_str().len() + rest.as_str().len() >= 1000 {
        return Err(absent(alloc, folder));
    }
    Ok(SafePath::joined(alloc, folder, rest)?)
}

/// The length of a file of the inbox in bytes, none where there is no such file.
fn length<I: Inbox>(inbox: &mut I, path: &SafePath) -> Result<Option<u64>, UpdateFault>
    ensures told { IfOk result (λ n. ForSome (I.map inbox.old) (λ f. n ≡ option_map length_of (f path.now))) }
    ensures fault { IfErr result IsNoRefusal }
    ensures host { IsErrOf result HostFault → ⊥ }
    ensures map { I.map inbox.new ≡ I.map inbox.old }
    ensures cause { CauseOf InboxFault (I.faults inbox.old) (I.faults inbox.new) result }
{
    match inbox.length(path) {
        Ok(length) => Ok(length),
        Err(fault) => Err(of_inbox(fault)),
    }
}

/// The bytes of a file of the inbox that has this length, or fewer where a read gives none before.
fn bytes_of<I: Inbox>(
    alloc: Global,
    inbox: &mut I,
    path: &SafePath,
    length: u64,
) -> Result<Bytes, UpdateFault>
    ensures bound { IfOk result (λ bytes. length_of bytes ≤ length) }
    ensures told { IfOk result (λ bytes. ForSome (I.map inbox.old) (λ f. IsReadTo length (f path.now) bytes)) }
    ensures fault { IfErr result IsNoRefusal }
    ensures host { IsErrOf result HostFault → ⊥ }
    ensures map { I.map inbox.new ≡ I.map inbox.old }
    ensures cause { CauseOf InboxFault (I.faults inbox.old) (I.faults inbox.new) result }
{
    match read_input(alloc, inbox, path, length) {
        Ok(bytes) => Ok(bytes),
        Err(fault) => Err(of_inbox(fault)),
    }
}

/// The file has another size than is stated, in bytes.
fn other_size(alloc: Global, path: &SafePath, said: u64, found: u64) -> UpdateFault
    ensures { Tells result (InputMismatch path.now Size (decimal said) (decimal found)) }
{
    let Ok(said) = Digits::decimal(alloc, said) else {
        return UpdateFault::OutOfMemory;
    };
    match Digits::decimal(alloc, found) {
        Ok(found) => differs(alloc, path, What::Size, said, found),
        Err(_) => UpdateFault::OutOfMemory,
    }
}

/// The bytes of the file at this path of the inbox, whole, where it is there and has at most as many bytes as the limit allows. It is
/// read only then.
///
/// Else it is refused: `InputAbsent`, or `Limit`, or `InputMismatch` of the size where a read gives nothing before the length in
/// bytes that was told: that length, and the shorter one that was reached. `InboxFault` comes only where the inbox failed.
pub fn read_within<I: Inbox>(
    alloc: Global,
    inbox: &mut I,
    path: &SafePath,
    limit: Limit,
) -> Result<Bytes, UpdateFault>
    ensures told { ForSome (I.map inbox.old) (λ f. Gives result (bytes_within limit path.now (f path.now))) }
    ensures fault { IfErr result (IsUnreadFault limit path.now) }
    ensures map { I.map inbox.new ≡ I.map inbox.old }
    ensures cause { CauseOf InboxFault (I.faults inbox.old) (I.faults inbox.new) result }
{
    let Some(size) = length(inbox, path)? else {
        return Err(absent(alloc, path));
    };
    if size > limit.number() {
        return Err(over(limit));
    }
    let bytes = bytes_of(alloc, inbox, path, size)?;
    if bytes.len() as u64 != size {
        return Err(other_size(alloc, path, size, bytes.len() as u64));
    }
    Ok(bytes)
}

/// The bytes of the index at this path of the inbox, whole, where it is there and has at most 134,217,728 bytes; else it is refused as
/// by [`read_within`].
pub fn read_index<I: Inbox>(
    alloc: Global,
    inbox: &mut I,
    path: &SafePath,
) -> Result<Bytes, UpdateFault>
    ensures told { ForSome (I.map inbox.old) (λ f. Gives result (index_bytes path.now (f path.now))) }
    ensures fault { IfErr result IsInputFault }
    ensures early { IfErr result (OfIndex path.now) }
    ensures map { I.map inbox.new ≡ I.map inbox.old }
    ensures cause { CauseOf InboxFault (I.faults inbox.old) (I.faults inbox.new) result }
{
    read_within(alloc, inbox, path, Limit::Index)
}

/// The bytes, where they don't differ from what is stated of them.
fn agreed(alloc: Global, path: &SafePath, said: &Said, bytes: Bytes) -> Result<Bytes, UpdateFault>
    ensures answer { Gives result (or_differs path.now bytes (difference said.now (facts_of_bytes bytes))) }
    ensures same { IfOk result (λ read. difference said.now (facts_of_bytes read) ≡ None) }
    ensures fault { IfErr result IsOwnFault }
    ensures mismatch { IfErr result (FaultOfFile path.now said.now) }
{
    let found = digests_of(bytes.as_slice());
    match mismatch(alloc, said, &found)? {
        None => Ok(bytes),
        Some((what, said, found)) => Err(differs(alloc, path, what, said, found)),
    }
}

/// The bytes of the index at this path of the inbox, of which this is stated, whole. It is read only where it is there, the stated size
/// is at most 134,217,728 bytes, and the index has that size.
///
/// Else it is refused: `InputAbsent`, or `Limit(Index)` for the stated size, or `InputMismatch` with the first of size, SHA-256, SHA-1 and
/// MD5 that is stated and differs, where an index that ends early has the size that was reached. `InboxFault` comes only where the inbox
/// failed.
pub fn read_stated<I: Inbox>(
    alloc: Global,
    inbox: &mut I,
    path: &SafePath,
    said: &Said,
) -> Result<Bytes, UpdateFault>
    ensures told { ForSome (I.map inbox.old) (λ f. Gives result (stated_bytes path.now said.now (f path.now))) }
    ensures same { IfOk result (λ bytes. difference said.now (facts_of_bytes bytes) ≡ None) }
    ensures fault { IfErr result IsInputFault }
    ensures mismatch { IfErr result (FaultOfFile path.now said.now) }
    ensures map { I.map inbox.new ≡ I.map inbox.old }
    ensures cause { CauseOf InboxFault (I.faults inbox.old) (I.faults inbox.new) result }
{
    let Some(size) = length(inbox, path)? else {
        return Err(absent(alloc, path));
    };
    if said.size > Limit::Index.number() {
        return Err(over(Limit::Index));
    }
    if size != said.size {
        return Err(other_size(alloc, path, said.size, size));
    }
    let bytes = bytes_of(alloc, inbox, path, size)?;
    agreed(alloc, path, said, bytes)
}

/// The packages that these bytes of an index describe, in its order, and the paths of their files below its folder, each of at most 700
/// bytes. The index stands at this path, which is named where it can't be read: `InputMalformed` with the first line, counted from 1,
/// that can't stand there (Debian Policy 5.1), or else with the first line of the first stanza that isn't one of a binary package with
/// readable relations (Debian Policy 5.3, 7.1, 7.5).
pub fn read_entries(
    alloc: Global,
    path: &SafePath,
    bytes: &[u8],
) -> Result<Vec<(Package, SafePath)>, UpdateFault>
    ensures index { MatchResult result (λ v. Lists bytes.now v.items) (IsMalformed path.now bytes.now) }
    ensures fault { IfErr result IsOwnFault }
    ensures packages { IfOk result (λ v. ArePackages v.items) }
    ensures short { IfOk result (λ v. AreShort v.items) }
{
    match read_packages(alloc, bytes) {
        Ok(entries) => Ok(entries),
        Err(IndexFault::At { line }) => Err(malformed(alloc, path, line)),
        Err(IndexFault::OutOfMemory) => Err(UpdateFault::OutOfMemory),
    }
}
