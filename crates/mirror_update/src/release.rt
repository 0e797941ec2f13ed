//! The Release of an archive.
ghost use Rattle.std.specs.Prelude.{◌≡◌, IfOk, IfErr, MatchResult};
ghost use Rattle.std.specs.Option.{ForSome};
ghost use Rattle.ap_host.specs.Calls.{CauseOf};
ghost use Rattle.machine_state.specs.declared.arrived.UpdateFault.TheVariants.{HostFault, InboxFault, OutOfMemory};
ghost use Rattle.mirror_update.specs.Answers.{IsReleaseFault, IsSomeRelease};
ghost use Rattle.mirror_update.specs.Fetch.{IsAbsentFault, IsFetched, IsMalformedBy, IsReleaseText, IsShort, Meets, distribution_folder, release_path};
ghost use Rattle.release_file.specs.Release.{IsRelease};

use ap_host::Inbox;
use ap_text::SafePath;
use machine_state::{Limit, Mirror, UpdateFault};
use package_intake::{malformed, path_below, read_within};
use release_file::{Release, ReleaseFault, read_release};
use std::alloc::Global;

/// The folder of the distributions in an archive.
const DISTRIBUTIONS: &str = "dists";

/// The name of the Release in the folder of its distribution.
const RELEASE: &str = "Release";

/// The path of the folder of the mirror's distribution.
pub(crate) fn folder_of(alloc: Global, mirror: &Mirror) -> Result<SafePath, UpdateFault>
    ensures path { IfOk result (λ path. path ≡ distribution_folder mirror.now) }
    ensures short { IsShort mirror.now → IfErr result (λ e. e ≡ OutOfMemory) }
    ensures fault { IfErr result IsAbsentFault }
{
    let name = SafePath::fixed(alloc, DISTRIBUTIONS)?;
    let folder = path_below(alloc, &mirror.archive, &name)?;
    path_below(alloc, &folder, &mirror.distribution)
}

/// The path of its Release.
fn path_of_release(alloc: Global, mirror: &Mirror) -> Result<SafePath, UpdateFault>
    ensures path { IfOk result (λ path. path ≡ release_path mirror.now) }
    ensures short { IsShort mirror.now → IfErr result (λ e. e ≡ OutOfMemory) }
    ensures fault { IfErr result IsAbsentFault }
{
    let folder = folder_of(alloc, mirror)?;
    let name = SafePath::fixed(alloc, RELEASE)?;
    path_below(alloc, &folder, &name)
}

/// What the bytes of the Release at this path say.
fn read_text(alloc: Global, path: &SafePath, bytes: &[u8]) -> Result<Release, UpdateFault>
    ensures release { MatchResult result (IsRelease bytes.now) (IsMalformedBy IsReleaseText path.now bytes.now) }
{
    match read_release(alloc, bytes) {
        Ok(release) => Ok(release),
        Err(ReleaseFault::At { line }) => Err(malformed(alloc, path, line)),
        Err(ReleaseFault::OutOfMemory) => Err(UpdateFault::OutOfMemory),
    }
}

/// What the Release of the mirror's distribution says, which is at `dists/`, the distribution and `/Release` below the archive.
///
/// It is there, else `InputAbsent`, and has at most 4,194,304 bytes, else `Limit(ReleaseBytes)`; where a read gives nothing before the
/// length in bytes that was told, `InputMismatch` tells that length and the shorter one that was reached. It is a Release (the Debian
/// repository format), else `InputMalformed` with the first line that can't stand in a text of stanzas (Debian Policy 5.1), or else line
/// 1. `InboxFault` comes only where the inbox failed, and `HostFault` never.
///
/// It is meant for an archive of at most 200 bytes and a distribution of at most 100.
pub fn fetch_release<I: Inbox>(
    alloc: Global,
    inbox: &mut I,
    mirror: &Mirror,
) -> Result<Release, UpdateFault>
    ensures told { IsShort mirror.now → ForSome (I.map inbox.old) (λ f. Meets (IsFetched f mirror.now) result) }
    // On any inbox it is what some text says.
    ensures said { IfOk result IsSomeRelease }
    ensures fault { IfErr result (IsReleaseFault mirror.now) }
    ensures map { I.map inbox.new ≡ I.map inbox.old }
    ensures cause { CauseOf InboxFault (I.faults inbox.old) (I.faults inbox.new) result }
{
    let path = path_of_release(alloc, mirror)?;
    let bytes = read_within(alloc, inbox, &path, Limit::ReleaseBytes)?;
    read_text(alloc, &path, bytes.as_slice())
}
