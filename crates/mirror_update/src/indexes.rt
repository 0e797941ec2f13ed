//! The indexes of an archive are read.
ghost use Rattle.std.specs.Prelude.{◌≡◌, ◌≤◌, IfOk, IfErr, All, length};
ghost use Rattle.std.specs.Option.{ForSome, option_copied};
ghost use Rattle.ap_text.specs.Paths.{below_folder};
ghost use Rattle.ap_host.specs.Calls.{CauseOf};
ghost use Rattle.index_text.specs.Index.{ArePackages};
ghost use Rattle.machine_state.specs.declared.arrived.UpdateFault.TheVariants.{InboxFault};
ghost use Rattle.package_intake.specs.Index.{AreShort};
ghost use Rattle.package_intake.specs.Faults.{IsInputFault};
ghost use Rattle.mirror_update.specs.Fetch.{MeetsItems};
ghost use Rattle.mirror_update.specs.Wanted.{listed_at as file_at, stated_of};
ghost use Rattle.mirror_update.specs.Indexes.{AreAllRead, FaultOfListed, FaultOfOne, IsIndexRead};

use ap_host::Inbox;
use ap_text::SafePath;
use digest_set::Said;
use machine_state::UpdateFault;
use package_core::Package;
use package_intake::{absent, path_below, read_entries, read_stated};
use release_file::Listed;
use std::alloc::Global;

/// The file that is listed at this path, if there is one.
fn listed_at<'a>(files: &'a [Listed], path: &SafePath) -> Option<&'a Listed>
    ensures { option_copied result ≡ file_at files.now path.now }
{
    files
        .iter()
        .find(|file| file.path.as_str() == path.as_str())
}

/// What a Release says of a file.
fn stated(file: &Listed) -> Said
    ensures { result ≡ stated_of file.now }
{
    Said {
        size: file.size,
        sha256: file.sha256,
        sha1: None,
        md5: None,
    }
}

/// What the index of this name below the folder says, of which the Release lists these files.
fn read_one<I: Inbox>(
    alloc: Global,
    inbox: &mut I,
    folder: &SafePath,
    files: &[Listed],
    name: &SafePath,
) -> Result<Vec<(Package, SafePath)>, UpdateFault>
    ensures told { length (below_folder folder.now name.now) ≤ 1000 → ForSome (I.map inbox.old) (λ f. MeetsItems (IsIndexRead f folder.now files.now name.now) result) }
    ensures packages { IfOk result (λ v. ArePackages v.items) }
    ensures short { IfOk result (λ v. AreShort v.items) }
    ensures fault { IfErr result IsInputFault }
    ensures mismatch { IfErr result (FaultOfOne folder.now files.now name.now) }
    ensures map { I.map inbox.new ≡ I.map inbox.old }
    ensures cause { CauseOf InboxFault (I.faults inbox.old) (I.faults inbox.new) result }
{
    let path = path_below(alloc, folder, name)?;
    let Some(file) = listed_at(files, name) else {
        return Err(absent(alloc, &path));
    };
    let bytes = read_stated(alloc, inbox, &path, &stated(file))?;
    read_entries(alloc, &path, bytes.as_slice())
}

/// What the indexes of these names below the folder say, one after the other. Each is listed and there, else `InputAbsent`; its listed
/// size is at most 134,217,728 bytes, else `Limit(Index)`; it has that size and the listed SHA-256, else `InputMismatch` with the first
/// that differs; and it is an index of binary packages, else `InputMalformed`.
pub(crate) fn read_all<I: Inbox>(
    alloc: Global,
    inbox: &mut I,
    folder: &SafePath,
    files: &[Listed],
    names: &[SafePath],
) -> Result<Vec<(Package, SafePath)>, UpdateFault>
    ensures told { All (λ name. length (below_folder folder.now name) ≤ 1000) names.now → ForSome (I.map inbox.old) (λ f. MeetsItems (AreAllRead f folder.now files.now names.now) result) }
    ensures packages { IfOk result (λ v. ArePackages v.items) }
    ensures short { IfOk result (λ v. AreShort v.items) }
    ensures fault { IfErr result IsInputFault }
    ensures mismatch { IfErr result (FaultOfListed folder.now files.now names.now) }
    ensures map { I.map inbox.new ≡ I.map inbox.old }
    ensures cause { CauseOf InboxFault (I.faults inbox.old) (I.faults inbox.new) result }
{
    let mut all = Vec::new(alloc);
    for name in names {
        let mut entries = read_one(alloc, inbox, folder, files, name)?;
        all.append(&mut entries)?;
    }
    Ok(all)
}
