// A file in a real folder.
use ap_host::{Host, HostErr, Inbox, InboxErr};
use ap_text::SafePath;
use real_edge::{FolderHost, FolderInbox};
use std::alloc::Global;
use std::fs::File;
use std::rt::Files;
use std::test::Fail;
use std::{env, fs, process};

/// The paths that are tried.
#[derive(Drop)]
struct Paths {
    /// A file that is laid.
    staged: SafePath,
    /// The path that it is given then, in `folder`.
    root: SafePath,
    folder: SafePath,
    /// The path of that file from the folder above the store's.
    stored: SafePath,
}

fn path(alloc: Global, text: &str) -> Result<SafePath, HostErr> {
    match SafePath::new(alloc, text) {
        Ok(path) => Ok(path),
        Err(_) => Err(HostErr::OutOfMemory),
    }
}

fn all_paths(alloc: Global) -> Result<Paths, HostErr> {
    Ok(Paths {
        staged: path(alloc, "stage/0")?,
        root: path(alloc, "db/root")?,
        folder: path(alloc, "db")?,
        stored: path(alloc, "aptly-store/db/root")?,
    })
}

/// Lays a file, and gives it another path.
fn lay<R: Files<File = File> + Print + AllocGlobal + Clone + Drop>(
    host: &mut FolderHost<'_, R>,
    staged: &SafePath,
    file: &SafePath,
) -> Result<(), HostErr> {
    host.barrier()?;
    host.create(staged)?;
    host.append(staged, b"hello")?;
    host.sync(staged)?;
    host.rename(staged, file)?;
    host.barrier()
}

/// The length of a file, how many of its bytes were read from the fourth on, and these.
fn read<R: Files<File = File> + Print + AllocGlobal + Clone + Drop>(
    host: &mut FolderHost<'_, R>,
    file: &SafePath,
) -> Result<(Option<u64>, usize, [u8; 3]), HostErr> {
    let length = host.length(file)?;
    let mut out = [0; 3];
    let count = host.read_at(file, 3, &mut out)?;
    Ok((length, count, out))
}

/// Whether a folder has this file alone.
fn has_only<R: Files<File = File> + Print + AllocGlobal + Clone + Drop>(
    host: &mut FolderHost<'_, R>,
    folder: &SafePath,
    file: &SafePath,
) -> Result<bool, HostErr> {
    let names = host.names(folder)?;
    match names.as_slice() {
        [name] => Ok(name.is(file)),
        _ => Ok(false),
    }
}

/// How many bytes of a file an inbox in this folder gives.
fn taken<R: Files<File = File> + AllocGlobal + Clone + Drop>(
    rt: &R,
    folder: &str,
    file: &SafePath,
) -> Result<usize, InboxErr> {
    let mut inbox = FolderInbox::new(rt, folder)?;
    let mut out = [0; 3];
    inbox.read_at(file, 0, &mut out)
}

/// Whether a further host gets the store.
fn is_claimed<R: Files<File = File> + Print + AllocGlobal + Clone + Drop>(
    rt: &R,
    folder: &str,
) -> Result<bool, HostErr> {
    let mut host = FolderHost::new(rt, folder)?;
    host.claim()
}

/// Whether a host gets the store, and a second one doesn't.
fn is_claimed_once<R: Files<File = File> + Print + AllocGlobal + Clone + Drop>(
    rt: &R,
    host: &mut FolderHost<'_, R>,
    folder: &str,
) -> Result<bool, HostErr> {
    let first = host.claim()?;
    let second = is_claimed(rt, folder)?;
    Ok(first && !second)
}

/// Whether a file that is laid is read back, and is its folder's only one, and the staged one is gone.
fn is_laid<R: Files<File = File> + Print + AllocGlobal + Clone + Drop>(
    host: &mut FolderHost<'_, R>,
    paths: &Paths,
) -> Result<bool, HostErr> {
    lay(host, &paths.staged, &paths.root)?;
    let gone = matches!(read(host, &paths.staged)?, (None, 0, [0, 0, 0]));
    let there = matches!(read(host, &paths.root)?, (Some(5), 2, [b'l', b'o', 0]));
    let fails = matches!(host.append(&paths.staged, b"!"), Err(HostErr::Failed));
    let only = has_only(host, &paths.folder, &paths.root)?;
    Ok(gone && there && fails && only)
}

/// Whether an inbox gives a file of the folder, and none of the folder below it where a store is.
fn is_given<R: Files<File = File> + AllocGlobal + Clone + Drop>(
    rt: &R,
    above: &str,
    folder: &str,
    paths: &Paths,
) -> bool {
    matches!(taken(rt, folder, &paths.root), Ok(3))
        && matches!(taken(rt, above, &paths.stored), Ok(0))
}

/// Whether all is as it should be of a store in a folder, where these paths are tried.
fn is_well_at<R: Files<File = File> + Print + AllocGlobal + Clone + Drop>(
    rt: &R,
    host: &mut FolderHost<'_, R>,
    above: &str,
    folder: &str,
    paths: &Paths,
) -> Result<bool, HostErr> {
    let claimed = is_claimed_once(rt, host, folder)?;
    let laid = is_laid(host, paths)?;
    let given = is_given(rt, above, folder, paths);
    host.remove(&paths.root)?;
    host.say(b"")?;
    Ok(claimed && laid && given)
}

/// Whether all is as it should be of a store in a folder.
fn is_well<R: Files<File = File> + Print + AllocGlobal + Clone + Drop>(
    rt: &R,
    host: &mut FolderHost<'_, R>,
    above: &str,
    folder: &str,
) -> Result<bool, HostErr> {
    let paths = all_paths(rt.alloc())?;
    is_well_at(rt, host, above, folder, &paths)
}

fn is_store_well_in<R: Files<File = File> + Print + AllocGlobal + Clone + Drop>(
    rt: &R,
    above: &str,
    folder: &str,
) -> Result<bool, HostErr> {
    let mut host = FolderHost::new(rt, folder)?;
    is_well(rt, &mut host, above, folder)
}

fn is_store_well<R: Files<File = File> + Print + AllocGlobal + Clone + Drop>(
    rt: &R,
    above: &str,
) -> Result<bool, HostErr> {
    let folder = format!(in rt.alloc(); "{}/aptly-store", above)?;
    is_store_well_in(rt, above, folder.as_str())
}

#[test]
fn a_file_is_laid_and_read_back(rt: HostRuntime) -> Result<(), Fail> {
    let above = format!(in rt.alloc();
        "{}/real_edge_{}",
        env::temp_dir(&rt)?.display(),
        process::id(rt.process())
    )?;
    assert_eq!(rt; is_store_well(&rt, above.as_str()), Ok(true));
    fs::remove_dir_all(&rt, above.as_str())?;
    Ok(())
}
