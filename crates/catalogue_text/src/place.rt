//! Where the publications of a root begin.
ghost use Rattle.std.specs.Prelude.{◌≡◌, ◌++◌, suc, IfOk, OnOk, string_bytes};
ghost use Rattle.catalogue_lines.specs.Lines.{line_ends as line_ends_of};
ghost use Rattle.catalogue_text.specs.Places.{publications_place};
ghost use Rattle.catalogue_lines.specs.Pieces.{joined};
ghost use Rattle.catalogue_lines.specs.KnownForms.{known_pieces};
ghost use Rattle.catalogue_text.specs.Root.{mirrors_pieces, repos_pieces, snapshots_pieces};

use crate::write::{put_repos, put_snapshots};
use crate::write_mirrors::put_mirrors;
use catalogue_lines::{line_ends, put_known};
use machine_state::{Mirror, Repo, Snapshot, State};
use package_list::PackageList;
use std::alloc::{AllocError, Global};

/// What stands before the publications.
fn put_front(
    alloc: Global,
    out: &mut String,
    known: &PackageList,
    mirrors: &[Mirror],
    repos: &[Repo],
    snapshots: &[Snapshot],
) -> Result<(), AllocError>
    ensures { OnOk result (string_bytes out.new ≡ string_bytes out.old ++ joined (known_pieces known.now ++ (mirrors_pieces mirrors.now ++ (repos_pieces repos.now ++ snapshots_pieces snapshots.now)))) }
{
    put_known(alloc, out, known)?;
    put_mirrors(alloc, out, mirrors)?;
    put_repos(alloc, out, repos)?;
    put_snapshots(alloc, out, snapshots)
}

/// The number, from 1, of the line behind these whole lines.
fn next_line(text: &[u8]) -> u64
    ensures { result ≡ suc (line_ends_of text.now) }
{
    line_ends(text) as u64 + 1
}

/// The number, from 1, of the line that counts the publications in the root text of a state. Fails only for want of memory.
pub fn publications_line(alloc: Global, state: &State) -> Result<u64, AllocError>
    ensures { IfOk result (λ line. line ≡ publications_place state.now) }
{
    let mut out = String::new(alloc);
    put_front(
        alloc,
        &mut out,
        &state.known,
        &state.mirrors,
        &state.repos,
        &state.snapshots,
    )?;
    Ok(next_line(out.as_str().as_bytes()))
}
