//! The root text of a state.
ghost use Rattle.std.specs.Prelude.{◌≡◌, ◌++◌, ◌∷◌, OnOk, IfOk, string_bytes, [], unwrap_or};
ghost use Rattle.std.specs.List.{flat_map};
ghost use Rattle.catalogue_lines.specs.Pieces.{joined};
ghost use Rattle.catalogue_text.specs.Root.{repo_pieces, repos_pieces, snapshot_pieces, snapshots_pieces, last_pieces, root_text as root_of};

use crate::write_mirrors::put_mirrors;
use ap_text::Name;
use catalogue_lines::{put_count, put_fixed, put_known, put_line, put_set, put_setting};
use catalogue_publications::put_publications;
use control_stanza::Text;
use machine_state::{Repo, Snapshot, State};
use std::alloc::{AllocError, Global};

fn optional_text(name: &Option<Name>) -> &str
    ensures { result.now ≡ unwrap_or name.now [] }
{
    match name {
        None => "",
        Some(name) => name.as_str(),
    }
}

fn put_repo(alloc: Global, out: &mut String, repo: &Repo) -> Result<(), AllocError>
    ensures { OnOk result (string_bytes out.new ≡ string_bytes out.old ++ joined (repo_pieces repo.now)) }
{
    put_line(out, "repo ", repo.name.as_str())?;
    put_setting(out, "comment", repo.comment.as_str())?;
    put_setting(out, "distribution", optional_text(&repo.distribution))?;
    put_line(out, "component ", repo.component.as_str())?;
    put_set(alloc, out, &repo.list)
}

fn put_each(alloc: Global, out: &mut String, repos: &[Repo]) -> Result<(), AllocError>
    ensures { OnOk result (string_bytes out.new ≡ string_bytes out.old ++ joined (flat_map repo_pieces repos.now)) }
{
    for repo in repos {
        put_repo(alloc, out, repo)?;
    }
    Ok(())
}

pub(crate) fn put_repos(alloc: Global, out: &mut String, repos: &[Repo]) -> Result<(), AllocError>
    ensures { OnOk result (string_bytes out.new ≡ string_bytes out.old ++ joined (repos_pieces repos.now)) }
{
    put_count(out, "repos ", repos.len())?;
    put_each(alloc, out, repos)
}

fn put_snapshot(alloc: Global, out: &mut String, snapshot: &Snapshot) -> Result<(), AllocError>
    ensures { OnOk result (string_bytes out.new ≡ string_bytes out.old ++ joined (snapshot_pieces snapshot.now)) }
{
    put_line(out, "snapshot ", snapshot.name.as_str())?;
    put_set(alloc, out, &snapshot.list)
}

fn put_each_snapshot(
    alloc: Global,
    out: &mut String,
    snapshots: &[Snapshot],
) -> Result<(), AllocError>
    ensures { OnOk result (string_bytes out.new ≡ string_bytes out.old ++ joined (flat_map snapshot_pieces snapshots.now)) }
{
    for snapshot in snapshots {
        put_snapshot(alloc, out, snapshot)?;
    }
    Ok(())
}

pub(crate) fn put_snapshots(
    alloc: Global,
    out: &mut String,
    snapshots: &[Snapshot],
) -> Result<(), AllocError>
    ensures { OnOk result (string_bytes out.new ≡ string_bytes out.old ++ joined (snapshots_pieces snapshots.now)) }
{
    put_count(out, "snapshots ", snapshots.len())?;
    put_each_snapshot(alloc, out, snapshots)
}

fn put_last(out: &mut String) -> Result<(), AllocError>
    ensures { OnOk result (string_bytes out.new ≡ string_bytes out.old ++ joined last_pieces) }
{
    put_fixed(out, "end")
}

/// The root text of a state. Fails only for want of memory.
pub fn root_text(alloc: Global, state: &State) -> Result<Text, AllocError>
    ensures { IfOk result (λ text. text ≡ root_of state.now) }
{
    let mut out = String::new(alloc);
    put_known(alloc, &mut out, &state.known)?;
    put_mirrors(alloc, &mut out, &state.mirrors)?;
    put_repos(alloc, &mut out, &state.repos)?;
    put_snapshots(alloc, &mut out, &state.snapshots)?;
    put_publications(alloc, &mut out, &state.publications)?;
    put_last(&mut out)?;
    Text::new(alloc, out.as_str())
}
