//! What a state has.

use crate::answers::Answer;
use catalogue_text::RootFault;
use machine_state::{Repo, Snapshot, State};
use row_table::{put, put_at};
use std::alloc::AllocError;

fn put_repos(out: &mut String, repos: &[Repo]) -> Result<(), AllocError> {
    for repo in repos {
        put(out, &[", repo ", repo.name.as_str()])?;
        put_at(out, " of ", repo.list.len() as u64)?;
    }
    Ok(())
}

fn put_snapshots(out: &mut String, snapshots: &[Snapshot]) -> Result<(), AllocError> {
    for snapshot in snapshots {
        put(out, &[", snapshot ", snapshot.name.as_str()])?;
        put_at(out, " of ", snapshot.list.len() as u64)?;
    }
    Ok(())
}

/// Puts how many packages are known, the repositories and the snapshots.
pub fn put_state(out: &mut String, state: &State) -> Result<(), AllocError> {
    put_at(out, "known ", state.known.len() as u64)?;
    put_repos(out, &state.repos)?;
    put_snapshots(out, &state.snapshots)
}

impl Answer for RootFault {
    fn put(&self, out: &mut String) -> Result<(), AllocError> {
        match self {
            RootFault::At { line } => put_at(out, "line ", *line),
            RootFault::OutOfMemory => out.push_str("out of memory"),
        }
    }
}
