//! Commands as they were read.

use crate::answers::Answer;
use command_words::{Command, Origin, WordFault};
use control_stanza::Text;
use row_table::{put, put_at};
use std::alloc::AllocError;

/// A verb, and its arguments.
fn put_verb(out: &mut String, verb: &str, arguments: &[&Text]) -> Result<(), AllocError> {
    put(out, &[verb])?;
    for text in arguments {
        put(out, &[" <", text.as_str(), ">"])?;
    }
    Ok(())
}

/// A flag that is written.
fn put_flag(out: &mut String, name: &str, value: &Option<Text>) -> Result<(), AllocError> {
    match value {
        Some(text) => {
            put(out, &[name])?;
            put(out, &["<", text.as_str(), ">"])
        }
        None => Ok(()),
    }
}

fn put_switch(out: &mut String, name: &str, value: &Option<bool>) -> Result<(), AllocError> {
    match value {
        Some(true) => put(out, &[name, "true"]),
        Some(false) => put(out, &[name, "false"]),
        None => Ok(()),
    }
}

/// The settings of a repository that are written.
fn put_settings(
    out: &mut String,
    comment: &Option<Text>,
    distribution: &Option<Text>,
    component: &Option<Text>,
) -> Result<(), AllocError> {
    put_flag(out, " comment=", comment)?;
    put_flag(out, " distribution=", distribution)?;
    put_flag(out, " component=", component)
}

/// A command that some whole call makes today, or another one that has an example.
fn put_command(out: &mut String, command: &Command) -> Result<(), AllocError> {
    match command {
        Command::RepoCreate {
            name,
            comment,
            distribution,
            component,
        } => {
            put_verb(out, "repo create", &[name])?;
            put_settings(out, comment, distribution, component)
        }
        Command::RepoEdit {
            name,
            comment,
            distribution,
            component,
        } => {
            put_verb(out, "repo edit", &[name])?;
            put_settings(out, comment, distribution, component)
        }
        Command::RepoAdd { name, folder } => put_verb(out, "repo add", &[name, folder]),
        Command::RepoShow {
            with_packages,
            name,
        } => {
            put_verb(out, "repo show", &[name])?;
            put_switch(out, " with-packages=", with_packages)
        }
        Command::RepoList => put_verb(out, "repo list", &[]),
        Command::RepoDrop { name } => put_verb(out, "repo drop", &[name]),
        Command::PackageSearch { query } => put_verb(out, "package search", &[query]),
        Command::PackageShow { query } => put_verb(out, "package show", &[query]),
        _ => put_other(out, command),
    }
}

fn put_other(out: &mut String, command: &Command) -> Result<(), AllocError> {
    match command {
        Command::SnapshotCreate {
            name,
            origin: Origin::Repo(source),
        } => { put_verb(out, "snapshot create, from repo", &[name, source]) }
        Command::SnapshotMerge {
            latest,
            no_remove,
            destination,
            ..
        } => {
            put_verb(out, "snapshot merge", &[destination])?;
            put_switch(out, " latest=", latest)?;
            put_switch(out, " no-remove=", no_remove)
        }
        Command::MirrorCreate { filter, name, .. } => {
            put_verb(out, "mirror create", &[name])?;
            put_flag(out, " filter=", filter)
        }
        _ => put_verb(out, "another command", &[]),
    }
}

/// Each command in a line.
impl Answer for Vec<Command> {
    fn put(&self, out: &mut String) -> Result<(), AllocError> {
        for command in self.iter() {
            put_command(out, command)?;
            put(out, &["\n"])?;
        }
        Ok(())
    }
}

impl Answer for WordFault {
    fn put(&self, out: &mut String) -> Result<(), AllocError> {
        match self {
            WordFault::At { place } => put_at(out, "at ", *place),
            WordFault::OutOfMemory => out.push_str("out of memory"),
        }
    }
}
