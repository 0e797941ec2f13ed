//! Copies of commands of publications.
ghost use Rattle.std.specs.Prelude.{◌≡◌, IfOk, option_map};
ghost use Rattle.command_value.specs.Plain.{plain, of_publish, publish_snapshot as publish_snapshot_of, publish_repo as publish_repo_of, publish_switch as publish_switch_of};
ghost use Rattle.command_value.specs.Settings.{settings_of};

use crate::command::Command;
use crate::copying::other::copy_other;
use crate::copying::{copies, copies_in, copy_in};
use control_stanza::Text;
use std::alloc::{AllocError, Global};

fn publish_snapshot(
    alloc: Global,
    architectures: &Option<Vec<Text>>,
    components: &Option<Vec<Text>>,
    distribution: &Option<Text>,
    origin: &Option<Text>,
    label: &Option<Text>,
    suite: &Option<Text>,
    codename: &Option<Text>,
    sources: &[Text],
    prefix: &Option<Text>,
) -> Result<Command, AllocError>
    ensures { IfOk result (λ made. plain made ≡ of_publish (publish_snapshot_of (settings_of architectures.now components.now distribution.now origin.now label.now suite.now codename.now) sources.now prefix.now)) }
{
    Ok(Command::PublishSnapshot {
        architectures: copies_in(alloc, architectures)?,
        components: copies_in(alloc, components)?,
        distribution: copy_in(alloc, distribution)?,
        origin: copy_in(alloc, origin)?,
        label: copy_in(alloc, label)?,
        suite: copy_in(alloc, suite)?,
        codename: copy_in(alloc, codename)?,
        sources: copies(alloc, sources)?,
        prefix: copy_in(alloc, prefix)?,
    })
}

fn publish_repo(
    alloc: Global,
    architectures: &Option<Vec<Text>>,
    components: &Option<Vec<Text>>,
    distribution: &Option<Text>,
    origin: &Option<Text>,
    label: &Option<Text>,
    suite: &Option<Text>,
    codename: &Option<Text>,
    sources: &[Text],
    prefix: &Option<Text>,
) -> Result<Command, AllocError>
    ensures { IfOk result (λ made. plain made ≡ of_publish (publish_repo_of (settings_of architectures.now components.now distribution.now origin.now label.now suite.now codename.now) sources.now prefix.now)) }
{
    Ok(Command::PublishRepo {
        architectures: copies_in(alloc, architectures)?,
        components: copies_in(alloc, components)?,
        distribution: copy_in(alloc, distribution)?,
        origin: copy_in(alloc, origin)?,
        label: copy_in(alloc, label)?,
        suite: copy_in(alloc, suite)?,
        codename: copy_in(alloc, codename)?,
        sources: copies(alloc, sources)?,
        prefix: copy_in(alloc, prefix)?,
    })
}

fn publish_switch(
    alloc: Global,
    components: &Option<Vec<Text>>,
    distribution: &Text,
    prefix: &Option<Text>,
    snapshots: &[Text],
) -> Result<Command, AllocError>
    ensures { IfOk result (λ made. plain made ≡ of_publish (publish_switch_of (option_map (λ v. v.items) components.now) distribution.now prefix.now snapshots.now)) }
{
    Ok(Command::PublishSwitch {
        components: copies_in(alloc, components)?,
        distribution: distribution.copy(alloc)?,
        prefix: copy_in(alloc, prefix)?,
        snapshots: copies(alloc, snapshots)?,
    })
}

/// A copy of a command of publications. Another command is handed on.
pub(super) fn copy_publish(alloc: Global, command: &Command) -> Result<Command, AllocError>
    ensures { IfOk result (λ made. plain made ≡ plain command.now) }
{
    match command {
        Command::PublishSnapshot {
            architectures,
            components,
            distribution,
            origin,
            label,
            suite,
            codename,
            sources,
            prefix,
        } => publish_snapshot(
            alloc,
            architectures,
            components,
            distribution,
            origin,
            label,
            suite,
            codename,
            sources.as_slice(),
            prefix,
        ),
        Command::PublishRepo {
            architectures,
            components,
            distribution,
            origin,
            label,
            suite,
            codename,
            sources,
            prefix,
        } => publish_repo(
            alloc,
            architectures,
            components,
            distribution,
            origin,
            label,
            suite,
            codename,
            sources.as_slice(),
            prefix,
        ),
        Command::PublishList => Ok(Command::PublishList),
        Command::PublishShow {
            distribution,
            prefix,
        } => Ok(Command::PublishShow {
            distribution: distribution.copy(alloc)?,
            prefix: copy_in(alloc, prefix)?,
        }),
        Command::PublishSwitch {
            components,
            distribution,
            prefix,
            snapshots,
        } => publish_switch(
            alloc,
            components,
            distribution,
            prefix,
            snapshots.as_slice(),
        ),
        Command::PublishUpdate {
            distribution,
            prefix,
        } => Ok(Command::PublishUpdate {
            distribution: distribution.copy(alloc)?,
            prefix: copy_in(alloc, prefix)?,
        }),
        Command::PublishDrop {
            distribution,
            prefix,
        } => Ok(Command::PublishDrop {
            distribution: distribution.copy(alloc)?,
            prefix: copy_in(alloc, prefix)?,
        }),
        _ => copy_other(alloc, command),
    }
}
