//! Copies of commands of mirrors.
ghost use Rattle.std.specs.Prelude.{◌≡◌, IfOk, option_map};
ghost use Rattle.command_value.specs.Plain.{plain, of_mirror, mirror_create as mirror_create_of};

use crate::command::Command;
use crate::copying::repo::copy_repo;
use crate::copying::{copies, copies_in, copy_in};
use control_stanza::Text;
use std::alloc::{AllocError, Global};

fn mirror_create(
    alloc: Global,
    architectures: &Option<Vec<Text>>,
    filter: &Option<Text>,
    filter_with_deps: &Option<bool>,
    name: &Text,
    archive: &Text,
    distribution: &Text,
    components: &[Text],
) -> Result<Command, AllocError>
    ensures { IfOk result (λ made. plain made ≡ of_mirror (mirror_create_of (option_map (λ v. v.items) architectures.now) filter.now filter_with_deps.now name.now archive.now distribution.now components.now)) }
{
    Ok(Command::MirrorCreate {
        architectures: copies_in(alloc, architectures)?,
        filter: copy_in(alloc, filter)?,
        filter_with_deps: *filter_with_deps,
        name: name.copy(alloc)?,
        archive: archive.copy(alloc)?,
        distribution: distribution.copy(alloc)?,
        components: copies(alloc, components)?,
    })
}

/// A copy of a command of mirrors. Another command is handed on.
pub(super) fn copy_mirror(alloc: Global, command: &Command) -> Result<Command, AllocError>
    ensures { IfOk result (λ made. plain made ≡ plain command.now) }
{
    match command {
        Command::MirrorCreate {
            architectures,
            filter,
            filter_with_deps,
            name,
            archive,
            distribution,
            components,
        } => mirror_create(
            alloc,
            architectures,
            filter,
            filter_with_deps,
            name,
            archive,
            distribution,
            components.as_slice(),
        ),
        Command::MirrorUpdate { name } => Ok(Command::MirrorUpdate {
            name: name.copy(alloc)?,
        }),
        Command::MirrorList => Ok(Command::MirrorList),
        Command::MirrorShow {
            with_packages,
            name,
        } => Ok(Command::MirrorShow {
            with_packages: *with_packages,
            name: name.copy(alloc)?,
        }),
        Command::MirrorRename { from_name, to_name } => Ok(Command::MirrorRename {
            from_name: from_name.copy(alloc)?,
            to_name: to_name.copy(alloc)?,
        }),
        Command::MirrorDrop { name } => Ok(Command::MirrorDrop {
            name: name.copy(alloc)?,
        }),
        _ => copy_repo(alloc, command),
    }
}
