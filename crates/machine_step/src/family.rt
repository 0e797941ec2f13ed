//! The families of commands.
ghost use Rattle.std.specs.Prelude.{◌≡◌};
ghost use Rattle.command_words.specs.Plain.{plain};
ghost use Rattle.machine_step.specs.Family.{family};

use command_words::Command;

/// The family of a command: what says what it is in a state.
#[derive(Clone, Copy)]
pub enum Family {
    /// The commands of mirrors.
    Mirror,
    /// Those of local repositories.
    Repo,
    /// Those of snapshots.
    Snapshot,
    /// Those of publications.
    Publish,
    /// Those of packages and of the store.
    Other,
}

/// The family that the command is of.
pub(crate) fn family_of(command: &Command) -> Family
    ensures { result ≡ family (plain command.now) }
{
    match command {
        Command::MirrorCreate { .. }
        | Command::MirrorUpdate { .. }
        | Command::MirrorList
        | Command::MirrorShow { .. }
        | Command::MirrorRename { .. }
        | Command::MirrorDrop { .. } => Family::Mirror,
        Command::RepoCreate { .. }
        | Command::RepoAdd { .. }
        | Command::RepoList
        | Command::RepoShow { .. }
        | Command::RepoEdit { .. }
        | Command::RepoRemove { .. }
        | Command::RepoCopy { .. }
        | Command::RepoMove { .. }
        | Command::RepoImport { .. }
        | Command::RepoRename { .. }
        | Command::RepoDrop { .. } => Family::Repo,
        Command::SnapshotCreate { .. }
        | Command::SnapshotList
        | Command::SnapshotShow { .. }
        | Command::SnapshotFilter { .. }
        | Command::SnapshotMerge { .. }
        | Command::SnapshotPull { .. }
        | Command::SnapshotSearch { .. }
        | Command::SnapshotRename { .. }
        | Command::SnapshotDrop { .. } => Family::Snapshot,
        Command::PublishSnapshot { .. }
        | Command::PublishRepo { .. }
        | Command::PublishList
        | Command::PublishShow { .. }
        | Command::PublishSwitch { .. }
        | Command::PublishUpdate { .. }
        | Command::PublishDrop { .. } => Family::Publish,
        Command::PackageSearch { .. } | Command::PackageShow { .. } | Command::DbCleanup => {
            Family::Other
        }
    }
}
