//! What words spell: one command with its flags and its arguments, as they were written.
use control_stanza::Text;

/// Which dependencies are followed, and for which architectures.
#[derive(Drop)]
pub struct Follow {
    /// `-architectures=`: only these. None where the flag isn't written.
    pub architectures: Option<Vec<Text>>,
    /// `-dep-follow-recommends`.
    pub recommends: Option<bool>,
    /// `-dep-follow-suggests`.
    pub suggests: Option<bool>,
}

/// What a new snapshot is taken from.
#[derive(Drop)]
pub enum Origin {
    /// `from mirror` and a mirror's name.
    Mirror(Text),
    /// `from repo` and a repository's name.
    Repo(Text),
    /// `empty`.
    Empty,
}

/// A command. Texts stand as they were written, a flag's after its `=`. A flag that isn't written is
/// None, and a switch is set where it is `Some(true)`.
#[derive(Drop)]
pub enum Command {
    /// `mirror create`: keeps a part of an archive.
    MirrorCreate {
        architectures: Option<Vec<Text>>,
        filter: Option<Text>,
        filter_with_deps: Option<bool>,
        name: Text,
        archive: Text,
        distribution: Text,
        components: Vec<Text>,
    },
    /// `mirror update`: takes what the archive has now.
    MirrorUpdate {
        name: Text,
    },
    /// `mirror list`.
    MirrorList,
    /// `mirror show`.
    MirrorShow {
        with_packages: Option<bool>,
        name: Text,
    },
    /// `mirror rename`.
    MirrorRename {
        from_name: Text,
        to_name: Text,
    },
    /// `mirror drop`.
    MirrorDrop {
        name: Text,
    },
    /// `repo create`: a repository without packages.
    RepoCreate {
        comment: Option<Text>,
        distribution: Option<Text>,
        component: Option<Text>,
        name: Text,
    },
    /// `repo add`: the packages of a folder.
    RepoAdd {
        name: Text,
        folder: Text,
    },
    /// `repo list`.
    RepoList,
    /// `repo show`.
    RepoShow {
        with_packages: Option<bool>,
        name: Text,
    },
    /// `repo edit`: an empty comment or distribution is none.
    RepoEdit {
        comment: Option<Text>,
        distribution: Option<Text>,
        component: Option<Text>,
        name: Text,
    },
    /// `repo remove`: the packages that the queries take.
    RepoRemove {
        dry_run: Option<bool>,
        name: Text,
        queries: Vec<Text>,
    },
    /// `repo copy`: from one repository into another.
    RepoCopy {
        dry_run: Option<bool>,
        with_deps: Option<bool>,
        follow: Follow,
        source: Text,
        destination: Text,
        queries: Vec<Text>,
    },
    /// `repo move`: the same, and out of the source.
    RepoMove {
        dry_run: Option<bool>,
        with_deps: Option<bool>,
        follow: Follow,
        source: Text,
        destination: Text,
        queries: Vec<Text>,
    },
    /// `repo import`: from a mirror.
    RepoImport {
        dry_run: Option<bool>,
        with_deps: Option<bool>,
        follow: Follow,
        mirror: Text,
        repo: Text,
        queries: Vec<Text>,
    },
    /// `repo rename`.
    RepoRename {
        from_name: Text,
        to_name: Text,
    },
    /// `repo drop`.
    RepoDrop {
        name: Text,
    },
    /// `snapshot create`.
    SnapshotCreate {
        name: Text,
        origin: Origin,
    },
    /// `snapshot list`.
    SnapshotList,
    /// `snapshot show`.
    SnapshotShow {
        with_packages: Option<bool>,
        name: Text,
    },
    /// `snapshot filter`: the packages of a snapshot that the queries take.
    SnapshotFilter {
        with_deps: Option<bool>,
        follow: Follow,
        source: Text,
        destination: Text,
        queries: Vec<Text>,
    },
    /// `snapshot merge`: never with both switches set.
    SnapshotMerge {
        latest: Option<bool>,
        no_remove: Option<bool>,
        destination: Text,
        sources: Vec<Text>,
    },
    /// `snapshot pull`: packages of a source, with what they need, into a snapshot.
    SnapshotPull {
        all_matches: Option<bool>,
        dry_run: Option<bool>,
        no_deps: Option<bool>,
        no_remove: Option<bool>,
        follow: Follow,
        name: Text,
        source: Text,
        destination: Text,
        queries: Vec<Text>,
    },
    /// `snapshot search`.
    SnapshotSearch {
        with_deps: Option<bool>,
        follow: Follow,
        name: Text,
        query: Text,
    },
    /// `snapshot rename`.
    SnapshotRename {
        from_name: Text,
        to_name: Text,
    },
    /// `snapshot drop`.
    SnapshotDrop {
        name: Text,
    },
    /// `publish snapshot`: the i-th source is the i-th component's.
    PublishSnapshot {
        architectures: Option<Vec<Text>>,
        components: Option<Vec<Text>>,
        distribution: Option<Text>,
        origin: Option<Text>,
        label: Option<Text>,
        suite: Option<Text>,
        codename: Option<Text>,
        sources: Vec<Text>,
        prefix: Option<Text>,
    },
    /// `publish repo`: the i-th source is the i-th component's.
    PublishRepo {
        architectures: Option<Vec<Text>>,
        components: Option<Vec<Text>>,
        distribution: Option<Text>,
        origin: Option<Text>,
        label: Option<Text>,
        suite: Option<Text>,
        codename: Option<Text>,
        sources: Vec<Text>,
        prefix: Option<Text>,
    },
    /// `publish list`.
    PublishList,
    /// `publish show`.
    PublishShow {
        distribution: Text,
        prefix: Option<Text>,
    },
    /// `publish switch`: other snapshots behind a publication.
    PublishSwitch {
        components: Option<Vec<Text>>,
        distribution: Text,
        prefix: Option<Text>,
        snapshots: Vec<Text>,
    },
    /// `publish update`: what the repositories hold now.
    PublishUpdate {
        distribution: Text,
        prefix: Option<Text>,
    },
    /// `publish drop`.
    PublishDrop {
        distribution: Text,
        prefix: Option<Text>,
    },
    /// `package search`: by name, version and architecture.
    PackageSearch {
        query: Text,
    },
    /// `package show`: whole.
    PackageShow {
        query: Text,
    },
    /// `db cleanup`: removes what nothing needs.
    DbCleanup,
}
