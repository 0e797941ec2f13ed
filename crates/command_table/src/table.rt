//! The table of commands: for each group and verb its flags and its arguments.
ghost use Rattle.std.specs.Prelude.{◌≡◌, ◌&&◌, option_map, map};
ghost use Rattle.std.specs.List.{find, list_any};
ghost use Rattle.std.specs.Option.{option_copied};
ghost use Rattle.std.specs.Str.{bytes_eq};
ghost use Rattle.command_table.specs.Table.{rule, has_key, table};

/// The form that a flag is written in.
#[derive(Clone, Copy)]
pub enum Form {
    /// `-x`, `-x=true` or `-x=false`.
    Switch,
    /// `-x=value`.
    Text,
    /// `-x=value,value`: one or more values, none of them empty and none twice.
    Texts,
}

/// A flag that a command takes.
pub struct Flag {
    /// The name, without dashes.
    pub name: &'static str,
    /// The form.
    pub form: Form,
}

/// The arguments that a command takes.
#[derive(Clone, Copy)]
pub enum Arguments {
    /// From so many up to so many.
    Between(usize, usize),
    /// So many or more.
    AtLeast(usize),
    /// Three or more, of which the second isn't the first.
    Apart,
    /// A name, and then `from mirror` or `from repo` and a name, or `empty`.
    Origin,
    /// One for each component, and maybe a prefix.
    Sources,
    /// A distribution, maybe a prefix, and one for each component.
    Switched,
}

/// A command on mirrors.
#[derive(Clone, Copy)]
pub enum MirrorVerb {
    Create,
    Update,
    List,
    Show,
    Rename,
    Drop,
}

/// A command on repositories.
#[derive(Clone, Copy)]
pub enum RepoVerb {
    Create,
    Add,
    List,
    Show,
    Edit,
    Remove,
    Copy,
    Move,
    Import,
    Rename,
    Drop,
}

/// A command on snapshots.
#[derive(Clone, Copy)]
pub enum SnapshotVerb {
    Create,
    List,
    Show,
    Filter,
    Merge,
    Pull,
    Search,
    Rename,
    Drop,
}

/// A command on publications.
#[derive(Clone, Copy)]
pub enum PublishVerb {
    Snapshot,
    Repo,
    List,
    Show,
    Switch,
    Update,
    Drop,
}

/// A command on packages or on the store.
#[derive(Clone, Copy)]
pub enum OtherVerb {
    Search,
    Show,
    Cleanup,
}

/// Which command it is.
#[derive(Clone, Copy)]
pub enum Kind {
    Mirror(MirrorVerb),
    Repo(RepoVerb),
    Snapshot(SnapshotVerb),
    Publish(PublishVerb),
    Other(OtherVerb),
}

/// A command of the table.
pub struct Row {
    /// The first word.
    pub group: &'static str,
    /// The second word.
    pub verb: &'static str,
    /// The flags that it takes.
    pub flags: &'static [Flag],
    /// The arguments that it takes.
    pub arguments: Arguments,
    /// Which command it is.
    pub kind: Kind,
}

macro_rules! switch {
    ($name:literal) => {
        Flag {
            name: $name,
            form: Form::Switch,
        }
    };
}

macro_rules! text {
    ($name:literal) => {
        Flag {
            name: $name,
            form: Form::Text,
        }
    };
}

macro_rules! texts {
    ($name:literal) => {
        Flag {
            name: $name,
            form: Form::Texts,
        }
    };
}

macro_rules! row {
    ($group:literal $verb:literal, [$($flag:expr),*], $arguments:expr, $kind:expr) => {
        Row {
            group: $group,
            verb: $verb,
            flags: &[$($flag),*],
            arguments: $arguments,
            kind: $kind,
        }
    };
}

static TABLE: [Row; 36] = [
    row!(
        "mirror" "create",
        [texts!("architectures"), text!("filter"), switch!("filter-with-deps")],
        Arguments::AtLeast(3),
        Kind::Mirror(MirrorVerb::Create)
    ),
    row!("mirror" "update", [], Arguments::Between(1, 1), Kind::Mirror(MirrorVerb::Update)),
    row!("mirror" "list", [], Arguments::Between(0, 0), Kind::Mirror(MirrorVerb::List)),
    row!(
        "mirror" "show",
        [switch!("with-packages")],
        Arguments::Between(1, 1),
        Kind::Mirror(MirrorVerb::Show)
    ),
    row!("mirror" "rename", [], Arguments::Between(2, 2), Kind::Mirror(MirrorVerb::Rename)),
    row!("mirror" "drop", [], Arguments::Between(1, 1), Kind::Mirror(MirrorVerb::Drop)),
    row!(
        "repo" "create",
        [text!("comment"), text!("distribution"), text!("component")],
        Arguments::Between(1, 1),
        Kind::Repo(RepoVerb::Create)
    ),
    row!("repo" "add", [], Arguments::Between(2, 2), Kind::Repo(RepoVerb::Add)),
    row!("repo" "list", [], Arguments::Between(0, 0), Kind::Repo(RepoVerb::List)),
    row!(
        "repo" "show",
        [switch!("with-packages")],
        Arguments::Between(1, 1),
        Kind::Repo(RepoVerb::Show)
    ),
    row!(
        "repo" "edit",
        [text!("comment"), text!("distribution"), text!("component")],
        Arguments::Between(1, 1),
        Kind::Repo(RepoVerb::Edit)
    ),
    row!(
        "repo" "remove",
        [switch!("dry-run")],
        Arguments::AtLeast(2),
        Kind::Repo(RepoVerb::Remove)
    ),
    row!(
        "repo" "copy",
        [switch!("dry-run"), switch!("with-deps"), texts!("architectures"),
         switch!("dep-follow-recommends"), switch!("dep-follow-suggests")],
        Arguments::Apart,
        Kind::Repo(RepoVerb::Copy)
    ),
    row!(
        "repo" "move",
        [switch!("dry-run"), switch!("with-deps"), texts!("architectures"),
         switch!("dep-follow-recommends"), switch!("dep-follow-suggests")],
        Arguments::Apart,
        Kind::Repo(RepoVerb::Move)
    ),
    row!(
        "repo" "import",
        [switch!("dry-run"), switch!("with-deps"), texts!("architectures"),
         switch!("dep-follow-recommends"), switch!("dep-follow-suggests")],
        Arguments::AtLeast(3),
        Kind::Repo(RepoVerb::Import)
    ),
    row!("repo" "rename", [], Arguments::Between(2, 2), Kind::Repo(RepoVerb::Rename)),
    row!("repo" "drop", [], Arguments::Between(1, 1), Kind::Repo(RepoVerb::Drop)),
    row!("snapshot" "create", [], Arguments::Origin, Kind::Snapshot(SnapshotVerb::Create)),
    row!("snapshot" "list", [], Arguments::Between(0, 0), Kind::Snapshot(SnapshotVerb::List)),
    row!(
        "snapshot" "show",
        [switch!("with-packages")],
        Arguments::Between(1, 1),
        Kind::Snapshot(SnapshotVerb::Show)
    ),
    row!(
        "snapshot" "filter",
        [switch!("with-deps"), texts!("architectures"), switch!("dep-follow-recommends"),
         switch!("dep-follow-suggests")],
        Arguments::AtLeast(3),
        Kind::Snapshot(SnapshotVerb::Filter)
    ),
    row!(
        "snapshot" "merge",
        [switch!("latest"), switch!("no-remove")],
        Arguments::AtLeast(2),
        Kind::Snapshot(SnapshotVerb::Merge)
    ),
    row!(
        "snapshot" "pull",
        [switch!("all-matches"), switch!("dry-run"), switch!("no-deps"), switch!("no-remove"),
         texts!("architectures"), switch!("dep-follow-recommends"),
         switch!("dep-follow-suggests")],
        Arguments::AtLeast(4),
        Kind::Snapshot(SnapshotVerb::Pull)
    ),
    row!(
        "snapshot" "search",
        [switch!("with-deps"), texts!("architectures"), switch!("dep-follow-recommends"),
         switch!("dep-follow-suggests")],
        Arguments::Between(2, 2),
        Kind::Snapshot(SnapshotVerb::Search)
    ),
    row!("snapshot" "rename", [], Arguments::Between(2, 2), Kind::Snapshot(SnapshotVerb::Rename)),
    row!("snapshot" "drop", [], Arguments::Between(1, 1), Kind::Snapshot(SnapshotVerb::Drop)),
    row!(
        "publish" "snapshot",
        [texts!("architectures"), texts!("component"), text!("distribution"), text!("origin"),
         text!("label"), text!("suite"), text!("codename")],
        Arguments::Sources,
        Kind::Publish(PublishVerb::Snapshot)
    ),
    row!(
        "publish" "repo",
        [texts!("architectures"), texts!("component"), text!("distribution"), text!("origin"),
         text!("label"), text!("suite"), text!("codename")],
        Arguments::Sources,
        Kind::Publish(PublishVerb::Repo)
    ),
    row!("publish" "list", [], Arguments::Between(0, 0), Kind::Publish(PublishVerb::List)),
    row!("publish" "show", [], Arguments::Between(1, 2), Kind::Publish(PublishVerb::Show)),
    row!(
        "publish" "switch",
        [texts!("component")],
        Arguments::Switched,
        Kind::Publish(PublishVerb::Switch)
    ),
    row!("publish" "update", [], Arguments::Between(1, 2), Kind::Publish(PublishVerb::Update)),
    row!("publish" "drop", [], Arguments::Between(1, 2), Kind::Publish(PublishVerb::Drop)),
    row!("package" "search", [], Arguments::Between(1, 1), Kind::Other(OtherVerb::Search)),
    row!("package" "show", [], Arguments::Between(1, 1), Kind::Other(OtherVerb::Show)),
    row!("db" "cleanup", [], Arguments::Between(0, 0), Kind::Other(OtherVerb::Cleanup)),
];

/// The table.
#[tactic(auto, unfolding(crate::specs::Table::table))]
fn all_rows() -> &'static [Row]
    ensures { map rule result.now ≡ table }
{
    &TABLE
}

/// The first row with this group and this verb.
fn find_among(rows: &'static [Row], group: &str, verb: &str) -> Option<&'static Row>
    ensures { option_copied result ≡ find (λ r. bytes_eq r.group.now group.now
        && bytes_eq r.verb.now verb.now) rows.now }
{
    rows.iter()
        .find(|row| row.group == group && row.verb == verb)
}

/// The command with this group and this verb.
pub fn find_row(group: &str, verb: &str) -> Option<&'static Row>
    ensures { option_map rule (option_copied result) ≡ find (has_key group.now verb.now) table }
{
    find_among(all_rows(), group, verb)
}

/// Whether one of the rows has this group.
fn is_group_among(rows: &'static [Row], group: &str) -> bool
    ensures { result ≡ list_any (λ r. bytes_eq r.group.now group.now) rows.now }
{
    rows.iter().any(|row| row.group == group)
}

/// Whether a command has this group.
pub fn is_group(group: &str) -> bool
    ensures { result ≡ list_any (λ r. bytes_eq r.group group.now) table }
{
    is_group_among(all_rows(), group)
}
