//! A command, made of its flags and its arguments.
ghost use Rattle.std.specs.Prelude.{◌≡◌, ◌+◌, ◌<◌, ◌^◌, ◌≤◌, IfOk, option_map, drop, take, slice_get, length};
ghost use Rattle.command_value.specs.Plain.{plain, plain_follow, of_mirror, of_repo, of_snapshot, of_publish, of_other};
ghost use Rattle.command_table.specs.declared.table.PublishVerb.TheVariants as publish;
ghost use Rattle.command_table.specs.declared.table.RepoVerb.TheVariants as repo;
ghost use Rattle.command_table.specs.declared.table.SnapshotVerb.TheVariants as snapshot;
ghost use Rattle.command_words.specs.Spelled.{word_at, follow_of, components_len, origin_of, mirror_command, repo_command, snapshot_command, publish_command, other_command, command_of};

use command_table::{
    Kind, MirrorVerb, OtherVerb, PublishVerb, RepoVerb, SnapshotVerb, switch_of, text_of, texts_of,
};
use command_value::{Command, Follow, Origin, copies};
use control_stanza::Text;
use std::alloc::{AllocError, Global};

/// A copy of the word at a place. The table's forms want a word there.
fn word_at(alloc: Global, words: &[Text], i: usize) -> Result<Text, AllocError>
    ensures { IfOk result (λ text. text ≡ word_at words.now i) }
{
    match words.get(i) {
        Some(word) => word.copy(alloc),
        None => Text::new(alloc, ""),
    }
}

/// A copy of the word at a place, where one is there.
fn maybe_at(alloc: Global, words: &[Text], i: usize) -> Result<Option<Text>, AllocError>
    ensures { IfOk result (λ text. text ≡ slice_get words.now i) }
{
    match words.get(i) {
        Some(word) => Ok(Some(word.copy(alloc)?)),
        None => Ok(None),
    }
}

/// Copies of the words from a place on.
fn words_from(alloc: Global, words: &[Text], i: usize) -> Result<Vec<Text>, AllocError>
    ensures { IfOk result (λ texts. texts.items ≡ drop i words.now) }
{
    if i <= words.len() {
        copies(alloc, &words[i..])
    } else {
        Ok(Vec::new(alloc))
    }
}

fn follow_of(alloc: Global, flags: &[Text]) -> Result<Follow, AllocError>
    ensures { IfOk result (λ follow. plain_follow follow ≡ follow_of flags.now) }
{
    Ok(Follow {
        architectures: texts_of(alloc, flags, "architectures")?,
        recommends: switch_of(flags, "dep-follow-recommends"),
        suggests: switch_of(flags, "dep-follow-suggests"),
    })
}

fn mirror_command(
    alloc: Global,
    verb: MirrorVerb,
    flags: &[Text],
    words: &[Text],
) -> Result<Command, AllocError>
    ensures { IfOk result (λ command. plain command ≡ of_mirror (mirror_command verb flags.now words.now)) }
{
    let name = word_at(alloc, words, 0)?;
    match verb {
        MirrorVerb::Create => Ok(Command::MirrorCreate {
            architectures: texts_of(alloc, flags, "architectures")?,
            filter: text_of(alloc, flags, "filter")?,
            filter_with_deps: switch_of(flags, "filter-with-deps"),
            name,
            archive: word_at(alloc, words, 1)?,
            distribution: word_at(alloc, words, 2)?,
            components: words_from(alloc, words, 3)?,
        }),
        MirrorVerb::Update => Ok(Command::MirrorUpdate { name }),
        MirrorVerb::List => Ok(Command::MirrorList),
        MirrorVerb::Show => Ok(Command::MirrorShow {
            with_packages: switch_of(flags, "with-packages"),
            name,
        }),
        MirrorVerb::Rename => Ok(Command::MirrorRename {
            from_name: name,
            to_name: word_at(alloc, words, 1)?,
        }),
        MirrorVerb::Drop => Ok(Command::MirrorDrop { name }),
    }
}

fn repo_copy(alloc: Global, flags: &[Text], words: &[Text]) -> Result<Command, AllocError>
    ensures { IfOk result (λ command. plain command ≡ of_repo (repo_command repo.Copy flags.now words.now)) }
{
    Ok(Command::RepoCopy {
        dry_run: switch_of(flags, "dry-run"),
        with_deps: switch_of(flags, "with-deps"),
        follow: follow_of(alloc, flags)?,
        source: word_at(alloc, words, 0)?,
        destination: word_at(alloc, words, 1)?,
        queries: words_from(alloc, words, 2)?,
    })
}

fn repo_move(alloc: Global, flags: &[Text], words: &[Text]) -> Result<Command, AllocError>
    ensures { IfOk result (λ command. plain command ≡ of_repo (repo_command repo.Move flags.now words.now)) }
{
    Ok(Command::RepoMove {
        dry_run: switch_of(flags, "dry-run"),
        with_deps: switch_of(flags, "with-deps"),
        follow: follow_of(alloc, flags)?,
        source: word_at(alloc, words, 0)?,
        destination: word_at(alloc, words, 1)?,
        queries: words_from(alloc, words, 2)?,
    })
}

fn repo_import(alloc: Global, flags: &[Text], words: &[Text]) -> Result<Command, AllocError>
    ensures { IfOk result (λ command. plain command ≡ of_repo (repo_command repo.Import flags.now words.now)) }
{
    Ok(Command::RepoImport {
        dry_run: switch_of(flags, "dry-run"),
        with_deps: switch_of(flags, "with-deps"),
        follow: follow_of(alloc, flags)?,
        mirror: word_at(alloc, words, 0)?,
        repo: word_at(alloc, words, 1)?,
        queries: words_from(alloc, words, 2)?,
    })
}

fn repo_create(alloc: Global, flags: &[Text], words: &[Text]) -> Result<Command, AllocError>
    ensures { IfOk result (λ command. plain command ≡ of_repo (repo_command repo.Create flags.now words.now)) }
{
    Ok(Command::RepoCreate {
        comment: text_of(alloc, flags, "comment")?,
        distribution: text_of(alloc, flags, "distribution")?,
        component: text_of(alloc, flags, "component")?,
        name: word_at(alloc, words, 0)?,
    })
}

fn repo_edit(alloc: Global, flags: &[Text], words: &[Text]) -> Result<Command, AllocError>
    ensures { IfOk result (λ command. plain command ≡ of_repo (repo_command repo.Edit flags.now words.now)) }
{
    Ok(Command::RepoEdit {
        comment: text_of(alloc, flags, "comment")?,
        distribution: text_of(alloc, flags, "distribution")?,
        component: text_of(alloc, flags, "component")?,
        name: word_at(alloc, words, 0)?,
    })
}

fn repo_command(
    alloc: Global,
    verb: RepoVerb,
    flags: &[Text],
    words: &[Text],
) -> Result<Command, AllocError>
    ensures { IfOk result (λ command. plain command ≡ of_repo (repo_command verb flags.now words.now)) }
{
    let name = word_at(alloc, words, 0)?;
    match verb {
        RepoVerb::Create => repo_create(alloc, flags, words),
        RepoVerb::Add => Ok(Command::RepoAdd {
            name,
            folder: word_at(alloc, words, 1)?,
        }),
        RepoVerb::List => Ok(Command::RepoList),
        RepoVerb::Show => Ok(Command::RepoShow {
            with_packages: switch_of(flags, "with-packages"),
            name,
        }),
        RepoVerb::Edit => repo_edit(alloc, flags, words),
        RepoVerb::Remove => Ok(Command::RepoRemove {
            dry_run: switch_of(flags, "dry-run"),
            name,
            queries: words_from(alloc, words, 1)?,
        }),
        RepoVerb::Rename => Ok(Command::RepoRename {
            from_name: name,
            to_name: word_at(alloc, words, 1)?,
        }),
        RepoVerb::Drop => Ok(Command::RepoDrop { name }),
        RepoVerb::Copy => repo_copy(alloc, flags, words),
        RepoVerb::Move => repo_move(alloc, flags, words),
        RepoVerb::Import => repo_import(alloc, flags, words),
    }
}

/// What a new snapshot is taken from.
fn origin_of(alloc: Global, words: &[Text]) -> Result<Origin, AllocError>
    ensures { IfOk result (λ origin. origin ≡ origin_of words.now) }
{
    if word_at(alloc, words, 1)?.as_str() == "empty" {
        Ok(Origin::Empty)
    } else if word_at(alloc, words, 2)?.as_str() == "mirror" {
        Ok(Origin::Mirror(word_at(alloc, words, 3)?))
    } else {
        Ok(Origin::Repo(word_at(alloc, words, 3)?))
    }
}

fn snapshot_pull(alloc: Global, flags: &[Text], words: &[Text]) -> Result<Command, AllocError>
    ensures { IfOk result (λ command. plain command ≡ of_snapshot (snapshot_command snapshot.Pull flags.now words.now)) }
{
    Ok(Command::SnapshotPull {
        all_matches: switch_of(flags, "all-matches"),
        dry_run: switch_of(flags, "dry-run"),
        no_deps: switch_of(flags, "no-deps"),
        no_remove: switch_of(flags, "no-remove"),
        follow: follow_of(alloc, flags)?,
        name: word_at(alloc, words, 0)?,
        source: word_at(alloc, words, 1)?,
        destination: word_at(alloc, words, 2)?,
        queries: words_from(alloc, words, 3)?,
    })
}

fn snapshot_command(
    alloc: Global,
    verb: SnapshotVerb,
    flags: &[Text],
    words: &[Text],
) -> Result<Command, AllocError>
    ensures { IfOk result (λ command. plain command ≡ of_snapshot (snapshot_command verb flags.now words.now)) }
{
    let name = word_at(alloc, words, 0)?;
    match verb {
        SnapshotVerb::Create => Ok(Command::SnapshotCreate {
            name,
            origin: origin_of(alloc, words)?,
        }),
        SnapshotVerb::List => Ok(Command::SnapshotList),
        SnapshotVerb::Show => Ok(Command::SnapshotShow {
            with_packages: switch_of(flags, "with-packages"),
            name,
        }),
        SnapshotVerb::Filter => Ok(Command::SnapshotFilter {
            with_deps: switch_of(flags, "with-deps"),
            follow: follow_of(alloc, flags)?,
            source: name,
            destination: word_at(alloc, words, 1)?,
            queries: words_from(alloc, words, 2)?,
        }),
        SnapshotVerb::Merge => Ok(Command::SnapshotMerge {
            latest: switch_of(flags, "latest"),
            no_remove: switch_of(flags, "no-remove"),
            destination: name,
            sources: words_from(alloc, words, 1)?,
        }),
        SnapshotVerb::Pull => snapshot_pull(alloc, flags, words),
        SnapshotVerb::Search => Ok(Command::SnapshotSearch {
            with_deps: switch_of(flags, "with-deps"),
            follow: follow_of(alloc, flags)?,
            name,
            query: word_at(alloc, words, 1)?,
        }),
        SnapshotVerb::Rename => Ok(Command::SnapshotRename {
            from_name: name,
            to_name: word_at(alloc, words, 1)?,
        }),
        SnapshotVerb::Drop => Ok(Command::SnapshotDrop { name }),
    }
}

/// How many components a publication has: those of `-component`, else one.
pub fn components_len(alloc: Global, flags: &[Text]) -> Result<usize, AllocError>
    ensures count { IfOk result (λ n. n ≡ components_len flags.now) }
    ensures small { IfOk result (λ n. n < 2 ^ 63) }
{
    match texts_of(alloc, flags, "component")? {
        Some(components) => Ok(components.len()),
        None => Ok(1),
    }
}

/// The first n words.
fn words_to(alloc: Global, words: &[Text], n: usize) -> Result<Vec<Text>, AllocError>
    ensures { IfOk result (λ texts. texts.items ≡ take n words.now) }
{
    if n <= words.len() {
        copies(alloc, &words[..n])
    } else {
        copies(alloc, words)
    }
}

fn publish_snapshot(alloc: Global, flags: &[Text], words: &[Text]) -> Result<Command, AllocError>
    ensures { IfOk result (λ command. plain command
        ≡ of_publish (publish_command publish.Snapshot flags.now words.now)) }
{
    let count = components_len(alloc, flags)?;
    Ok(Command::PublishSnapshot {
        architectures: texts_of(alloc, flags, "architectures")?,
        components: texts_of(alloc, flags, "component")?,
        distribution: text_of(alloc, flags, "distribution")?,
        origin: text_of(alloc, flags, "origin")?,
        label: text_of(alloc, flags, "label")?,
        suite: text_of(alloc, flags, "suite")?,
        codename: text_of(alloc, flags, "codename")?,
        sources: words_to(alloc, words, count)?,
        prefix: maybe_at(alloc, words, count)?,
    })
}

fn publish_repo(alloc: Global, flags: &[Text], words: &[Text]) -> Result<Command, AllocError>
    ensures { IfOk result (λ command. plain command ≡ of_publish (publish_command publish.Repo flags.now words.now)) }
{
    let count = components_len(alloc, flags)?;
    Ok(Command::PublishRepo {
        architectures: texts_of(alloc, flags, "architectures")?,
        components: texts_of(alloc, flags, "component")?,
        distribution: text_of(alloc, flags, "distribution")?,
        origin: text_of(alloc, flags, "origin")?,
        label: text_of(alloc, flags, "label")?,
        suite: text_of(alloc, flags, "suite")?,
        codename: text_of(alloc, flags, "codename")?,
        sources: words_to(alloc, words, count)?,
        prefix: maybe_at(alloc, words, count)?,
    })
}

fn publish_switch(alloc: Global, flags: &[Text], words: &[Text]) -> Result<Command, AllocError>
    ensures { IfOk result (λ command. plain command ≡ of_publish (publish_command publish.Switch flags.now words.now)) }
{
    let count = components_len(alloc, flags)?;
    let components = texts_of(alloc, flags, "component")?;
    let distribution = word_at(alloc, words, 0)?;
    if words.len() == count + 2 {
        Ok(Command::PublishSwitch {
            components,
            distribution,
            prefix: maybe_at(alloc, words, 1)?,
            snapshots: words_from(alloc, words, 2)?,
        })
    } else {
        Ok(Command::PublishSwitch {
            components,
            distribution,
            prefix: None,
            snapshots: words_from(alloc, words, 1)?,
        })
    }
}

fn publish_command(
    alloc: Global,
    verb: PublishVerb,
    flags: &[Text],
    words: &[Text],
) -> Result<Command, AllocError>
    ensures { IfOk result (λ command. plain command ≡ of_publish (publish_command verb flags.now words.now)) }
{
    let distribution = word_at(alloc, words, 0)?;
    let prefix = maybe_at(alloc, words, 1)?;
    match verb {
        PublishVerb::Snapshot => publish_snapshot(alloc, flags, words),
        PublishVerb::Repo => publish_repo(alloc, flags, words),
        PublishVerb::List => Ok(Command::PublishList),
        PublishVerb::Show => Ok(Command::PublishShow {
            distribution,
            prefix,
        }),
        PublishVerb::Switch => publish_switch(alloc, flags, words),
        PublishVerb::Update => Ok(Command::PublishUpdate {
            distribution,
            prefix,
        }),
        PublishVerb::Drop => Ok(Command::PublishDrop {
            distribution,
            prefix,
        }),
    }
}

fn other_command(alloc: Global, verb: OtherVerb, words: &[Text]) -> Result<Command, AllocError>
    ensures { IfOk result (λ command. plain command ≡ of_other (other_command verb words.now)) }
{
    match verb {
        OtherVerb::Search => Ok(Command::PackageSearch {
            query: word_at(alloc, words, 0)?,
        }),
        OtherVerb::Show => Ok(Command::PackageShow {
            query: word_at(alloc, words, 0)?,
        }),
        OtherVerb::Cleanup => Ok(Command::DbCleanup),
    }
}

/// The command of this kind with these flags and arguments, which the table's forms have admitted.
#[tactic(auto, unfolding(crate::specs::Spelled::command_of))]
pub fn command_of(
    alloc: Global,
    kind: Kind,
    flags: &[Text],
    words: &[Text],
) -> Result<Command, AllocError>
    ensures { IfOk result (λ command. plain command ≡ command_of kind flags.now words.now) }
{
    match kind {
        Kind::Mirror(verb) => mirror_command(alloc, verb, flags, words),
        Kind::Repo(verb) => repo_command(alloc, verb, flags, words),
        Kind::Snapshot(verb) => snapshot_command(alloc, verb, flags, words),
        Kind::Publish(verb) => publish_command(alloc, verb, flags, words),
        Kind::Other(verb) => other_command(alloc, verb, words),
    }
}
