//! The sources of a publication.
ghost use Rattle.std.specs.Prelude.{◌≡◌, ◌≤◌, ◌∷◌, ◌^◌, ℕ, [], IfOk, IfErr, MatchOption, IsTrue, ◌↔◌, All};
ghost use Rattle.std.specs.declared.cmp.Ordering.TheVariants.{Less};
ghost use Rattle.std.specs.Ordering.{nat_cmp};
ghost use Rattle.std.specs.Cmp.Lexicographic.{slice_cmp};
ghost use Rattle.machine_state.specs.Ascending.{IsAscending};
ghost use Rattle.machine_state.specs.Named.{named_cmp};
ghost use Rattle.machine_state.specs.State.{repo_cmp, snapshot_cmp};
ghost use Rattle.catalogue_lines.specs.Pieces.{alone};
ghost use Rattle.catalogue_publications.specs.PublicationLines.{source_line as source_spelled, sources_pieces};
ghost use Rattle.catalogue_publications.specs.PublicationGrammar.{IsNextSource, NextSource, SourcesPart, has_source_in};
ghost use Rattle.catalogue_publications.specs.PublicationReading.{IsThere, GoodSources, component_of};
ghost use Rattle.catalogue_lines.specs.PartForms.{Series};
ghost use Rattle.catalogue_lines.specs.Reading.{IfBefore, Stops, ReadsSeries, ReadsPart, NoLine, ReadsLine};

use crate::publication_values::{source_line, sources_line};
use ap_text::Name;
use catalogue_lines::Stop;
use machine_state::{Kind, Repo, Snapshot, find_named};
use std::alloc::{AllocError, Global};

/// Whether a component comes after those of the sources before it: after that of the last.
fn component_follows(done: &[(Name, Name)], component: &Name) -> bool
    requires { IsAscending (named_cmp component_of) done.now }
    ensures { IsTrue result ↔ All (λ one. slice_cmp nat_cmp one.0 component.now ≡ Less) done.now }
{
    match done.split_last() {
        None => true,
        Some((before, _)) => before.0.order(component).is_lt(),
    }
}

/// Whether there is such a repository or snapshot.
fn is_there(kind: Kind, name: &Name, repos: &[Repo], snapshots: &[Snapshot]) -> bool
    requires repos { IsAscending repo_cmp repos.now }
    requires snapshots { IsAscending snapshot_cmp snapshots.now }
    ensures { result ≡ has_source_in repos.now snapshots.now kind name.now }
{
    match kind {
        Kind::Repo => find_named(repos, name).is_some(),
        Kind::Snapshot => find_named(snapshots, name).is_some(),
        Kind::Mirror | Kind::Component => false,
    }
}

/// A source that may stand behind those before it, and the text behind it.
fn next_source<'a>(
    alloc: Global,
    text: &'a [u8],
    kind: Kind,
    repos: &[Repo],
    snapshots: &[Snapshot],
    done: &[(Name, Name)],
) -> Result<Option<((Name, Name), &'a [u8])>, AllocError>
    requires repos { IsAscending repo_cmp repos.now }
    requires snapshots { IsAscending snapshot_cmp snapshots.now }
    requires sorted { IsAscending (named_cmp component_of) done.now }
    ensures { IfOk result (λ found. MatchOption found (NoLine source_spelled (IsNextSource (IsThere repos.now snapshots.now kind) done.now) text.now) (λ p. ReadsLine source_spelled (IsNextSource (IsThere repos.now snapshots.now kind) done.now) text.now p.0 p.1.now)) }
{
    let Some((source, rest)) = source_line(alloc, text)? else {
        return Ok(None);
    };
    if component_follows(done, &source.0) && is_there(kind, &source.1, repos, snapshots) {
        Ok(Some((source, rest)))
    } else {
        Ok(None)
    }
}

/// So many sources, and the text behind them.
fn read_so_many<'a>(
    alloc: Global,
    text: &'a [u8],
    kind: Kind,
    repos: &[Repo],
    snapshots: &[Snapshot],
    count: u64,
) -> Result<(Vec<(Name, Name)>, &'a [u8]), Stop>
    requires repos { IsAscending repo_cmp repos.now }
    requires snapshots { IsAscending snapshot_cmp snapshots.now }
    ensures read { IfOk result (λ p. ReadsSeries (λ s. alone (source_spelled s) ∷ []) (IsNextSource (IsThere repos.now snapshots.now kind)) count text.now p.0.items p.1.now) }
    ensures stops { IfErr result (λ stop. IfBefore stop (Stops (Series count (NextSource (IsThere repos.now snapshots.now kind)) []) text.now)) }
{
    let mut sources = Vec::new(alloc);
    let mut rest = text;
    for _read in 0..count {
        match next_source(alloc, rest, kind, repos, snapshots, &sources)? {
            None => return Err(Stop::Before(rest.len())),
            Some((source, behind)) => {
                sources.push(source)?;
                rest = behind;
            }
        }
    }
    Ok((sources, rest))
}

/// Where the reading of 2^64 sources or more stops: no text has so many.
fn too_many(alloc: Global, text: &[u8], kind: Kind, repos: &[Repo], snapshots: &[Snapshot]) -> Stop
    requires repos { IsAscending repo_cmp repos.now }
    requires snapshots { IsAscending snapshot_cmp snapshots.now }
    ensures { IfBefore result (λ left. (n : ℕ) → 2 ^ 64 ≤ n → Stops (Series n (NextSource (IsThere repos.now snapshots.now kind)) []) text.now left) }
{
    if let Err(stop) = read_so_many(alloc, text, kind, repos, snapshots, u64::MAX) {
        return stop;
    }
    Stop::OutOfMemory
}

/// The sources of a publication of this kind, and the text behind them.
pub(crate) fn read_sources<'a>(
    alloc: Global,
    text: &'a [u8],
    kind: Kind,
    repos: &[Repo],
    snapshots: &[Snapshot],
) -> Result<(Vec<(Name, Name)>, &'a [u8]), Stop>
    requires repos { IsAscending repo_cmp repos.now }
    requires snapshots { IsAscending snapshot_cmp snapshots.now }
    ensures read { IfOk result (λ p. ReadsPart sources_pieces (GoodSources (IsThere repos.now snapshots.now kind)) text.now p.0.items p.1.now) }
    ensures stops { IfErr result (λ stop. IfBefore stop (Stops (SourcesPart (IsThere repos.now snapshots.now kind)) text.now)) }
{
    let Some((count, rest)) = sources_line(text) else {
        return Err(Stop::Before(text.len()));
    };
    match count {
        Some(count) => read_so_many(alloc, rest, kind, repos, snapshots, count),
        None => Err(too_many(alloc, rest, kind, repos, snapshots)),
    }
}
