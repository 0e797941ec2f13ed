//! The publications of a root.
ghost use Rattle.std.specs.Prelude.{◌≡◌, [], IfOk, IfErr, IsTrue, ◌↔◌, All};
ghost use Rattle.std.specs.declared.cmp.Ordering.TheVariants.{Less};
ghost use Rattle.machine_state.specs.Ascending.{IsAscending};
ghost use Rattle.machine_state.specs.State.{place_cmp, publication_cmp, repo_cmp, snapshot_cmp};
ghost use Rattle.machine_state.specs.Words.{place_text};
ghost use Rattle.catalogue_publications.specs.PublicationLines.{publication_pieces, publications_pieces};
ghost use Rattle.catalogue_publications.specs.PublicationGrammar.{IsPlace, TitlesPart, HeadPart, ContentsPart, published as published_of, NextPublication, has_source_in, PublicationsPart};
ghost use Rattle.catalogue_publications.specs.PublicationReading.{titles_pieces, GoodTitles, head_pieces, GoodHead, contents_pieces, GoodContents, GoodPublication, GoodPublications};
ghost use Rattle.catalogue_lines.specs.PartForms.{Series};
ghost use Rattle.catalogue_lines.specs.Reading.{IfBefore, Stops, ReadsSeries, ReadsPart, IsIndexed, IdsApart};

use crate::generations::{read_generation, read_previous};
use crate::publication_sources::read_sources;
use crate::publication_values::{
    Head, Titles, architectures_line, kind_line, place_line, serial_line, title_line,
};
use ap_text::{Name, SafePath};
use catalogue_lines::{Known, Stop, count_line};
use machine_state::{Generation, Limit, Publication, Repo, Snapshot};
use std::alloc::Global;

/// Whether a place comes after those of the publications before it: after that of the last.
fn place_follows(done: &[Publication], place: &(Option<SafePath>, Name)) -> bool
    requires { IsAscending publication_cmp done.now }
    ensures { IsTrue result ↔ All (λ one. place_cmp one place.now.0 place.now.1 ≡ Less) done.now }
{
    match done.split_last() {
        None => true,
        Some((before, _)) => before.place_order(&place.0, &place.1).is_lt(),
    }
}

/// The texts of the Release of a publication at a place that is written so, and the text behind them.
fn read_titles<'a>(
    alloc: Global,
    text: &'a [u8],
    place: &(Option<SafePath>, Name),
    written: &[u8],
) -> Result<(Titles, &'a [u8]), Stop>
    requires place { IsPlace place.now }
    requires written { written.now ≡ place_text place.now }
    ensures read { IfOk result (λ p. ReadsPart titles_pieces (GoodTitles place.now) text.now p.0 p.1.now) }
    ensures stops { IfErr result (λ stop. IfBefore stop (Stops (TitlesPart place.now) text.now)) }
{
    let Some((origin, behind)) = title_line(alloc, text, "origin ", written)? else {
        return Err(Stop::Before(text.len()));
    };
    let Some((label, rest)) = title_line(alloc, behind, "label ", written)? else {
        return Err(Stop::Before(behind.len()));
    };
    let dist = place.1.as_str().as_bytes();
    let Some((suite, behind)) = title_line(alloc, rest, "suite ", dist)? else {
        return Err(Stop::Before(rest.len()));
    };
    let Some((codename, rest)) = title_line(alloc, behind, "codename ", dist)? else {
        return Err(Stop::Before(behind.len()));
    };
    let titles = Titles {
        origin,
        label,
        suite,
        codename,
    };
    Ok((titles, rest))
}

/// What is published where, behind the publications before it, and the text behind its lines.
fn read_head<'a>(
    alloc: Global,
    text: &'a [u8],
    done: &[Publication],
) -> Result<(Head, &'a [u8]), Stop>
    requires { IsAscending publication_cmp done.now }
    ensures read { IfOk result (λ p. ReadsPart head_pieces (GoodHead done.now) text.now p.0 p.1.now) }
    ensures stops { IfErr result (λ stop. IfBefore stop (Stops (HeadPart done.now) text.now)) }
{
    let Some((place, written, behind)) = place_line(alloc, text)? else {
        return Err(Stop::Before(text.len()));
    };
    if !place_follows(done, &place) {
        return Err(Stop::Before(text.len()));
    }
    let Some((kind, rest)) = kind_line(behind) else {
        return Err(Stop::Before(behind.len()));
    };
    match read_titles(alloc, rest, &place, written) {
        Err(stop) => Err(stop),
        Ok((titles, rest)) => Ok((
            Head {
                place,
                kind,
                titles,
            },
            rest,
        )),
    }
}

/// A publication of these parts.
fn published(
    head: Head,
    architectures: Vec<Name>,
    serial: u32,
    sources: Vec<(Name, Name)>,
    current: Generation,
    previous: Option<Generation>,
) -> Publication
    ensures { result ≡ published_of head architectures.items serial sources.items current previous }
{
    let (prefix, dist) = head.place;
    let titles = head.titles;
    Publication {
        prefix,
        dist,
        kind: head.kind,
        origin: titles.origin,
        label: titles.label,
        suite: titles.suite,
        codename: titles.codename,
        architectures,
        sources,
        serial,
        current,
        previous,
    }
}

/// The sources and the generations of a publication whose other settings are these, and the text behind it.
fn read_contents<'a>(
    alloc: Global,
    text: &'a [u8],
    known: &Known,
    repos: &[Repo],
    snapshots: &[Snapshot],
    head: Head,
    architectures: Vec<Name>,
    serial: u32,
) -> Result<(Publication, &'a [u8]), Stop>
    requires indexed { IsIndexed known.now }
    requires repos { IsAscending repo_cmp repos.now }
    requires snapshots { IsAscending snapshot_cmp snapshots.now }
    ensures read { IfOk result (λ p. ReadsPart contents_pieces (GoodContents known.now.list (has_source_in repos.now snapshots.now) head architectures.items serial) text.now p.0 p.1.now) }
    ensures stops { IfErr result (λ stop. IfBefore stop (λ left. IdsApart known.now.list → Stops (ContentsPart known.now.list (has_source_in repos.now snapshots.now) head architectures.items serial) text.now left)) }
{
    let (sources, rest) = match read_sources(alloc, text, head.kind, repos, snapshots) {
        Ok(sources) => sources,
        Err(stop) => return Err(stop),
    };
    let listed = architectures.as_slice();
    let named = sources.as_slice();
    let (current, rest) = match read_generation(alloc, rest, "current ", known, listed, named) {
        Ok(current) => current,
        Err(stop) => return Err(stop),
    };
    match read_previous(alloc, rest, known, listed, named, serial > 1) {
        Err(stop) => Err(stop),
        Ok((previous, rest)) => Ok((
            published(head, architectures, serial, sources, current, previous),
            rest,
        )),
    }
}

/// A publication that may stand behind those before it, and the text behind it.
fn read_publication<'a>(
    alloc: Global,
    text: &'a [u8],
    known: &Known,
    repos: &[Repo],
    snapshots: &[Snapshot],
    done: &[Publication],
) -> Result<(Publication, &'a [u8]), Stop>
    requires indexed { IsIndexed known.now }
    requires repos { IsAscending repo_cmp repos.now }
    requires snapshots { IsAscending snapshot_cmp snapshots.now }
    requires sorted { IsAscending publication_cmp done.now }
    ensures read { IfOk result (λ p. ReadsPart publication_pieces (GoodPublication known.now.list (has_source_in repos.now snapshots.now) done.now) text.now p.0 p.1.now) }
    ensures stops { IfErr result (λ stop. IfBefore stop (λ left. IdsApart known.now.list → Stops (NextPublication known.now.list (has_source_in repos.now snapshots.now) done.now) text.now left)) }
{
    let (head, behind) = match read_head(alloc, text, done) {
        Ok(head) => head,
        Err(stop) => return Err(stop),
    };
    let Some((architectures, rest)) = architectures_line(alloc, behind)? else {
        return Err(Stop::Before(behind.len()));
    };
    let Some((serial, behind)) = serial_line(rest) else {
        return Err(Stop::Before(rest.len()));
    };
    read_contents(
        alloc,
        behind,
        known,
        repos,
        snapshots,
        head,
        architectures,
        serial,
    )
}

/// So many publications, and the text behind them.
fn read_each<'a>(
    alloc: Global,
    text: &'a [u8],
    known: &Known,
    repos: &[Repo],
    snapshots: &[Snapshot],
    count: u64,
) -> Result<(Vec<Publication>, &'a [u8]), Stop>
    requires indexed { IsIndexed known.now }
    requires repos { IsAscending repo_cmp repos.now }
    requires snapshots { IsAscending snapshot_cmp snapshots.now }
    ensures read { IfOk result (λ p. ReadsSeries publication_pieces (GoodPublication known.now.list (has_source_in repos.now snapshots.now)) count text.now p.0.items p.1.now) }
    ensures stops { IfErr result (λ stop. IfBefore stop (λ left. IdsApart known.now.list → Stops (Series count (NextPublication known.now.list (has_source_in repos.now snapshots.now)) []) text.now left)) }
{
    let mut publications = Vec::new(alloc);
    let mut rest = text;
    for _read in 0..count {
        match read_publication(alloc, rest, known, repos, snapshots, &publications) {
            Err(stop) => return Err(stop),
            Ok((publication, behind)) => {
                publications.push(publication)?;
                rest = behind;
            }
        }
    }
    Ok((publications, rest))
}

/// The publications, and the text behind them; or where their reading stops: at the first line that can't stand there, or for want of
/// memory. Their sources are looked up among the repositories and snapshots.
pub fn read_publications<'a>(
    alloc: Global,
    text: &'a [u8],
    known: &Known,
    repos: &[Repo],
    snapshots: &[Snapshot],
) -> Result<(Vec<Publication>, &'a [u8]), Stop>
    requires indexed { IsIndexed known.now }
    requires repos { IsAscending repo_cmp repos.now }
    requires snapshots { IsAscending snapshot_cmp snapshots.now }
    ensures read { IfOk result (λ p. ReadsPart publications_pieces (GoodPublications known.now.list repos.now snapshots.now) text.now p.0.items p.1.now) }
    ensures stops { IfErr result (λ stop. IfBefore stop (λ left. IdsApart known.now.list → Stops (PublicationsPart known.now.list repos.now snapshots.now) text.now left)) }
{
    let most = Limit::Publications.number();
    let Some((count, rest)) = count_line(text, "publications ", most) else {
        return Err(Stop::Before(text.len()));
    };
    read_each(alloc, rest, known, repos, snapshots, count)
}
