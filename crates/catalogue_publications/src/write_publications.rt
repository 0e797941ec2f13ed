//! The publications of a root, written.
ghost use Rattle.std.specs.Prelude.{◌≡◌, ◌<◌, ◌^◌, ◌++◌, ◌∷◌, OnOk, string_bytes, length, map};
ghost use Rattle.std.specs.List.{flat_map};
ghost use Rattle.std.specs.Fmt.{decimal};
ghost use Rattle.catalogue_lines.specs.Pieces.{alone, piece_text, joined};
ghost use Rattle.catalogue_lines.specs.NameLines.{architectures_line};
ghost use Rattle.catalogue_publications.specs.PublicationLines.{publication_line, source_line, natural as natural_of, parts_pieces, generation_pieces, previous_pieces, sources_pieces, publication_pieces, publications_pieces};
ghost use Rattle.catalogue_publications.specs.PublicationReading.{head_of, head_pieces, titles_of, titles_pieces};

use ap_text::{Name, SafePath};
use catalogue_lines::{put_count, put_fixed, put_line, put_names, put_number, put_set};
use machine_state::{Generation, Publication, kind_word, prefix_word};
use package_list::PackageList;
use std::alloc::{AllocError, Global};

/// A line of a key and of two texts with a blank between them.
fn put_pair(out: &mut String, key: &str, first: &str, second: &str) -> Result<(), AllocError>
    ensures { OnOk result (string_bytes out.new ≡ string_bytes out.old ++ piece_text (alone (key.now ++ (first.now ++ 32 ∷ second.now)))) }
{
    out.push_str(key)?;
    out.push_str(first)?;
    out.push_str(" ")?;
    out.push_str(second)?;
    out.push_str("\n")?;
    Ok(())
}

/// A line with the place of a publication.
fn put_place(out: &mut String, prefix: &Option<SafePath>, dist: &Name) -> Result<(), AllocError>
    ensures { OnOk result (string_bytes out.new ≡ string_bytes out.old ++ piece_text (alone (publication_line (prefix.now, dist.now)))) }
{
    put_pair(out, "publication ", prefix_word(prefix), dist.as_str())
}

/// The lines with the texts of a publication's Release.
fn put_titles(out: &mut String, publication: &Publication) -> Result<(), AllocError>
    ensures { OnOk result (string_bytes out.new ≡ string_bytes out.old ++ joined (titles_pieces (titles_of publication.now))) }
{
    put_line(out, "origin ", publication.origin.as_str())?;
    put_line(out, "label ", publication.label.as_str())?;
    put_line(out, "suite ", publication.suite.as_str())?;
    put_line(out, "codename ", publication.codename.as_str())
}

/// The lines with what is published where.
fn put_head(out: &mut String, publication: &Publication) -> Result<(), AllocError>
    ensures { OnOk result (string_bytes out.new ≡ string_bytes out.old ++ joined (head_pieces (head_of publication.now))) }
{
    put_place(out, &publication.prefix, &publication.dist)?;
    put_line(out, "kind ", kind_word(publication.kind))?;
    put_titles(out, publication)
}

fn put_architectures(out: &mut String, names: &[Name]) -> Result<(), AllocError>
    ensures { OnOk result (string_bytes out.new ≡ string_bytes out.old ++ piece_text (alone (architectures_line names.now))) }
{
    put_names(out, "architectures", names)
}

fn put_source(out: &mut String, source: &(Name, Name)) -> Result<(), AllocError>
    ensures { OnOk result (string_bytes out.new ≡ string_bytes out.old ++ piece_text (alone (source_line source.now))) }
{
    put_pair(out, "source ", source.0.as_str(), source.1.as_str())
}

fn put_each_source(out: &mut String, sources: &[(Name, Name)]) -> Result<(), AllocError>
    ensures { OnOk result (string_bytes out.new ≡ string_bytes out.old ++ joined (map (λ s. alone (source_line s)) sources.now)) }
{
    for source in sources {
        put_source(out, source)?;
    }
    Ok(())
}

fn count_of(sources: &[(Name, Name)]) -> u64
    ensures same { result ≡ length sources.now }
    ensures small { length sources.now < 2 ^ 64 }
{
    sources.len() as u64
}

fn put_sources(out: &mut String, sources: &[(Name, Name)]) -> Result<(), AllocError>
    ensures { OnOk result (string_bytes out.new ≡ string_bytes out.old ++ joined (sources_pieces sources.now)) }
{
    put_number(out, "sources ", count_of(sources))?;
    put_each_source(out, sources)
}

fn put_parts(
    alloc: Global,
    out: &mut String,
    parts: &[(Name, PackageList)],
) -> Result<(), AllocError>
    ensures { OnOk result (string_bytes out.new ≡ string_bytes out.old ++ joined (parts_pieces parts.now)) }
{
    for part in parts {
        put_set(alloc, out, &part.1)?;
    }
    Ok(())
}

/// The moment, or 0 where it is before 1970.
fn natural(moment: i64) -> u64
    ensures { result ≡ natural_of moment }
{
    if moment < 0 { 0 } else { moment as u64 }
}

fn put_generation(
    alloc: Global,
    out: &mut String,
    key: &str,
    generation: &Generation,
) -> Result<(), AllocError>
    ensures { OnOk result (string_bytes out.new ≡ string_bytes out.old ++ joined (generation_pieces (λ n. key.now ++ decimal n) generation.now)) }
{
    put_number(out, key, natural(generation.moment))?;
    put_parts(alloc, out, &generation.parts)
}

fn put_previous(
    alloc: Global,
    out: &mut String,
    previous: &Option<Generation>,
) -> Result<(), AllocError>
    ensures { OnOk result (string_bytes out.new ≡ string_bytes out.old ++ joined (previous_pieces previous.now)) }
{
    match previous {
        None => put_fixed(out, "previous -"),
        Some(generation) => put_generation(alloc, out, "previous ", generation),
    }
}

fn put_publication(
    alloc: Global,
    out: &mut String,
    publication: &Publication,
) -> Result<(), AllocError>
    ensures { OnOk result (string_bytes out.new ≡ string_bytes out.old ++ joined (publication_pieces publication.now)) }
{
    put_head(out, publication)?;
    put_architectures(out, &publication.architectures)?;
    put_number(out, "serial ", publication.serial as u64)?;
    put_sources(out, &publication.sources)?;
    put_generation(alloc, out, "current ", &publication.current)?;
    put_previous(alloc, out, &publication.previous)
}

fn put_each(alloc: Global, out: &mut String, publications: &[Publication]) -> Result<(), AllocError>
    ensures { OnOk result (string_bytes out.new ≡ string_bytes out.old ++ joined (flat_map publication_pieces publications.now)) }
{
    for publication in publications {
        put_publication(alloc, out, publication)?;
    }
    Ok(())
}

/// The publications: how many they are, and each of them. Fails only for want of memory.
pub fn put_publications(
    alloc: Global,
    out: &mut String,
    publications: &[Publication],
) -> Result<(), AllocError>
    ensures { OnOk result (string_bytes out.new ≡ string_bytes out.old ++ joined (publications_pieces publications.now)) }
{
    put_count(out, "publications ", publications.len())?;
    put_each(alloc, out, publications)
}
