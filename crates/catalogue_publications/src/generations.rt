//! The generations of a publication.
ghost use Rattle.std.specs.Prelude.{◌≡◌, ◌<◌, ◌++◌, ◌∷◌, [], Some, IfOk, IfErr, MatchOption, length, slice_get};
ghost use Rattle.std.specs.Fmt.{decimal};
ghost use Rattle.std.specs.List.{list_any};
ghost use Rattle.std.specs.Str.{bytes_eq};
ghost use Rattle.package_core.specs.Card.{Card};
ghost use Rattle.machine_state.specs.Publications.{is_for as for_one, components_of};
ghost use Rattle.catalogue_lines.specs.Pieces.{alone};
ghost use Rattle.catalogue_lines.specs.SetLines.{id_of, set_pieces};
ghost use Rattle.catalogue_publications.specs.PublicationLines.{parts_pieces, generation_pieces, previous_pieces};
ghost use Rattle.catalogue_publications.specs.PublicationGrammar.{MayJoinPart, NextPartMember, PartSet, Parts, GenerationPart, PreviousPart};
ghost use Rattle.catalogue_publications.specs.PublicationReading.{AddsPartMember, GoodPartSet, GoodParts, GoodGeneration, GoodPrevious};
ghost use Rattle.catalogue_lines.specs.PartForms.{Series};
ghost use Rattle.catalogue_lines.specs.Reading.{IfBefore, Stops, ReadsSeries, ReadsPart, NoLine, IsIndexed, IdsApart};

use ap_text::Name;
use catalogue_lines::{Known, Stop, after_line, count_line, named_member};
use machine_state::{Generation, Limit};
use package_core::Package;
use package_list::PackageList;
use std::alloc::{AllocError, Global};

fn is_name(arch: &str, name: &Name) -> bool
    ensures { result ≡ bytes_eq arch.now name.now }
{
    arch == name.as_str()
}

fn is_among(architectures: &[Name], arch: &str) -> bool
    ensures { result ≡ list_any (bytes_eq arch.now) architectures.now }
{
    architectures.iter().any(|one| is_name(arch, one))
}

/// Whether a package is for one of these architectures, or for all.
fn is_for(architectures: &[Name], package: &Package) -> bool
    ensures { result ≡ for_one architectures.now «package».now }
{
    let arch = package.arch.as_str();
    arch == "all" || is_among(architectures, arch)
}

/// The same of the package at a place.
fn is_for_at(architectures: &[Name], list: &PackageList, place: usize) -> bool
    requires { place < length list.now }
    ensures { (p : Card) → slice_get list.now place ≡ Some p → result ≡ for_one architectures.now p }
{
    match list.get(place) {
        None => false,
        Some(package) => is_for(architectures, package),
    }
}

/// The text behind the line of a member that may join the list of a part. Where there is none, the list is as it was.
fn next_member<'a>(
    text: &'a [u8],
    known: &Known,
    architectures: &[Name],
    list: &mut PackageList,
) -> Result<Option<&'a [u8]>, AllocError>
    requires { IsIndexed known.now }
    ensures { IfOk result (λ found. MatchOption found (IdsApart known.now.list → NoLine id_of (MayJoinPart known.now.list architectures.now list.old) text.now) (λ rest. AddsPartMember known.now.list architectures.now list.old text.now list.new rest.now)) }
{
    let Some((place, rest)) = named_member(text, known) else {
        return Ok(None);
    };
    if !is_for_at(architectures, &known.list, place) {
        return Ok(None);
    }
    if list.push_of(&known.list, place)? {
        Ok(Some(rest))
    } else {
        Ok(None)
    }
}

/// So many members of a part, and the text behind their lines.
fn read_members<'a>(
    alloc: Global,
    text: &'a [u8],
    known: &Known,
    architectures: &[Name],
    count: u64,
) -> Result<(PackageList, &'a [u8]), Stop>
    requires { IsIndexed known.now }
    ensures read { IfOk result (λ p. ReadsSeries (λ m. alone (id_of m) ∷ []) (MayJoinPart known.now.list architectures.now) count text.now p.0 p.1.now) }
    ensures stops { IfErr result (λ stop. IfBefore stop (λ left. IdsApart known.now.list → Stops (Series count (NextPartMember known.now.list architectures.now) []) text.now left)) }
{
    let mut list = PackageList::new(alloc);
    let mut rest = text;
    for _read in 0..count {
        match next_member(rest, known, architectures, &mut list)? {
            None => return Err(Stop::Before(rest.len())),
            Some(behind) => rest = behind,
        }
    }
    Ok((list, rest))
}

/// The list of a part, and the text behind it.
fn read_part<'a>(
    alloc: Global,
    text: &'a [u8],
    known: &Known,
    architectures: &[Name],
) -> Result<(PackageList, &'a [u8]), Stop>
    requires { IsIndexed known.now }
    ensures read { IfOk result (λ p. ReadsPart set_pieces (GoodPartSet known.now.list architectures.now) text.now p.0 p.1.now) }
    ensures stops { IfErr result (λ stop. IfBefore stop (λ left. IdsApart known.now.list → Stops (PartSet known.now.list architectures.now) text.now left)) }
{
    let most = Limit::Packages.number();
    let Some((count, rest)) = count_line(text, "set ", most) else {
        return Err(Stop::Before(text.len()));
    };
    read_members(alloc, rest, known, architectures, count)
}

/// A list for the component of each source, and the text behind them.
fn read_parts<'a>(
    alloc: Global,
    text: &'a [u8],
    known: &Known,
    architectures: &[Name],
    sources: &[(Name, Name)],
) -> Result<(Vec<(Name, PackageList)>, &'a [u8]), Stop>
    requires { IsIndexed known.now }
    ensures read { IfOk result (λ p. ReadsPart parts_pieces (GoodParts known.now.list architectures.now (components_of sources.now)) text.now p.0.items p.1.now) }
    ensures stops { IfErr result (λ stop. IfBefore stop (λ left. IdsApart known.now.list → Stops (Parts known.now.list architectures.now (components_of sources.now)) text.now left)) }
{
    let mut parts = Vec::new(alloc);
    let mut rest = text;
    for source in sources {
        match read_part(alloc, rest, known, architectures) {
            Err(stop) => return Err(stop),
            Ok((list, behind)) => {
                parts.push((source.0.copy(alloc)?, list))?;
                rest = behind;
            }
        }
    }
    Ok((parts, rest))
}

/// A generation behind the key of its moment, with a list for the component of each source, and the text behind it.
pub(crate) fn read_generation<'a>(
    alloc: Global,
    text: &'a [u8],
    key: &str,
    known: &Known,
    architectures: &[Name],
    sources: &[(Name, Name)],
) -> Result<(Generation, &'a [u8]), Stop>
    requires { IsIndexed known.now }
    ensures read { IfOk result (λ p. ReadsPart (generation_pieces (λ n. key.now ++ decimal n)) (GoodGeneration known.now.list architectures.now (components_of sources.now)) text.now p.0 p.1.now) }
    ensures stops { IfErr result (λ stop. IfBefore stop (λ left. IdsApart known.now.list → Stops (GenerationPart known.now.list architectures.now (components_of sources.now) (λ n. key.now ++ decimal n)) text.now left)) }
{
    let most = Limit::Date.number();
    let Some((moment, rest)) = count_line(text, key, most) else {
        return Err(Stop::Before(text.len()));
    };
    match read_parts(alloc, rest, known, architectures, sources) {
        Err(stop) => Err(stop),
        Ok((parts, rest)) => {
            let generation = Generation {
                moment: moment as i64,
                parts,
            };
            Ok((generation, rest))
        }
    }
}

/// The generation before the current one, if the publication was published before, and the text behind it.
pub(crate) fn read_previous<'a>(
    alloc: Global,
    text: &'a [u8],
    known: &Known,
    architectures: &[Name],
    sources: &[(Name, Name)],
    later: bool,
) -> Result<(Option<Generation>, &'a [u8]), Stop>
    requires { IsIndexed known.now }
    ensures read { IfOk result (λ p. ReadsPart previous_pieces (GoodPrevious known.now.list architectures.now (components_of sources.now) later) text.now p.0 p.1.now) }
    ensures stops { IfErr result (λ stop. IfBefore stop (λ left. IdsApart known.now.list → Stops (PreviousPart known.now.list architectures.now (components_of sources.now) later) text.now left)) }
{
    if later {
        return match read_generation(alloc, text, "previous ", known, architectures, sources) {
            Err(stop) => Err(stop),
            Ok((generation, rest)) => Ok((Some(generation), rest)),
        };
    }
    match after_line(text, "previous -") {
        None => Err(Stop::Before(text.len())),
        Some(rest) => Ok((None, rest)),
    }
}
