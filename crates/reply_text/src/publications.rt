//! The replies of commands on publications and on the store.
ghost use Rattle.std.specs.Prelude.{◌≡◌, ◌++◌, codes, IfOk, OnOk, string_bytes};
ghost use Rattle.std.specs.Fmt.{decimal};
ghost use Rattle.reply_text.specs.Words.{line as line_of};
ghost use Rattle.std.specs.List.{flat_map};
ghost use Rattle.reply_text.specs.Publications.{published as published_line, publication_dropped as dropped, publication_line, publish_list as listed, part_line, part_lines, part_sum as sum_of, origin_lines, standing_lines, publish_show as shown, cleaned as cleaned_line};

use crate::put::{put_line, put_names, whole_line};
use crate::words::place_text;
use ap_text::{Name, SafePath};
use control_stanza::Text;
use machine_state::{Kind, Publication, State, kind_word, prefix_word};
use package_list::PackageList;
use std::alloc::{AllocError, Global};
use std::fmt::Write;

/// How many packages the parts have together.
fn part_sum(parts: &[(Name, PackageList)]) -> u128
    ensures { result ≡ sum_of parts.now }
{
    let mut sum: u128 = 0;
    for part in parts {
        sum += part.1.len() as u128;
    }
    sum
}

/// The reply to a publication: `Published <prefix> <dist>: <n> packages, serial <s>.`, where n sums the parts of what stands there
/// now. Fails only for want of memory.
#[tactic(auto, unfolding(crate::specs::Publications::published), using(std::proofs::Common::append_assoc))]
pub fn published(alloc: Global, publication: &Publication) -> Result<Text, AllocError>
    ensures { IfOk result (λ text. text ≡ published_line publication.now) }
{
    let place = place_text(alloc, &publication.prefix, &publication.dist)?;
    let text = format!(in alloc;
        "Published {}: {} packages, serial {}.",
        place.as_str(),
        part_sum(&publication.current.parts),
        publication.serial
    )?;
    whole_line(alloc, text.as_str())
}

/// The reply to the end of a publication: `Publication <prefix> <dist> dropped.` Fails only for want of memory.
#[tactic(auto, unfolding(crate::specs::Publications::publication_dropped))]
pub fn publication_dropped(
    alloc: Global,
    prefix: &Option<SafePath>,
    dist: &Name,
) -> Result<Text, AllocError>
    ensures { IfOk result (λ text. text ≡ dropped prefix.now dist.now) }
{
    let place = place_text(alloc, prefix, dist)?;
    let text = format!(in alloc; "Publication {} dropped.", place.as_str())?;
    whole_line(alloc, text.as_str())
}

#[tactic(auto, unfolding(crate::specs::Words::line, crate::specs::Publications::publication_line), using(std::proofs::Common::append_assoc))]
fn put_publication(
    alloc: Global,
    out: &mut String,
    publication: &Publication,
) -> Result<(), AllocError>
    ensures { OnOk result (string_bytes out.new ≡ string_bytes out.old ++ publication_line publication.now) }
{
    let place = place_text(alloc, &publication.prefix, &publication.dist)?;
    out.push_str(" * ")?;
    out.push_str(place.as_str())?;
    out.push_str(" serial ")?;
    write!(out, "{}", publication.serial)?;
    out.push_str("\n")?;
    Ok(())
}

fn put_each(alloc: Global, out: &mut String, publications: &[Publication]) -> Result<(), AllocError>
    ensures { OnOk result (string_bytes out.new ≡ string_bytes out.old ++ flat_map publication_line publications.now) }
{
    for publication in publications {
        put_publication(alloc, out, publication)?;
    }
    Ok(())
}

/// The reply of `publish list`: `Publications: <n>`, and then ` * <prefix> <dist> serial <s>` for each, those without a prefix first.
/// Fails only for want of memory.
#[tactic(auto, unfolding(crate::specs::Publications::publish_list, crate::specs::Words::line), using(std::proofs::Common::append_assoc))]
pub fn publish_list(alloc: Global, state: &State) -> Result<Text, AllocError>
    ensures { IfOk result (λ text. text ≡ listed state.now.publications) }
{
    let mut out = format!(in alloc; "Publications: {}\n", state.publications.len())?;
    put_each(alloc, &mut out, &state.publications)?;
    Text::new(alloc, out.as_str())
}

#[tactic(auto, unfolding(crate::specs::Words::line, crate::specs::Publications::part_line), using(std::proofs::Common::append_assoc))]
fn put_part(
    out: &mut String,
    source: &(Name, Name),
    part: &(Name, PackageList),
) -> Result<(), AllocError>
    ensures { OnOk result (string_bytes out.new ≡ string_bytes out.old ++ part_line source.now part.now) }
{
    out.push_str(" ")?;
    out.push_str(source.0.as_str())?;
    out.push_str(": ")?;
    out.push_str(source.1.as_str())?;
    out.push_str(" [")?;
    write!(out, "{}", part.1.len())?;
    out.push_str("]\n")?;
    Ok(())
}

fn put_parts(
    out: &mut String,
    sources: &[(Name, Name)],
    parts: &[(Name, PackageList)],
) -> Result<(), AllocError>
    ensures { OnOk result (string_bytes out.new ≡ string_bytes out.old ++ part_lines sources.now parts.now) }
{
    match (sources.split_first(), parts.split_first()) {
        (Some((source, sources)), Some((part, parts))) => {
            put_part(out, source, part)?;
            put_parts(out, sources, parts)
        }
        _ => Ok(()),
    }
}

#[tactic(auto, unfolding(crate::specs::Words::line))]
fn put_serial(out: &mut String, serial: u32) -> Result<(), AllocError>
    ensures { OnOk result (string_bytes out.new ≡ string_bytes out.old ++ line_of (codes "Serial: " ++ decimal serial)) }
{
    out.push_str("Serial: ")?;
    write!(out, "{serial}")?;
    out.push_str("\n")?;
    Ok(())
}

#[tactic(auto, unfolding(crate::specs::Publications::origin_lines), using(std::proofs::Common::append_assoc))]
fn put_origin(
    out: &mut String,
    prefix: &Option<SafePath>,
    dist: &Name,
    kind: Kind,
) -> Result<(), AllocError>
    ensures { OnOk result (string_bytes out.new ≡ string_bytes out.old ++ origin_lines prefix.now dist.now kind) }
{
    put_line(out, "Prefix: ", prefix_word(prefix))?;
    put_line(out, "Distribution: ", dist.as_str())?;
    put_line(out, "Kind: ", kind_word(kind))
}

#[tactic(auto, unfolding(crate::specs::Publications::standing_lines), using(std::proofs::Common::append_assoc))]
fn put_standing(
    out: &mut String,
    architectures: &[Name],
    serial: u32,
    date: &Text,
) -> Result<(), AllocError>
    ensures { OnOk result (string_bytes out.new ≡ string_bytes out.old ++ standing_lines architectures.now serial date.now) }
{
    put_names(out, "Architectures:", architectures)?;
    put_serial(out, serial)?;
    put_line(out, "Date: ", date.as_str())
}

/// The reply of `publish show`, with the date of what stands there: the lines `Prefix: <prefix>`, `Distribution: <dist>`, `Kind: repo`
/// or `Kind: snapshot`, `Architectures:` with a blank before each, `Serial: <s>`, `Date: <date>`, and then
/// ` <component>: <source> [<packages>]` for each source. Fails only for want of memory.
#[tactic(auto, unfolding(crate::specs::Publications::publish_show), using(std::proofs::Common::append_assoc))]
pub fn publish_show(
    alloc: Global,
    publication: &Publication,
    date: &Text,
) -> Result<Text, AllocError>
    ensures { IfOk result (λ text. text ≡ shown publication.now date.now) }
{
    let mut out = String::new(alloc);
    put_origin(
        &mut out,
        &publication.prefix,
        &publication.dist,
        publication.kind,
    )?;
    put_standing(
        &mut out,
        &publication.architectures,
        publication.serial,
        date,
    )?;
    put_parts(&mut out, &publication.sources, &publication.current.parts)?;
    Text::new(alloc, out.as_str())
}

/// The reply to a cleanup: `Cleanup: <removed> packages removed, <kept> kept.` Fails only for want of memory.
#[tactic(auto, unfolding(crate::specs::Publications::cleaned), using(std::proofs::Common::append_assoc))]
pub fn cleaned(alloc: Global, removed: u64, kept: u64) -> Result<Text, AllocError>
    ensures { IfOk result (λ text. text ≡ cleaned_line removed kept) }
{
    let text = format!(in alloc; "Cleanup: {} packages removed, {} kept.", removed, kept)?;
    whole_line(alloc, text.as_str())
}
