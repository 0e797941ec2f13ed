//! The value of a field Source.
ghost use Rattle.std.specs.Prelude.{◌≡◌, ◌≤◌, length, not};
ghost use Rattle.std.specs.Option.{option_copied, option_map};
ghost use Rattle.package_core.specs.Source.{is_gap as gap};
ghost use Rattle.package_core.specs.SourceParts.{gaps_before, gaps_behind, without_gaps_before as cut_before, without_gaps_behind as cut_behind, before_closing as closed, source_parts, is_source as source};
ghost use Rattle.package_core.specs.Fields.{is_other};
ghost use Rattle.package_core.specs.Answers.{Reads};

use crate::fault::PackageFault;
use ap_text::is_package_name;
use deb_version::is_version;

fn is_gap(c: u8) -> bool
    ensures { result ≡ gap c }
{
    c == b' ' || c == b'\t' || c == b'\n'
}

fn gaps_in_front(text: &[u8]) -> usize
    ensures count { result ≡ gaps_before text.now }
    ensures inside { result ≤ length text.now }
{
    text.iter().take_while(|c| is_gap(**c)).count()
}

fn gaps_at_end(text: &[u8]) -> usize
    ensures count { result ≡ gaps_behind text.now }
    ensures inside { result ≤ length text.now }
{
    text.iter().rev().take_while(|c| is_gap(**c)).count()
}

fn without_gaps_before(text: &str) -> &str
    ensures { result.now ≡ cut_before text.now }
{
    let count = gaps_in_front(text.as_bytes());
    &text[count..]
}

fn without_gaps_behind(text: &str) -> &str
    ensures { result.now ≡ cut_behind text.now }
{
    let count = gaps_at_end(text.as_bytes());
    &text[..text.len() - count]
}

fn before_closing(text: &str) -> Option<&str>
    ensures { option_copied result ≡ closed text.now }
{
    text.strip_suffix(')')
}

/// The name, and the version in parentheses, whatever they are.
#[tactic(auto, unfolding(crate::specs::SourceParts::source_parts))]
pub(crate) fn parts(text: &str) -> Option<(&str, Option<&str>)>
    ensures { option_map (λ p. (p.0.now, option_copied p.1)) result ≡ source_parts text.now }
{
    match text.split_once('(') {
        None => Some((text, None)),
        Some((before, behind)) => match before_closing(behind) {
            None => None,
            Some(inside) => Some((
                without_gaps_behind(before),
                Some(without_gaps_behind(without_gaps_before(inside))),
            )),
        },
    }
}

fn is_source(text: &str) -> bool
    ensures { result ≡ source text.now }
{
    match parts(text) {
        None => false,
        Some((name, None)) => is_package_name(name),
        Some((name, Some(version))) => is_package_name(name) && is_version(version),
    }
}

/// Refuses a field Source that is there and is no source.
pub(crate) fn check_source(text: Option<&str>) -> Result<(), PackageFault>
    ensures { Reads PackageFault.BadSource (not (is_other source (option_copied text.entry))) (λ done. Unit {0}) result }
{
    match text {
        Some(text) if !is_source(text) => Err(PackageFault::BadSource),
        _ => Ok(()),
    }
}
