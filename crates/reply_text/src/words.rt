//! The words of the lines that are said.
ghost use Rattle.std.specs.Prelude.{◌≡◌, IfOk, string_bytes};
ghost use Rattle.reply_text.specs.Words.{limit_word as word_of_limit, what_word as word_of_fact, place_text as place_text_of, shown_char as shown_as, shown as shown_text};

use ap_text::{Name, SafePath};
use digest_set::What;
use machine_state::{Limit, prefix_word};
use std::alloc::{AllocError, Global};

pub(crate) fn limit_word(limit: Limit) -> &'static str
    ensures { result.now ≡ word_of_limit limit }
{
    match limit {
        Limit::Mirrors => "mirrors",
        Limit::Repos => "repos",
        Limit::Snapshots => "snapshots",
        Limit::Publications => "publications",
        Limit::Packages => "packages",
        Limit::Known => "known",
        Limit::Catalogue => "catalogue",
        Limit::Index => "index",
        Limit::ReleaseBytes => "release",
        Limit::Generation => "generation",
        Limit::File => "file",
        Limit::Serial => "serial",
        Limit::Date => "date",
    }
}

pub(crate) fn what_word(what: What) -> &'static str
    ensures { result.now ≡ word_of_fact what }
{
    match what {
        What::Size => "size",
        What::Sha256 => "sha256",
        What::Sha1 => "sha1",
        What::Md5 => "md5",
    }
}

/// A publication: its prefix and its distribution.
pub(crate) fn place_text(
    alloc: Global,
    prefix: &Option<SafePath>,
    dist: &Name,
) -> Result<String, AllocError>
    ensures { IfOk result (λ made. string_bytes made ≡ place_text_of (prefix.now, dist.now)) }
{
    format!(in alloc; "{} {}", prefix_word(prefix), dist.as_str())
}

fn shown_char(c: char) -> char
    ensures { result ≡ shown_as c }
{
    if c >= ' ' && c <= '~' { c } else { '?' }
}

/// At most the first hundred characters of a text, each that a terminal may not show as `?`.
#[tactic(auto, unfolding(crate::specs::Words::shown))]
pub(crate) fn shown(alloc: Global, text: &str) -> Result<String, AllocError>
    ensures { IfOk result (λ shown. string_bytes shown ≡ shown_text text.now) }
{
    text.chars().take(100).map(|c| shown_char(c)).collect(alloc)
}
