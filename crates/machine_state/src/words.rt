//! Words and parts of lines: those that replies and the root text have in common.
ghost use Rattle.std.specs.Prelude.{◌≡◌, ◌++◌, IfOk, OnOk, string_bytes};
ghost use Rattle.std.specs.Option.{option_map};
ghost use Rattle.query_tree.specs.Tree.{plain};
ghost use Rattle.machine_state.specs.Words.{blank_and, names_behind, yes_or_no as word_of_flag, kind_word as word_of_kind, filter_text as text_of_filter, prefix_word as word_of_prefix};

use crate::limit::Kind;
use ap_text::{Name, SafePath};
use control_stanza::Text;
use query_tree::{Query, write_query};
use std::alloc::{AllocError, Global};
use std::str;

/// The word of a kind of things.
pub fn kind_word(kind: Kind) -> &'static str
    ensures { result.now ≡ word_of_kind kind }
{
    match kind {
        Kind::Mirror => "mirror",
        Kind::Repo => "repo",
        Kind::Snapshot => "snapshot",
        Kind::Component => "component",
    }
}

/// `yes` or `no`.
pub fn yes_or_no(is: bool) -> &'static str
    ensures { result.now ≡ word_of_flag is }
{
    if is { "yes" } else { "no" }
}

/// The prefix of a publication, `.` for none.
pub fn prefix_word(prefix: &Option<SafePath>) -> &str
    ensures { result.now ≡ word_of_prefix prefix.now }
{
    match prefix {
        None => ".",
        Some(path) => path.as_str(),
    }
}

/// Puts a blank and the text, where there is a text. Fails only for want of memory.
pub fn put_blank_and(out: &mut String, text: &str) -> Result<(), AllocError>
    ensures { OnOk result (string_bytes out.new ≡ string_bytes out.old ++ blank_and text.now) }
{
    if !text.is_empty() {
        out.push_str(" ")?;
        out.push_str(text)?;
    }
    Ok(())
}

/// Puts each of the names behind a blank. Fails only for want of memory.
pub fn put_names_behind(out: &mut String, names: &[Name]) -> Result<(), AllocError>
    ensures { OnOk result (string_bytes out.new ≡ string_bytes out.old ++ names_behind names.now) }
{
    for name in names {
        out.push_str(" ")?;
        out.push_str(name.as_str())?;
    }
    Ok(())
}

fn filter_bytes(alloc: Global, filter: &Option<Query>) -> Result<Vec<u8>, AllocError>
    ensures { IfOk result (λ bytes. bytes.items ≡ text_of_filter (option_map plain filter.now)) }
{
    let mut bytes = Vec::new(alloc);
    if let Some(query) = filter {
        write_query(&mut bytes, query)?;
    }
    Ok(bytes)
}

/// The query of a filter as it is written; without a filter the empty text. What is written of a query is UTF-8, so this fails only
/// for want of memory.
pub fn filter_text(alloc: Global, filter: &Option<Query>) -> Result<Text, AllocError>
    ensures { IfOk result (λ text. text ≡ text_of_filter (option_map plain filter.now)) }
{
    let bytes = filter_bytes(alloc, filter)?;
    match str::from_utf8(&bytes) {
        Ok(text) => Text::new(alloc, text),
        Err(_) => Err(AllocError),
    }
}
