//! The lines of a mirror that give one value each.
ghost use Rattle.std.specs.Prelude.{◌≡◌, ◌↔◌, ◌∷◌, ◌++◌, ◌==◌, not, Bool, Option, IfOk, MatchOption, IsTrue};
ghost use Rattle.std.specs.Option.{option_map};
ghost use Rattle.std.specs.List.{list_all};
ghost use Rattle.query_tree.specs.Tree.{Tree, plain};
ghost use Rattle.query_tree.specs.Written.{written as written_query};
ghost use Rattle.machine_state.specs.Texts.{IsDate, IsFilter, is_path as path};
ghost use Rattle.machine_state.specs.Words.{yes_or_no, filter_text};
ghost use Rattle.catalogue_text.specs.MirrorLines.{filter_line as filter_spelled, date_line as date_spelled};
ghost use Rattle.catalogue_text.specs.MirrorReading.{IsPath, IsChoice, IsEither};
ghost use Rattle.catalogue_lines.specs.Reading.{NoLine, ReadsLine};

use ap_text::SafePath;
use catalogue_lines::{as_text, key_line, path_of_bytes, setting};
use control_stanza::Text;
use query_grammar::{Query, QueryFault, read_filter, write_query};
use std::alloc::{AllocError, Global};

/// A line of a key and a safe path of at most so many bytes.
pub(crate) fn path_line<'a>(
    alloc: Global,
    text: &'a [u8],
    key: &str,
    most: usize,
) -> Result<Option<(SafePath, &'a [u8])>, AllocError>
    ensures { IfOk result (λ found. MatchOption found (NoLine (λ p. key.now ++ p) (IsPath most) text.now) (λ p. ReadsLine (λ p. key.now ++ p) (IsPath most) text.now p.0 p.1.now)) }
{
    match key_line(text, key) {
        None => Ok(None),
        Some((written, rest)) => match path_of_bytes(alloc, written, most)? {
            None => Ok(None),
            Some(path) => Ok(Some((path, rest))),
        },
    }
}

/// Whether a query is written so.
fn is_written(alloc: Global, query: &Query, text: &str) -> Result<bool, AllocError>
    ensures { IfOk result (λ is. IsTrue is ↔ (written_query (plain query.now) ≡ text.now)) }
{
    let mut again = Vec::new(alloc);
    write_query(&mut again, query)?;
    Ok(again.as_slice() == text.as_bytes())
}

/// The query that is written so, if there is one: the text is read, and what was read is written once more.
fn query_of(alloc: Global, text: &str) -> Result<Option<Query>, AllocError>
    ensures { IfOk result (λ found. MatchOption found ((t : Tree) → IsFilter t → text.now ≡ written_query t → ⊥) (λ query. IsFilter (plain query) × (text.now ≡ written_query (plain query)))) }
{
    match read_filter(alloc, text) {
        Err(QueryFault::At { .. }) => Ok(None),
        Err(QueryFault::OutOfMemory) => Err(AllocError),
        Ok(query) => {
            if is_written(alloc, &query, text)? {
                Ok(Some(query))
            } else {
                Ok(None)
            }
        }
    }
}

/// The filter that is written so: none by an empty text.
fn choice_of(alloc: Global, value: &[u8]) -> Result<Option<Option<Query>>, AllocError>
    ensures { IfOk result (λ found. MatchOption found ((f : Option Tree) → IsChoice f → value.now ≡ filter_text f → ⊥) (λ f. IsChoice (option_map plain f) × (value.now ≡ filter_text (option_map plain f)))) }
{
    if value.is_empty() {
        return Ok(Some(None));
    }
    match as_text(value) {
        None => Ok(None),
        Some(text) => match query_of(alloc, text)? {
            None => Ok(None),
            Some(query) => Ok(Some(Some(query))),
        },
    }
}

/// A line with the filter of a mirror.
pub(crate) fn filter_line(
    alloc: Global,
    text: &[u8],
) -> Result<Option<(Option<Query>, &[u8])>, AllocError>
    ensures { IfOk result (λ found. MatchOption found (NoLine filter_spelled IsChoice text.now) (λ p. ReadsLine filter_spelled IsChoice text.now (option_map plain p.0) p.1.now)) }
{
    match key_line(text, "filter") {
        None => Ok(None),
        Some((written, rest)) => match setting(written) {
            None => Ok(None),
            Some(value) => match choice_of(alloc, value)? {
                None => Ok(None),
                Some(filter) => Ok(Some((filter, rest))),
            },
        },
    }
}

fn flag_of(written: &[u8]) -> Option<bool>
    ensures { MatchOption result ((is : Bool) → written.now ≡ yes_or_no is → ⊥) (λ is. written.now ≡ yes_or_no is) }
{
    if written == "yes".as_bytes() {
        Some(true)
    } else if written == "no".as_bytes() {
        Some(false)
    } else {
        None
    }
}

/// A line of a key, and of `yes` or `no`.
pub(crate) fn flag_line<'a>(text: &'a [u8], key: &str) -> Option<(bool, &'a [u8])>
    ensures { MatchOption result (NoLine (λ is. key.now ++ yes_or_no is) IsEither text.now) (λ p. ReadsLine (λ is. key.now ++ yes_or_no is) IsEither text.now p.0 p.1.now) }
{
    match key_line(text, key) {
        None => None,
        Some((written, rest)) => match flag_of(written) {
            None => None,
            Some(is) => Some((is, rest)),
        },
    }
}

fn is_one_line(bytes: &[u8]) -> bool
    ensures { result ≡ list_all (λ b. not (b == 10)) bytes.now }
{
    bytes.iter().all(|b| *b != b'\n')
}

/// The bytes as a date, where they are one.
fn date_of(alloc: Global, bytes: &[u8]) -> Result<Option<Text>, AllocError>
    ensures { IfOk result (λ found. MatchOption found (IsDate bytes.now → ⊥) (λ date. (date ≡ bytes.now) × IsDate bytes.now)) }
{
    if bytes.len() > 200 || !is_one_line(bytes) {
        return Ok(None);
    }
    match as_text(bytes) {
        None => Ok(None),
        Some(text) => Ok(Some(Text::new(alloc, text)?)),
    }
}

/// A line with the date that an archive states.
pub(crate) fn date_line(alloc: Global, text: &[u8]) -> Result<Option<(Text, &[u8])>, AllocError>
    ensures { IfOk result (λ found. MatchOption found (NoLine date_spelled IsDate text.now) (λ p. ReadsLine date_spelled IsDate text.now p.0 p.1.now)) }
{
    match key_line(text, "date") {
        None => Ok(None),
        Some((written, rest)) => match setting(written) {
            None => Ok(None),
            Some(value) => match date_of(alloc, value)? {
                None => Ok(None),
                Some(date) => Ok(Some((date, rest))),
            },
        },
    }
}
