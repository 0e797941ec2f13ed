//! The components and architectures that a Release names.
ghost use Rattle.std.specs.Prelude.{◌≡◌, [], true, false, IfOk, MatchOption, filter, map};
ghost use Rattle.std.specs.Ordering.{nat_cmp};
ghost use Rattle.std.specs.Cmp.Lexicographic.{slice_cmp};
ghost use Rattle.package_list.specs.Sorted.{union};
ghost use Rattle.std.specs.List.{list_all};
ghost use Rattle.ap_text.specs.Names.{is_architecture as architecture, is_component as component};
ghost use Rattle.package_core.specs.Fields.{last_segment};
ghost use Rattle.release_file.specs.Words.{words};
ghost use Rattle.release_file.specs.Release.{AreNamesOf, is_wanted as wanted};

use crate::ordered::{Word, in_order};
use crate::words::words_of;
use ap_text::{Name, is_architecture, is_component};
use std::alloc::{AllocError, Global};

/// What follows the last slash of a word.
fn last_part(word: &str) -> &str
    ensures { result.now ≡ last_segment word.now }
{
    let mut rest = word;
    while let Some((_, behind)) = rest.split_once('/') {
        rest = behind;
    }
    rest
}

/// Of each word what follows its last slash.
fn last_parts<'a>(alloc: Global, words: &[Word<'a>]) -> Result<Vec<Word<'a>>, AllocError>
    ensures { IfOk result (λ v. v.items ≡ map last_segment words.now) }
{
    let mut parts = Vec::with_capacity(alloc, words.len())?;
    for word in words {
        parts.push(Word::new(last_part(word.text())))?;
    }
    Ok(parts)
}

fn is_wanted(word: &str) -> bool
    ensures { result ≡ wanted word.now }
{
    word != "all" && word != "source"
}

/// Drops the words that are skipped.
fn keep_wanted(words: &mut Vec<Word<'_>>)
    ensures { words.new.items ≡ filter wanted words.old.items }
{
    words.retain(|word| is_wanted(word.text()));
}

fn are_components(words: &[Word<'_>]) -> bool
    ensures { result ≡ list_all component words.now }
{
    words.iter().all(|word| is_component(word.text()))
}

fn are_architectures(words: &[Word<'_>]) -> bool
    ensures { result ≡ list_all architecture words.now }
{
    words.iter().all(|word| is_architecture(word.text()))
}

/// A name that a word is.
fn name_of(alloc: Global, word: &str) -> Result<Name, AllocError>
    ensures { IfOk result (λ name. name ≡ word.now) }
{
    match Name::new(alloc, word) {
        Ok(name) => Ok(name),
        // The word is a name, so memory ran out.
        Err(_) => Err(AllocError),
    }
}

/// The names that the words are, in the order of their bytes, each once.
fn names_of(alloc: Global, words: &[Word<'_>]) -> Result<Vec<Name>, AllocError>
    ensures { IfOk result (λ v. v.items ≡ union (slice_cmp nat_cmp) [] words.now) }
{
    let set = in_order(alloc, words)?;
    let mut names = Vec::with_capacity(alloc, set.len())?;
    for word in set {
        names.push(name_of(alloc, word.text())?)?;
    }
    Ok(names)
}

/// The components that a text names, of each what follows its last slash; `None` where a word names none.
pub(crate) fn read_components(alloc: Global, text: &str) -> Result<Option<Vec<Name>>, AllocError>
    ensures { IfOk result (λ o. MatchOption o (list_all component (map last_segment (words text.now)) ≡ false) (λ v. AreNamesOf component (map last_segment (words text.now)) v.items)) }
{
    let words = words_of(alloc, text)?;
    let words = last_parts(alloc, &words)?;
    if !are_components(&words) {
        return Ok(None);
    }
    Ok(Some(names_of(alloc, &words)?))
}

/// The architectures that a text names, `all` and `source` aside; `None` where another word names none.
pub(crate) fn read_architectures(alloc: Global, text: &str) -> Result<Option<Vec<Name>>, AllocError>
    ensures { IfOk result (λ o. MatchOption o (list_all architecture (filter wanted (words text.now)) ≡ false) (λ v. AreNamesOf architecture (filter wanted (words text.now)) v.items)) }
{
    let mut words = words_of(alloc, text)?;
    keep_wanted(&mut words);
    if !are_architectures(&words) {
        return Ok(None);
    }
    Ok(Some(names_of(alloc, &words)?))
}
