//! Lines that list names, and paths.
ghost use Rattle.std.specs.Prelude.{◌≡◌, ◌∷◌, ◌++◌, ℕ, List, IfOk, MatchOption, IsTrue, IsFalse};
ghost use Rattle.machine_state.specs.Texts.{AreNames, is_path as path};
ghost use Rattle.machine_state.specs.Words.{names_behind};
ghost use Rattle.catalogue_lines.specs.NameLines.{IsNextName, IsCut, listed_name};
ghost use Rattle.catalogue_lines.specs.Reading.{NoLine, ReadsLine};

use crate::lines::{as_text, end_before, key_line};
use crate::names::comes_after;
use crate::values::name_of_bytes;
use ap_text::{Name, SafePath, is_architecture, is_component, is_safe_path};
use std::alloc::{AllocError, Global};

/// The text as a safe path of at most so many bytes, if it is one.
fn path_of(alloc: Global, text: &str, most: usize) -> Result<Option<SafePath>, AllocError>
    ensures { IfOk result (λ found. MatchOption found (IsFalse (path most text.now)) (λ p. (p ≡ text.now) × IsTrue (path most p))) }
{
    if !is_safe_path(text) || text.len() > most {
        return Ok(None);
    }
    match SafePath::new(alloc, text) {
        Ok(path) => Ok(Some(path)),
        Err(_) => Err(AllocError),
    }
}

/// The bytes as a safe path of at most so many bytes, if they are one. Fails only for want of memory.
pub fn path_of_bytes(
    alloc: Global,
    bytes: &[u8],
    most: usize,
) -> Result<Option<SafePath>, AllocError>
    ensures { IfOk result (λ found. MatchOption found (IsFalse (path most bytes.now)) (λ p. (p ≡ bytes.now) × IsTrue (path most p))) }
{
    match as_text(bytes) {
        None => Ok(None),
        Some(text) => path_of(alloc, text, most),
    }
}

/// Which names a line lists.
#[derive(Clone, Copy)]
pub enum Listed {
    /// Components.
    Components,
    /// Architectures other than `all`.
    Architectures,
}

impl Listed {
    /// Whether this is one of them.
    fn has(self, name: &str) -> bool
        ensures { result ≡ listed_name self name.now }
    {
        match self {
            Listed::Components => is_component(name),
            Listed::Architectures => is_architecture(name) && name != "all",
        }
    }
}

/// A blank, the bytes up to the next blank, and what stands from there on.
fn cut_name(text: &[u8]) -> Option<(&[u8], &[u8])>
    ensures { MatchOption result ((tail : List ℕ) → text.now ≡ 32 ∷ tail → ⊥) (λ p. IsCut text.now p.0.now p.1.now) }
{
    match text.split_first() {
        None => None,
        Some((blank, tail)) => {
            if *blank == b' ' {
                Some(tail.split_at(end_before(tail, b' ')))
            } else {
                None
            }
        }
    }
}

/// The next name behind a blank, if it may be listed behind those before it, and what stands from its end on.
fn next_name<'a>(
    alloc: Global,
    text: &'a [u8],
    listed: Listed,
    done: &[Name],
) -> Result<Option<(Name, &'a [u8])>, AllocError>
    requires { AreNames (listed_name listed) done.now }
    ensures { IfOk result (λ found. MatchOption found ((name : List ℕ) (behind : List ℕ) → IsCut text.now name behind → IsNextName (listed_name listed) done.now name → ⊥) (λ p. IsCut text.now p.0 p.1.now × IsNextName (listed_name listed) done.now p.0)) }
{
    let Some((bytes, behind)) = cut_name(text) else {
        return Ok(None);
    };
    let Some(name) = name_of_bytes(alloc, bytes)? else {
        return Ok(None);
    };
    if listed.has(name.as_str()) && comes_after(done, &name) {
        Ok(Some((name, behind)))
    } else {
        Ok(None)
    }
}

/// Names, each behind a blank, in strictly ascending order.
fn names_of(alloc: Global, written: &[u8], listed: Listed) -> Result<Option<Vec<Name>>, AllocError>
    ensures { IfOk result (λ found. MatchOption found ((names : List (List ℕ)) → AreNames (listed_name listed) names → written.now ≡ names_behind names → ⊥) (λ names. AreNames (listed_name listed) names.items × (written.now ≡ names_behind names.items))) }
{
    let mut names = Vec::new(alloc);
    let mut rest = written;
    while !rest.is_empty() {
        let Some((name, behind)) = next_name(alloc, rest, listed, &names)? else {
            return Ok(None);
        };
        names.push(name)?;
        rest = behind;
    }
    Ok(Some(names))
}

/// A line of a key and names, each behind a blank, in strictly ascending order, and the text behind it. Fails only for want of memory.
pub fn names_line<'a>(
    alloc: Global,
    text: &'a [u8],
    key: &str,
    listed: Listed,
) -> Result<Option<(Vec<Name>, &'a [u8])>, AllocError>
    ensures { IfOk result (λ found. MatchOption found (NoLine (λ n. key.now ++ names_behind n) (AreNames (listed_name listed)) text.now) (λ p. ReadsLine (λ n. key.now ++ names_behind n) (AreNames (listed_name listed)) text.now p.0.items p.1.now)) }
{
    match key_line(text, key) {
        None => Ok(None),
        Some((written, rest)) => match names_of(alloc, written, listed)? {
            None => Ok(None),
            Some(names) => Ok(Some((names, rest))),
        },
    }
}
