//! The lines of a root text that give one value each.
ghost use Rattle.std.specs.Prelude.{◌≡◌, ◌∷◌, ◌++◌, ◌≤◌, ℕ, List, [], Option, Some, IfOk, MatchOption, IsTrue, IsFalse};
ghost use Rattle.std.specs.Fmt.{decimal};
ghost use Rattle.ap_text.specs.Names.{is_name as name};
ghost use Rattle.machine_state.specs.State.{IsLineText};
ghost use Rattle.machine_state.specs.Words.{blank_and};
ghost use Rattle.catalogue_lines.specs.PartForms.{IsName};
ghost use Rattle.catalogue_lines.specs.Reading.{NoLine, ReadsLine};

use crate::lines::{as_text, key_line};
use ap_text::{Name, is_name, read_decimal};
use control_stanza::Text;
use machine_state::is_line;
use std::alloc::{AllocError, Global};

/// The text of a setting: nothing, or a blank and a text that is not empty.
pub fn setting(written: &[u8]) -> Option<&[u8]>
    ensures { MatchOption result ((value : List ℕ) → written.now ≡ blank_and value → ⊥) (λ value. written.now ≡ blank_and value.now) }
{
    match written.split_first() {
        None => Some(written),
        Some((blank, value)) => {
            if *blank == b' ' && !value.is_empty() {
                Some(value)
            } else {
                None
            }
        }
    }
}

/// The text as a name, if it is one.
fn name_of(alloc: Global, text: &str) -> Result<Option<Name>, AllocError>
    ensures { IfOk result (λ found. MatchOption found (IsFalse (name text.now)) (λ n. (n ≡ text.now) × IsTrue (name n))) }
{
    if !is_name(text) {
        return Ok(None);
    }
    match Name::new(alloc, text) {
        Ok(name) => Ok(Some(name)),
        Err(_) => Err(AllocError),
    }
}

/// The bytes as a name, if they are one. Fails only for want of memory.
pub fn name_of_bytes(alloc: Global, bytes: &[u8]) -> Result<Option<Name>, AllocError>
    ensures { IfOk result (λ found. MatchOption found (IsFalse (name bytes.now)) (λ n. (n ≡ bytes.now) × IsTrue (name n))) }
{
    match as_text(bytes) {
        None => Ok(None),
        Some(text) => name_of(alloc, text),
    }
}

/// The bytes as a line of text, where they are one. Fails only for want of memory.
pub fn line_text_of(alloc: Global, bytes: &[u8]) -> Result<Option<Text>, AllocError>
    ensures { IfOk result (λ found. MatchOption found (IsLineText bytes.now → ⊥) (λ text. (text ≡ bytes.now) × IsLineText bytes.now)) }
{
    if !is_line(bytes) {
        return Ok(None);
    }
    match as_text(bytes) {
        None => Ok(None),
        Some(text) => Ok(Some(Text::new(alloc, text)?)),
    }
}

/// A line of a key and a name, and the text behind it. Fails only for want of memory.
pub fn name_line<'a>(
    alloc: Global,
    text: &'a [u8],
    key: &str,
) -> Result<Option<(Name, &'a [u8])>, AllocError>
    ensures { IfOk result (λ found. MatchOption found (NoLine (λ n. key.now ++ n) IsName text.now) (λ p. ReadsLine (λ n. key.now ++ n) IsName text.now p.0 p.1.now)) }
{
    match key_line(text, key) {
        None => Ok(None),
        Some((written, rest)) => match name_of_bytes(alloc, written)? {
            None => Ok(None),
            Some(name) => Ok(Some((name, rest))),
        },
    }
}

/// The number that digits without leading zeros write, where it is at most so great.
fn count_of(digits: &str, most: u64) -> Option<u64>
    ensures { MatchOption result ((n : ℕ) → n ≤ most → digits.now ≡ decimal n → ⊥) (λ n. (n ≤ most) × (digits.now ≡ decimal n)) }
{
    match read_decimal(digits) {
        None => None,
        Some(count) => { if count > most { None } else { Some(count) } }
    }
}

/// A line of a key and a number that is at most so great, and the text behind it.
pub fn count_line<'a>(text: &'a [u8], key: &str, most: u64) -> Option<(u64, &'a [u8])>
    ensures { MatchOption result (NoLine (λ n. key.now ++ decimal n) (λ n. n ≤ most) text.now) (λ p. ReadsLine (λ n. key.now ++ decimal n) (λ n. n ≤ most) text.now p.0 p.1.now) }
{
    match key_line(text, key) {
        None => None,
        Some((written, rest)) => match as_text(written) {
            None => None,
            Some(digits) => match count_of(digits, most) {
                None => None,
                Some(count) => Some((count, rest)),
            },
        },
    }
}
