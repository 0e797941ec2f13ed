//! The words of a value.
ghost use Rattle.std.specs.Prelude.{◌≡◌, ◌≤◌, ◌<◌, ◌∷◌, [], ℕ, List, false, not, length, IfOk, IfSome, MatchOption};
ghost use Rattle.std.specs.List.{take_while};
ghost use Rattle.package_core.specs.Source.{is_gap as gap};
ghost use Rattle.package_core.specs.SourceParts.{gaps_before};
ghost use Rattle.release_file.specs.Words.{words, starts_gap, has_word as is_filled};

use crate::ordered::Word;
use std::alloc::{AllocError, Global};

fn is_gap(c: u8) -> bool
    ensures { result ≡ gap c }
{
    c == b' ' || c == b'\t' || c == b'\n'
}

fn gaps_in_front(text: &[u8]) -> usize
    ensures count { result ≡ gaps_before text.now }
    ensures inside { result ≤ length text.now }
{
    text.iter().take_while(|c| is_gap(**c)).count()
}

fn without_gaps(text: &str) -> &str
    ensures same { words result.now ≡ words text.now }
    ensures starts { starts_gap result.now ≡ false }
    ensures inside { length result.now ≤ length text.now }
{
    let count = gaps_in_front(text.as_bytes());
    &text[count..]
}

/// The length of the word in front.
fn word_len(text: &[u8]) -> usize
    ensures count { result ≡ length (take_while (λ c. not (gap c)) text.now) }
    ensures inside { result ≤ length text.now }
{
    text.iter().take_while(|c| !is_gap(**c)).count()
}

/// The first word of a text, and what stands behind it.
pub(crate) fn next_word(text: &str) -> Option<(&str, &str)>
    ensures first { MatchOption result (words text.now ≡ []) (λ p. words text.now ≡ p.0.now ∷ words p.1.now) }
    ensures less { IfSome result (λ p. length p.1.now < length text.now) }
{
    let rest = without_gaps(text);
    if rest.is_empty() {
        return None;
    }
    let length = word_len(rest.as_bytes());
    Some((&rest[..length], &rest[length..]))
}

/// Whether a line isn't blank.
pub(crate) fn has_word(line: &str) -> bool
    ensures { result ≡ is_filled line.now }
{
    next_word(line).is_some()
}

/// The words of a line that has three.
pub(crate) fn three_words(line: &str) -> Option<(&str, &str, &str)>
    ensures { MatchOption result ((a b c : List ℕ) → words line.now ≡ a ∷ b ∷ c ∷ [] → ⊥) (λ p. words line.now ≡ p.0.now ∷ p.1.now ∷ p.2.now ∷ []) }
{
    let (first, rest) = next_word(line)?;
    let (second, rest) = next_word(rest)?;
    let (third, rest) = next_word(rest)?;
    match next_word(rest) {
        None => Some((first, second, third)),
        Some(_) => None,
    }
}

/// All words of a text. Fails only for want of memory.
pub(crate) fn words_of<'a>(alloc: Global, text: &'a str) -> Result<Vec<Word<'a>>, AllocError>
    ensures { IfOk result (λ v. v.items ≡ words text.now) }
{
    let mut found = Vec::new(alloc);
    let mut rest = text;
    while let Some((word, behind)) = next_word(rest) {
        found.push(Word::new(word))?;
        rest = behind;
    }
    Ok(found)
}
