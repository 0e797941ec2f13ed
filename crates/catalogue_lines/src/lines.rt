//! The lines of a text, from the front.
ghost use Rattle.std.specs.Prelude.{◌≡◌, ◌∷◌, ◌++◌, ◌-◌, ◌+◌, ℕ, List, [], MatchOption, ◌≤◌, ◌<◌, ◌^◌, ◌==◌, length, take, false, slice_index, if◌then◌else◌};
ghost use Rattle.std.specs.List.{list_any};
ghost use Rattle.std.specs.Str.{IsUtf8};
ghost use Rattle.catalogue_lines.specs.Lines.{IsLine, is_ended as ended, line_ends as line_ends_of};

use std::str;

/// The first line, and the text behind it.
pub(crate) fn first_line(text: &[u8]) -> Option<(&[u8], &[u8])>
    ensures { MatchOption result (text.now ≡ []) (λ p. IsLine text.now p.0.now p.1.now) }
{
    if text.is_empty() {
        return None;
    }
    let end = end_before(text, b'\n');
    let (line, rest) = text.split_at(end);
    match rest.split_first() {
        None => Some((line, rest)),
        Some((_, more)) => Some((line, more)),
    }
}

/// The place of the first such byte, or the length.
pub fn end_before(text: &[u8], stop: u8) -> usize
    ensures inside { result ≤ length text.now }
    ensures front { list_any (λ b. b == stop) (take result text.now) ≡ false }
    ensures at { result < length text.now → slice_index text.now result ≡ stop }
{
    for (i, b) in text.iter().enumerate() {
        if *b == stop {
            return i;
        }
    }
    text.len()
}

/// The text behind this line, where the text begins with it.
pub fn after_line<'a>(text: &'a [u8], line: &str) -> Option<&'a [u8]>
    ensures { MatchOption result ((behind : List ℕ) → IsLine text.now line.now behind → ⊥) (λ rest. IsLine text.now line.now rest.now) }
{
    match first_line(text) {
        None => None,
        Some((first, rest)) => {
            if first == line.as_bytes() {
                Some(rest)
            } else {
                None
            }
        }
    }
}

/// What stands behind a key at the front of a line.
fn behind<'a>(line: &'a [u8], key: &str) -> Option<&'a [u8]>
    ensures { MatchOption result ((rest : List ℕ) → line.now ≡ key.now ++ rest → ⊥) (λ rest. line.now ≡ key.now ++ rest.now) }
{
    match line.strip_prefix(key.as_bytes()) {
        None => None,
        Some(rest) => Some(rest),
    }
}

/// What stands behind a key in the first line, and the text behind the line.
pub fn key_line<'a>(text: &'a [u8], key: &str) -> Option<(&'a [u8], &'a [u8])>
    ensures { MatchOption result ((written : List ℕ) (behind : List ℕ) → IsLine text.now (key.now ++ written) behind → ⊥) (λ p. IsLine text.now (key.now ++ p.0.now) p.1.now) }
{
    match first_line(text) {
        None => None,
        Some((line, rest)) => match behind(line, key) {
            None => None,
            Some(written) => Some((written, rest)),
        },
    }
}

/// Whether the last line has its line end.
#[tactic(auto, using(crate::proofs::LineLemmas::ended_push))]
pub fn is_ended(text: &[u8]) -> bool
    ensures { result ≡ ended text.now }
{
    match text.split_last() {
        None => true,
        Some((last, _)) => *last == b'\n',
    }
}

/// How many line ends the text has.
pub fn line_ends(text: &[u8]) -> usize
    ensures value { result ≡ line_ends_of text.now }
    ensures small { result ≤ length text.now }
{
    let mut count = 0;
    for b in text {
        if *b == b'\n' {
            count += 1;
        }
    }
    count
}

/// The number, from 1, of the line that begins where so many bytes are left, or would begin there.
pub fn line_before(text: &[u8], left: usize) -> u64
    ensures number { let front = take (length text.now - left) text.now in result ≡ 1 + line_ends_of front + (if ended front then 0 else 1) }
    ensures small { length text.now < 2 ^ 64 }
{
    let (front, _) = text.split_at(text.len().saturating_sub(left));
    let ends = line_ends(front) as u64;
    if is_ended(front) { ends + 1 } else { ends + 2 }
}

/// How many bytes a text has.
pub(crate) fn size_of(text: &[u8]) -> u64
    ensures same { result ≡ length text.now }
    ensures small { length text.now < 2 ^ 64 }
{
    text.len() as u64
}

/// The bytes as text, where they are UTF-8.
pub fn as_text(bytes: &[u8]) -> Option<&str>
    ensures { MatchOption result (IsUtf8 bytes.now → ⊥) (λ text. (text.now ≡ bytes.now) × IsUtf8 bytes.now) }
{
    match str::from_utf8(bytes) {
        Ok(text) => Some(text),
        Err(_) => None,
    }
}
