//! The end of a shell pattern behind its last `*`.

ghost use Rattle.std.specs.Prelude.{◌≡◌, ◌<◌, ℕ, List, length, drop, MatchOption};
ghost use Rattle.std.specs.Str.{chars};
ghost use Rattle.shell_pattern.specs.Glob.{elements_of};
ghost use Rattle.shell_pattern.specs.GlobSearch.{characters, IsEnd};

use crate::element::{Element, first_element};
use crate::glob_end::GlobEnd;
use crate::letter::split_first_char;

/// How many characters the pattern stands for, if no `*` is left in it.
pub(crate) fn characters_of(pattern: GlobEnd<'_>) -> Option<usize>
    ensures { result ≡ characters (elements_of (chars pattern.entry.text.now)) }
{
    let mut pattern = pattern;
    let mut count = 0;
    'elements: loop {
        let Some((element, behind)) = first_element(pattern) else {
            return Some(count);
        };
        if matches!(element, Element::Run) {
            return None;
        }
        count += 1;
        pattern = behind;
    }
}

/// What follows so many characters of the text, if it has so many.
fn behind_characters(text: &str, count: usize) -> Option<&str>
    ensures { MatchOption result (length (chars text.now) < count) (λ rest. chars rest.now ≡ drop count (chars text.now)) }
{
    let mut left = text;
    for _ in 0..count {
        let Some((_, rest)) = split_first_char(left) else {
            return None;
        };
        left = rest;
    }
    Some(left)
}

/// The end of the text that has so many characters, if it has so many.
pub(crate) fn end_of(text: &str, count: usize) -> Option<&str>
    ensures { MatchOption result (length (chars text.now) < count) (λ end. IsEnd count (chars end.now) (chars text.now)) }
{
    let all = text.chars().count();
    if all < count {
        return None;
    }
    behind_characters(text, all - count)
}
