//! The characters of shell patterns that stand for themselves, looked for as one text.

ghost use Rattle.std.specs.Prelude.{◌≡◌, ◌≤◌, ℕ, List, Bool, length, take, IfSome, IsTrue, IsFalse, MatchOption};
ghost use Rattle.std.specs.Str.{chars, IsCharBoundary};
ghost use Rattle.shell_pattern.specs.Glob.{elements_of};
ghost use Rattle.shell_pattern.specs.GlobReading.{any_tail, covers, has_class_end};
ghost use Rattle.shell_pattern.specs.GlobSearch.{AreLiteral, BeginsWith, holds_from};

/// Where the pattern's first character stands that may stand for something else than itself.
fn first_special(pattern: &str, is_open: bool) -> Option<usize>
    ensures { MatchOption result (AreLiteral is_open pattern.now) (λ at. IsCharBoundary pattern.now at × AreLiteral is_open (take at pattern.now)) }
{
    if is_open {
        return pattern.find(['*', '?', '\\']);
    }
    pattern.find(['*', '?', '\\', '['])
}

/// The characters at the pattern's beginning that stand for themselves, where it may be known that no class ends in it.
pub(crate) fn literal_front(pattern: &str, is_open: bool) -> &str
    requires { IsTrue is_open → IsFalse (has_class_end (chars pattern.now)) }
    ensures { BeginsWith (chars result.now) (covers (elements_of (chars pattern.now))) }
{
    match first_special(pattern, is_open) {
        None => pattern,
        Some(at) => &pattern[..at],
    }
}

/// The end of the text from where the letters first stand in it: what holds of no end that begins otherwise holds of
/// none before.
pub(crate) fn from_literal<'t>(letters: &str, text: &'t str) -> Option<&'t str>
    ensures value { (holds : List ℕ → Bool) → BeginsWith (chars letters.now) holds → holds_from holds result ≡ any_tail holds (chars text.now) }
    ensures shorter { IfSome result (λ rest. length rest.now ≤ length text.now) }
{
    match text.find(letters) {
        None => None,
        Some(at) => Some(&text[at..]),
    }
}
