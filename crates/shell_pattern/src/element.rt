//! The elements of shell patterns.

ghost use Rattle.std.specs.Prelude.{◌≡◌, ◌≤◌, ◌<◌, ◌∷◌, [], length, MatchOption, IsTrue, IsFalse};
ghost use Rattle.std.specs.Str.{chars};
ghost use Rattle.shell_pattern.specs.Glob.{is_negated, behind_negation, escaped_one, opened as opened_class, elements_of, takes as takes_it, first_element as first_of};
ghost use Rattle.shell_pattern.specs.GlobReading.{has_class_end};
ghost use Rattle.shell_pattern.specs.GlobViews.{element_view, begun_view};

use crate::class::{behind_class, is_in_class};
use crate::glob_end::GlobEnd;
use crate::letter::split_first_char;

/// An element of a pattern: any run of characters, any one, this one, or one of a class or not of it, whose characters
/// begin the text and end at their `]`.
#[derive(Drop)]
pub(crate) enum Element<'p> {
    Run,
    One,
    Exactly(char),
    Class { negated: bool, letters: &'p str },
}

/// Whether the class is negated, and what follows the mark of that.
fn negation(text: &str) -> (bool, &str)
    ensures negated { result.0 ≡ is_negated (chars text.now) }
    ensures behind { chars result.1.now ≡ behind_negation (chars text.now) }
    ensures shorter { length result.1.now ≤ length text.now }
{
    match split_first_char(text) {
        None => (false, text),
        Some((c, rest)) => {
            if c == '^' || c == '!' {
                return (true, rest);
            }
            (false, text)
        }
    }
}

/// Behind a `[`. Where the class has no end, the pattern is looked through once more, so that it isn't for each `[`.
#[tactic(auto, using(crate::proofs::EndFacts::no_class))]
fn opened(rest: GlobEnd<'_>) -> (Element<'_>, GlobEnd<'_>)
    ensures value { begun_view result.0 result.1.text.now ≡ opened_class (chars rest.entry.text.now) }
    ensures shorter { length result.1.text.now ≤ length rest.entry.text.now }
{
    if rest.is_open {
        return (Element::Exactly('['), rest);
    }
    let (negated, letters) = negation(rest.text);
    match behind_class(true, letters) {
        None => (Element::Exactly('['), GlobEnd::new(rest.text)),
        Some(behind) => (
            Element::Class { negated, letters },
            GlobEnd::unknown(behind),
        ),
    }
}

/// Behind a `\\`.
fn escaped(rest: &str, is_open: bool) -> (Element<'_>, GlobEnd<'_>)
    requires { IsTrue is_open → IsFalse (has_class_end (92 ∷ chars rest.now)) }
    ensures value { begun_view result.0 result.1.text.now ≡ escaped_one (chars rest.now) }
    ensures shorter { length result.1.text.now ≤ length rest.now }
{
    match split_first_char(rest) {
        None => (Element::Exactly('\\'), GlobEnd::new(rest)),
        Some((c, behind)) => (
            Element::Exactly(c),
            GlobEnd::behind_escaped(c, behind, is_open),
        ),
    }
}

#[tactic(auto, unfolding(crate::specs::Glob::first_element))]
fn element_from(c: char, rest: &str, is_open: bool) -> (Element<'_>, GlobEnd<'_>)
    requires { IsTrue is_open → IsFalse (has_class_end (c ∷ chars rest.now)) }
    ensures value { begun_view result.0 result.1.text.now ≡ first_of c (chars rest.now) }
    ensures shorter { length result.1.text.now ≤ length rest.now }
{
    if c == '*' {
        return (Element::Run, GlobEnd::behind(c, rest, is_open));
    }
    if c == '?' {
        return (Element::One, GlobEnd::behind(c, rest, is_open));
    }
    if c == '\\' {
        return escaped(rest, is_open);
    }
    if c == '[' {
        return opened(GlobEnd::behind(c, rest, is_open));
    }
    (Element::Exactly(c), GlobEnd::behind(c, rest, is_open))
}

/// The first element of a pattern, and the pattern behind it.
#[tactic(auto, using(crate::proofs::ElementFacts::elements_step, crate::proofs::ElementFacts::elements_none))]
pub(crate) fn first_element(pattern: GlobEnd<'_>) -> Option<(Element<'_>, GlobEnd<'_>)>
    ensures { MatchOption result (elements_of (chars pattern.entry.text.now) ≡ []) (λ (e, rest). (elements_of (chars pattern.entry.text.now) ≡ element_view e ∷ elements_of (chars rest.text.now)) × (length rest.text.now < length pattern.entry.text.now)) }
{
    match split_first_char(pattern.text) {
        None => None,
        Some((c, rest)) => Some(element_from(c, rest, pattern.is_open)),
    }
}

/// Whether the element stands for this one character.
pub(crate) fn takes(element: &Element<'_>, c: char) -> bool
    ensures { result ≡ takes_it (element_view element.now) c }
{
    match element {
        Element::Run => false,
        Element::One => true,
        Element::Exactly(wanted) => c == *wanted,
        Element::Class { negated, letters } => is_in_class(letters, c) != *negated,
    }
}
