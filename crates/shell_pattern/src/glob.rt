//! Shell patterns against texts.

ghost use Rattle.std.specs.Prelude.{◌≡◌, ◌↔◌, ℕ, List, [], Some, IsTrue};
ghost use Rattle.std.specs.Str.{chars};
ghost use Rattle.shell_pattern.specs.Glob.{Glob, elements_of};
ghost use Rattle.shell_pattern.specs.GlobReading.{any_tail, covers, front, is_globbed};
ghost use Rattle.shell_pattern.specs.GlobSearch.{characters, said};
ghost use Rattle.shell_pattern.specs.GlobViews.{front_view, IsNearer};

use crate::element::{Element, first_element, takes};
use crate::glob_end::GlobEnd;
use crate::last::{characters_of, end_of};
use crate::letter::split_first_char;
use crate::literal::{from_literal, literal_front};

/// How far a pattern and a text go together from their beginnings: to the end of both, to a `*` of the pattern, behind
/// which both go on, or no further.
#[derive(Drop)]
pub(crate) enum Front<'p, 't> {
    Whole,
    Star(GlobEnd<'p>, &'t str),
    Fails,
}

fn front_of<'p, 't>(pattern: GlobEnd<'p>, text: &'t str) -> Front<'p, 't>
    ensures value { front_view result ≡ front (elements_of (chars pattern.entry.text.now)) (chars text.now) }
    ensures nearer { IsNearer result pattern.entry.text.now text.now }
{
    let mut pattern = pattern;
    let mut left = text;
    'elements: loop {
        let Some((element, behind)) = first_element(pattern) else {
            return front_at_end(left);
        };
        if matches!(element, Element::Run) {
            return Front::Star(behind, left);
        }
        let Some((c, rest)) = split_first_char(left) else {
            return Front::Fails;
        };
        if !takes(&element, c) {
            return Front::Fails;
        }
        pattern = behind;
        left = rest;
    }
}

fn front_at_end<'p, 't>(text: &'t str) -> Front<'p, 't>
    ensures value { front_view result ≡ front [] (chars text.now) }
    ensures nearer { (p : List ℕ) → IsNearer result p text.now }
{
    match split_first_char(text) {
        None => Front::Whole,
        Some(_) => Front::Fails,
    }
}

/// How far the pattern and the first end of the text that begins as the pattern does go together.
fn first_place<'p, 't>(pattern: GlobEnd<'p>, text: &'t str) -> Front<'p, 't>
    ensures value { said (front_view result) ≡ any_tail (covers (elements_of (chars pattern.entry.text.now))) (chars text.now) }
    ensures nearer { IsNearer result pattern.entry.text.now text.now }
{
    let letters = literal_front(pattern.text, pattern.is_open);
    let mut left = text;
    'starts: loop {
        let Some(start) = from_literal(letters, left) else {
            return Front::Fails;
        };
        match front_of(pattern, start) {
            Front::Whole => return Front::Whole,
            Front::Star(behind, rest) => return Front::Star(behind, rest),
            Front::Fails => {
                let Some((_, rest)) = split_first_char(start) else {
                    return Front::Fails;
                };
                left = rest;
            }
        }
    }
}

/// Whether the pattern, which stands for so many characters, stands for some end of the text.
fn covers_end(pattern: GlobEnd<'_>, count: usize, text: &str) -> bool
    requires { characters (elements_of (chars pattern.text.now)) ≡ Some count }
    ensures { result ≡ any_tail (covers (elements_of (chars pattern.entry.text.now))) (chars text.now) }
{
    let Some(end) = end_of(text, count) else {
        return false;
    };
    match front_of(pattern, end) {
        Front::Whole => true,
        Front::Star(_, _) => false,
        Front::Fails => false,
    }
}

/// Whether the pattern stands for some end of the text.
fn covers_some_end(pattern: GlobEnd<'_>, text: &str) -> bool
    ensures { result ≡ any_tail (covers (elements_of (chars pattern.entry.text.now))) (chars text.now) }
{
    let mut pattern = pattern;
    let mut left = text;
    'stars: loop {
        if let Some(count) = characters_of(pattern) {
            return covers_end(pattern, count, left);
        }
        match first_place(pattern.looked_through(), left) {
            Front::Whole => return true,
            Front::Star(behind, rest) => {
                pattern = behind;
                left = rest;
            }
            Front::Fails => return false,
        }
    }
}

fn covers_whole(pattern: &str, text: &str) -> bool
    ensures { result ≡ covers (elements_of (chars pattern.now)) (chars text.now) }
{
    let whole = GlobEnd::new(pattern);
    match front_of(whole, text) {
        Front::Whole => true,
        Front::Star(behind, rest) => covers_some_end(behind, rest),
        Front::Fails => false,
    }
}

/// Whether a shell pattern stands for the whole text, character by character and with case.
///
/// `*` stands for any run of characters, `?` for any one, `\c` for the character c, and a last `\` for itself. `[` begins
/// a class of characters and of ranges `a-b`, which ends at the next `]`; a first `^` or `!` negates it, and a `]` that
/// stands first is a member. A `[` without its end, and every other character, stands for itself. It takes no memory.
///
/// What stands behind the last `*` is tried at one place alone, and between two `*` characters that stand for themselves,
/// a `[` without its end among them, are looked for as one text; for these the time grows as the two lengths do. A class or
/// a `?` between two `*` may be tried at each place of the text, so that the time grows as the product of the two lengths.
/// Behind each `*` what is left of a pattern that may still have classes is looked through once, so that the pattern's own
/// length may count squared.
#[tactic(auto, unfolding(crate::specs::GlobReading::is_globbed))]
pub fn glob_matches(pattern: &str, text: &str) -> bool
    ensures value { result ≡ is_globbed pattern.now text.now }
    ensures cut { IsTrue result ↔ Glob pattern.now text.now }
{
    covers_whole(pattern, text)
}
