//! Classes of characters.

ghost use Rattle.std.specs.Prelude.{◌≡◌, ◌≤◌, ◌∷◌, [], List, true, length, IfSome};
ghost use Rattle.std.specs.Option.{option_map};
ghost use Rattle.std.specs.Str.{chars};
ghost use Rattle.shell_pattern.specs.Glob.{class_end, class_letters, is_in, is_dash as dash, is_between as between};
ghost use Rattle.shell_pattern.specs.GlobReading.{held_letters, is_in_after};
ghost use Rattle.shell_pattern.specs.declared.letter.Letter.{Letter};

use crate::letter::{Letter, Reading, next_letter};

/// What follows the class that begins with this text, or goes on with it, behind its `]`.
#[tactic(auto, using(crate::proofs::ClassFacts::end_step))]
pub(crate) fn behind_class(begins: bool, text: &str) -> Option<&str>
    ensures value { option_map (λ rest. chars rest.now) result ≡ class_end begins (chars text.now) }
    ensures shorter { IfSome result (λ rest. length rest.now ≤ length text.now) }
{
    let mut first = begins;
    let mut left = text;
    'letters: loop {
        match next_letter(first, left) {
            Reading::Missing => return None,
            Reading::End(rest) => return Some(rest),
            Reading::Letter(_, rest) => {
                left = rest;
                first = false;
            }
        }
    }
}

/// The letters that were read and not yet judged: none, one, or one and a `-` behind it.
#[derive(Clone, Copy, Debug)]
pub(crate) enum Held {
    Nothing,
    One(Letter),
    Dash(Letter),
}

fn is_dash(letter: Letter) -> bool
    ensures { result ≡ dash letter }
{
    letter.character == '-' && !letter.escaped
}

fn is_between(first: char, last: char, c: char) -> bool
    ensures { result ≡ between first last c }
{
    first <= c && c <= last
}

fn after_one(one: Letter, letter: Letter, c: char) -> Option<Held>
    ensures { (ls : List Letter) → is_in_after result ls c ≡ is_in (one ∷ letter ∷ ls) c }
{
    if is_dash(letter) {
        return Some(Held::Dash(one));
    }
    if c == one.character {
        return None;
    }
    Some(Held::One(letter))
}

fn after_dash(one: Letter, letter: Letter, c: char) -> Option<Held>
    ensures { (ls : List Letter) → is_in_after result ls c ≡ is_in (held_letters (Held.Dash one) (letter ∷ ls)) c }
{
    if is_between(one.character, letter.character, c) {
        return None;
    }
    Some(Held::Nothing)
}

/// What is held behind one more letter, or none once the character is found.
fn after_letter(held: Held, letter: Letter, c: char) -> Option<Held>
    ensures { (ls : List Letter) → is_in_after result ls c ≡ is_in (held_letters held (letter ∷ ls)) c }
{
    match held {
        Held::Nothing => Some(Held::One(letter)),
        Held::One(one) => after_one(one, letter, c),
        Held::Dash(one) => after_dash(one, letter, c),
    }
}

fn is_in_held(held: Held, c: char) -> bool
    ensures { result ≡ is_in (held_letters held []) c }
{
    match held {
        Held::Nothing => false,
        Held::One(one) => c == one.character,
        Held::Dash(one) => c == one.character || c == '-',
    }
}

/// Whether the character is one of the class that begins with this text.
#[tactic(auto, using(crate::proofs::ClassFacts::letters_step))]
pub(crate) fn is_in_class(text: &str, c: char) -> bool
    ensures { result ≡ is_in (class_letters true (chars text.now)) c }
{
    let mut held = Held::Nothing;
    let mut first = true;
    let mut left = text;
    'letters: loop {
        let Reading::Letter(letter, rest) = next_letter(first, left) else {
            return is_in_held(held, c);
        };
        let Some(next) = after_letter(held, letter, c) else {
            return true;
        };
        held = next;
        left = rest;
        first = false;
    }
}
