//! The characters of a class.

ghost use Rattle.std.specs.Prelude.{◌≡◌, ◌∷◌, ◌<◌, ◌≤◌, [], List, Option, length, IfSome, MatchOption};
ghost use Rattle.std.specs.Option.{option_map};
ghost use Rattle.std.specs.Str.{chars};
ghost use Rattle.shell_pattern.specs.GlobReading.{reading_view, letter_at, escaped_at, IsShorter};

/// The first character of a text, and what follows it.
pub(crate) fn split_first_char(text: &str) -> Option<(char, &str)>
    ensures { MatchOption result (chars text.now ≡ []) (λ (c, rest). (chars text.now ≡ c ∷ chars rest.now) × (length rest.now < length text.now)) }
{
    let mut chars = text.chars();
    match chars.next() {
        Some(c) => Some((c, chars.as_str())),
        None => None,
    }
}

/// A character of a class, and whether a backslash stands before it.
#[derive(Clone, Copy, Debug)]
pub(crate) struct Letter {
    pub(crate) character: char,
    pub(crate) escaped: bool,
}

/// What stands where the next character of a class is looked for, and what follows it.
#[derive(Drop)]
pub(crate) enum Reading<'p> {
    Letter(Letter, &'p str),
    End(&'p str),
    Missing,
}

fn escaped_letter(text: &str) -> Reading<'_>
    ensures value { reading_view result ≡ escaped_at (chars text.now) }
    ensures shorter { IsShorter result text.now }
{
    match split_first_char(text) {
        None => Reading::Missing,
        Some((character, rest)) => Reading::Letter(
            Letter {
                character,
                escaped: true,
            },
            rest,
        ),
    }
}

/// Reads a character of a class. A `]` that stands first is a member.
pub(crate) fn next_letter(first: bool, text: &str) -> Reading<'_>
    ensures value { reading_view result ≡ letter_at first (chars text.now) }
    ensures shorter { IsShorter result text.now }
{
    match split_first_char(text) {
        None => Reading::Missing,
        Some((character, rest)) => {
            if character == '\\' {
                return escaped_letter(rest);
            }
            if character == ']' && !first {
                return Reading::End(rest);
            }
            Reading::Letter(
                Letter {
                    character,
                    escaped: false,
                },
                rest,
            )
        }
    }
}
