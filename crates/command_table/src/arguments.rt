//! The arguments of a command.
ghost use Rattle.std.specs.Prelude.{◌≡◌, ◌+◌, ◌<◌, ◌^◌, ◌≤◌, true, nat_le, not, length};
ghost use Rattle.command_table.specs.Arguments.{is_onto_itself, is_source_kind, begins_origin, ends_origin, arguments_begin, arguments_end, Judges};

use crate::table::Arguments;
use control_stanza::Text;

/// Wants so many words or more.
fn at_least(low: usize, words: &[Text]) -> Option<usize>
    ensures { Judges (λ _. true) (λ w. nat_le low (length w)) words.now result }
{
    if words.len() < low {
        Some(words.len())
    } else {
        None
    }
}

/// Wants from so many words up to so many.
fn between(low: usize, high: usize, words: &[Text]) -> Option<usize>
    ensures { Judges (λ w. nat_le (length w) high) (λ w. nat_le low (length w)) words.now result }
{
    if words.len() > high {
        Some(high)
    } else if words.len() < low {
        Some(words.len())
    } else {
        None
    }
}

/// Wants three words or more, of which the second isn't the first.
fn apart(words: &[Text]) -> Option<usize>
    ensures { Judges (λ w. not (is_onto_itself w)) (λ w. nat_le 3 (length w)) words.now result }
{
    match words {
        [source, destination, ..] if source.as_str() == destination.as_str() => Some(1),
        _ => at_least(3, words),
    }
}

fn is_source_kind(word: &str) -> bool
    ensures { result ≡ is_source_kind word.now }
{
    word == "mirror" || word == "repo"
}

/// Wants a name and `empty`, or a name, `from`, a kind of source and its name.
fn origin(words: &[Text]) -> Option<usize>
    ensures { Judges begins_origin ends_origin words.now result }
{
    match words {
        [_, word] if word.as_str() == "empty" => None,
        [_, word, ..] if word.as_str() == "empty" => Some(2),
        [_, word, ..] if word.as_str() != "from" => Some(1),
        [_, _, kind, ..] if !is_source_kind(kind.as_str()) => Some(2),
        _ => between(4, 4, words),
    }
}

/// The first of the arguments that can't stand, or the place after the last where some are missing.
/// There are so many components.
pub fn arguments_fault(form: Arguments, components: usize, words: &[Text]) -> Option<usize>
    requires { components < 2 ^ 63 }
    ensures { Judges (arguments_begin form components) (arguments_end form components) words.now result }
{
    match form {
        Arguments::Between(low, high) => between(low, high, words),
        Arguments::AtLeast(low) => at_least(low, words),
        Arguments::Apart => apart(words),
        Arguments::Origin => origin(words),
        Arguments::Sources => between(components, components + 1, words),
        Arguments::Switched => between(components + 1, components + 2, words),
    }
}
