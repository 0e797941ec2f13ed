//! One command, read from its words.
ghost use Rattle.std.specs.Prelude.{◌≡◌, ◌+◌, ◌<◌, ◌≤◌, Some, IfOk, IfErr, length, if◌then◌else◌};
ghost use Rattle.command_table.specs.Arguments.{Judges};
ghost use Rattle.command_words.specs.Spelled.{flags_of, arguments_of, mark_len, after_flags, row_begins, row_ends, row_spells, spelled};
ghost use Rattle.command_table.specs.Table.{rule, table};
ghost use Rattle.command_words.specs.Fault.{IsAt, IsRowFault, IsCommandFault};
ghost use Rattle.command_value.specs.Plain.{plain};
ghost use Rattle.std.specs.List.{list_any};
ghost use Rattle.std.specs.Str.{bytes_eq};

use crate::build::{command_of, components_len};
use crate::fault::WordFault;
use command_table::{Row, arguments_fault, find_row, flags_len, is_group, standing_flags};
use command_value::Command;
use control_stanza::Text;
use std::alloc::{AllocError, Global};

/// How many of the words are the mark `--` behind the flags.
fn mark_len(words: &[Text]) -> usize
    ensures count { result ≡ mark_len words.now }
    ensures bound { result ≤ length words.now }
{
    match words {
        [word, ..] if word.as_str() == "--" => 1,
        _ => 0,
    }
}

/// The flags among the words after the verb.
pub fn flags_of(words: &[Text]) -> &[Text]
    ensures { result.now ≡ flags_of words.now }
{
    &words[..flags_len(words)]
}

/// The arguments among the words after the verb.
pub fn arguments_of(words: &[Text]) -> &[Text]
    ensures { result.now ≡ arguments_of words.now }
{
    let others = &words[flags_len(words)..];
    &others[mark_len(others)..]
}

/// The first of the words after the verb that can't stand there, or the place after the last where
/// some are missing.
pub fn row_fault(alloc: Global, row: &Row, words: &[Text]) -> Result<Option<usize>, AllocError>
    ensures { IfOk result (Judges (row_begins (rule row.now)) (row_ends (rule row.now)) words.now) }
{
    let flags = flags_of(words);
    let standing = standing_flags(alloc, row, flags)?;
    if standing < flags.len() {
        return Ok(Some(standing));
    }
    let components = components_len(alloc, flags)?;
    let arguments = arguments_of(words);
    match arguments_fault(row.arguments, components, arguments) {
        Some(place) => Ok(Some(words.len() - arguments.len() + place)),
        None => Ok(None),
    }
}

/// The command of this row that the words after its verb spell.
fn read_row(alloc: Global, row: &Row, words: &[Text]) -> Result<Command, WordFault>
    ensures read { IfOk result (λ command. row_spells (rule row.now) words.now ≡ Some (plain command)) }
    ensures fault { IfErr result (IsAt (IsRowFault (rule row.now) words.now)) }
{
    match row_fault(alloc, row, words)? {
        Some(place) => Err(WordFault::At {
            place: place as u64 + 2,
        }),
        None => Ok(command_of(alloc, row.kind, flags_of(words), arguments_of(words))?),
    }
}

/// The place of a first word that is no group, or of the word after it.
fn group_place(group: &str) -> u64
    ensures { result ≡ (if list_any (λ r. bytes_eq r.group group.now) table then 1 else 0) }
{
    if is_group(group) { 1 } else { 0 }
}

/// The command that the words spell.
pub fn read_command(alloc: Global, words: &[Text]) -> Result<Command, WordFault>
    ensures read { IfOk result (λ command. spelled words.now ≡ Some (plain command)) }
    ensures fault { IfErr result (IsAt (IsCommandFault words.now)) }
{
    match words {
        [] => Err(WordFault::At { place: 0 }),
        [group] => Err(WordFault::At {
            place: group_place(group.as_str()),
        }),
        [group, verb, others @ ..] => match find_row(group.as_str(), verb.as_str()) {
            Some(row) => read_row(alloc, row, others),
            None => Err(WordFault::At {
                place: group_place(group.as_str()),
            }),
        },
    }
}
