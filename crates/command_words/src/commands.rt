//! The commands that a command line spells.
ghost use Rattle.std.specs.Prelude.{◌≡◌, true, false, None, Some, IfOk, IfErr, map, codes};
ghost use Rattle.std.specs.Option.{option_copied};
ghost use Rattle.command_words.specs.Commands.{after_task_run, is_first, commands, IsUsagePlace};
ghost use Rattle.command_words.specs.Fault.{IsAt};
ghost use Rattle.command_value.specs.Plain.{plain};

use crate::demo::{demo_fault, read_demonstration};
use crate::fault::WordFault;
use crate::list::read_list;
use crate::read::read_command;
use crate::words::Words;
use command_value::Command;
use control_stanza::Text;
use std::alloc::Global;

/// The words of a list, after `task run`.
fn after_task_run(words: &[Text]) -> Option<&[Text]>
    ensures { option_copied result ≡ after_task_run words.now }
{
    match words {
        [first, second, rest @ ..] if first.as_str() == "task" && second.as_str() == "run" => {
            Some(rest)
        }
        _ => None,
    }
}

fn is_first(words: &[Text], word: &str) -> bool
    ensures { result ≡ is_first word.now words.now }
{
    match words {
        [first, ..] => first.as_str() == word,
        [] => false,
    }
}

/// The one command that the words spell.
fn read_one(alloc: Global, words: &[Text]) -> Result<Vec<Command>, WordFault>
    requires no_task { is_first (codes "task") words.now ≡ false }
    requires no_demo { is_first (codes "demo") words.now ≡ false }
    ensures read { IfOk result (λ cs. commands words.now ≡ Some (map plain cs.items)) }
    ensures fault { IfErr result (IsAt (IsUsagePlace words.now)) }
{
    let command = read_command(alloc, words)?;
    let mut one = Vec::new(alloc);
    one.push(command)?;
    Ok(one)
}

/// The commands of `demo` and a number from 2 to 200.
fn read_demo(alloc: Global, words: &[Text]) -> Result<Vec<Command>, WordFault>
    requires { is_first (codes "demo") words.now ≡ true }
    ensures read { IfOk result (λ cs. commands words.now ≡ Some (map plain cs.items)) }
    ensures fault { IfErr result (IsAt (IsUsagePlace words.now)) }
{
    match demo_fault(words) {
        Some(place) => Err(WordFault::At { place }),
        None => read_demonstration(alloc),
    }
}

/// The commands of words that are no list.
fn read_no_list(alloc: Global, words: &[Text]) -> Result<Vec<Command>, WordFault>
    requires { after_task_run words.now ≡ None }
    ensures read { IfOk result (λ cs. commands words.now ≡ Some (map plain cs.items)) }
    ensures fault { IfErr result (IsAt (IsUsagePlace words.now)) }
{
    if is_first(words, "task") {
        return Err(WordFault::At { place: 1 });
    }
    if is_first(words, "demo") {
        return read_demo(alloc, words);
    }
    read_one(alloc, words)
}

/// The commands that the words spell: those of a list after `task run`, which commas part and of
/// which there are at most 1,000; the eleven that `demo` and a number from 2 to 200 stand for; or one,
/// of a group, a verb, flags and arguments.
///
/// Fails with `At` exactly where the words spell no commands. The place is the index, from 0 in all
/// words, of the first word of the command at fault with whose words up to there no readable command
/// begins, else the index after that command's last word.
pub fn read_words(alloc: Global, words: &Words) -> Result<Vec<Command>, WordFault>
    ensures read { IfOk result (λ cs. commands words.now ≡ Some (map plain cs.items)) }
    ensures fault { IfErr result (IsAt (IsUsagePlace words.now)) }
{
    let all = words.as_slice();
    match after_task_run(all) {
        Some(rest) => read_list(alloc, rest),
        None => read_no_list(alloc, all),
    }
}
