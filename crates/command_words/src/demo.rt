//! The demonstration: the commands that `demo` stands for.
ghost use Rattle.std.specs.Prelude.{◌≡◌, true, Some, IfOk, IfErr, map};
ghost use Rattle.command_words.specs.Commands.{is_from_to, is_demo_number, demonstration, demo_place, rest_of, cut, listed};
ghost use Rattle.command_words.specs.declared.fault.WordFault.TheVariants.{OutOfMemory};
ghost use Rattle.command_value.specs.Plain.{plain};

use crate::fault::WordFault;
use crate::list::read_list;
use command_value::Command;
use control_stanza::Text;
use std::alloc::{AllocError, Global};

/// The demonstration, as it would be written after `task run`.
static DEMONSTRATION: [&str; 50] = [
    "mirror",
    "create",
    "demo",
    "made",
    "demo",
    "main,",
    "mirror",
    "update",
    "demo,",
    "snapshot",
    "create",
    "demo-all",
    "from",
    "mirror",
    "demo,",
    "snapshot",
    "filter",
    "-with-deps",
    "demo-all",
    "demo-some",
    "pkg99,",
    "snapshot",
    "pull",
    "demo-some",
    "demo-all",
    "demo-pulled",
    "Name (% pkg1??),",
    "publish",
    "snapshot",
    "-distribution=demo",
    "demo-all",
    "demo,",
    "publish",
    "switch",
    "demo",
    "demo",
    "demo-pulled,",
    "publish",
    "switch",
    "demo",
    "demo",
    "demo-some,",
    "snapshot",
    "drop",
    "demo-all,",
    "mirror",
    "drop",
    "demo,",
    "db",
    "cleanup",
];

#[tactic(auto, unfolding(command_table::specs::Table::table, crate::specs::Spelled::row_begins, crate::specs::Spelled::row_ends, crate::specs::Spelled::command_of, command_table::specs::Flags::flag_stands))]
fn written_demonstration() -> &'static [&'static str]
    ensures { listed (cut 2 (map (λ w. w.now) result.now)) ≡ Some demonstration }
{
    &DEMONSTRATION
}

fn copied(alloc: Global, words: &[&str]) -> Result<Vec<Text>, AllocError>
    ensures { IfOk result (λ texts. texts.items ≡ map (λ w. w.now) words.now) }
{
    let mut texts = Vec::new(alloc);
    for word in words {
        texts.push(Text::new(alloc, word)?)?;
    }
    Ok(texts)
}

/// The commands of the demonstration. Fails only for want of memory.
pub fn read_demonstration(alloc: Global) -> Result<Vec<Command>, WordFault>
    ensures read { IfOk result (λ commands. map plain commands.items ≡ demonstration) }
    ensures fault { IfErr result (λ fault. fault ≡ OutOfMemory) }
{
    let words = copied(alloc, written_demonstration())?;
    read_list(alloc, words.as_slice())
}

fn is_digit_from(low: u8, c: u8) -> bool
    ensures { result ≡ is_from_to low 57 c }
{
    low <= c && c <= b'9'
}

/// Whether the word is a number from 2 to 200, decimal, without leading zeros.
fn is_demo_number(word: &str) -> bool
    ensures { result ≡ is_demo_number word.now }
{
    match word.as_bytes() {
        [a] => is_digit_from(b'2', *a),
        [a, b] => is_digit_from(b'1', *a) && is_digit_from(b'0', *b),
        [a, b, c] => {
            (*a == b'1' && is_digit_from(b'0', *b) && is_digit_from(b'0', *c))
                || (*a == b'2' && *b == b'0' && *c == b'0')
        }
        _ => false,
    }
}

/// Where words that begin with `demo` are at fault.
pub fn demo_fault(words: &[Text]) -> Option<u64>
    ensures { result ≡ demo_place (rest_of words.now) }
{
    match words {
        [_, number] if is_demo_number(number.as_str()) => None,
        [_, number, _, ..] if is_demo_number(number.as_str()) => Some(2),
        _ => Some(1),
    }
}
