//! `part_rows`, a test program: a table of calls of single crates on standard input, their answers on standard output.
#![tactic(auto)]

mod digests;
mod indexes;
mod lists;
mod names;
mod packages;
mod pools;
mod queries;
mod refusals;
mod relations;
mod roots;
mod stanzas;
mod truths;
mod versions;
mod words;

use row_table::{Desk, Stop, answered, extend_base, first_word};
use std::alloc::AllocError;
use std::io;

/// Puts the answer of a line that is a call: a topic, a call of it, and its arguments.
fn play(desk: &mut Desk, out: &mut String, line: &str) -> Result<(), Stop> {
    let (topic, rest) = first_word(line)?;
    let (call, rest) = rest.split_once(' ').unwrap_or((rest, ""));
    match topic {
        "name" => names::play_name(desk, out, call, rest),
        "path" => names::play_path(desk, out, call, rest),
        "version" => versions::play(desk, out, call, rest),
        "digest" => digests::play(desk, out, call, rest),
        "stanza" => stanzas::play(desk, out, call, rest),
        "relation" => relations::play(desk, out, call, rest),
        "query" => queries::play(desk, out, call, rest),
        "truth" => truths::play(desk, out, call, rest),
        "package" => packages::play(desk, out, call, rest),
        "pool" => pools::play(desk, out, call, rest),
        "list" => lists::play(desk, out, call, rest),
        "index" => indexes::play(desk, out, call, rest),
        "words" => words::play(desk, out, call, rest),
        "root" => roots::play(desk, out, call, rest),
        "refusal" => refusals::play(desk, out, call, rest),
        _ => Err(Stop::NoCall),
    }
}

/// The answer to a line that is outside a block, in whole lines.
fn answer(desk: &mut Desk, number: u64, line: &str) -> Result<String, AllocError> {
    let mut out = String::new(desk.alloc);
    let played = play(desk, &mut out, line);
    answered(out, number, played)
}

/// Prints the answers to the lines of a table.
fn play_lines(rt: &HostRuntime, desk: &mut Desk, text: &str) -> io::Result<()> {
    let mut number = 0u64;
    let mut open = false;
    for line in text.lines() {
        number = number.saturating_add(1);
        if open {
            open = extend_base(desk, line)?;
        } else if line == "base" {
            desk.base.clear();
            open = true;
        } else if line.starts_with('#') {
            rt.println(line)?;
        } else if !line.is_empty() {
            rt.print(answer(desk, number, line)?.as_str())?;
        }
    }
    Ok(())
}

fn main(rt: HostRuntime) -> io::Result<()> {
    let text = io::read_to_string(rt.alloc(), rt.reader())?;
    let mut desk = Desk::new(rt.alloc());
    let done = play_lines(&rt, &mut desk, text.as_str());
    drop(desk);
    done
}
