//! Plays scenes: calls of `aptly` over a store, an inbox and patterns in memory, written as lines of a text on standard
//! input; what happened goes to standard output. This is a program for tests. The program for users is `aptly`.
#![tactic(auto)]

mod arguments;
mod call;
mod directives;
mod files;
mod play;
mod print;
mod rows;
mod sweeps;
mod trouble;
mod words;
mod world;

use play::play;
use std::io;
use std::io::{Read, Write};
use std::process::ExitCode;

/// Reads the scenes, plays them and prints what happened: where memory was wanting, what happened before.
fn run<R: Input + Print + AllocGlobal>(rt: &R) -> io::Result<()> {
    let mut text = Vec::new(rt.alloc());
    let _count = rt.reader().read_to_end(&mut text)?;
    let mut out = Vec::new(rt.alloc());
    let played = play(rt.alloc(), &mut out, &text);
    io::writer(rt).write_all(&out)?;
    played?;
    Ok(())
}

fn main(rt: HostRuntime) -> ExitCode {
    match run(&rt) {
        Ok(()) => ExitCode::from(0),
        Err(_) => ExitCode::from(1),
    }
}
