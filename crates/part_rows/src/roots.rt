//! Calls of catalogue_text.

use catalogue_text::{read_root, root_text};
use machine_state::State;
use row_answers::{put_state, reply};
use row_table::{Desk, Stop};
use std::alloc::AllocError;

/// What a state has, and whether its text is this one.
fn put_read(out: &mut String, state: &State, text: &[u8]) -> Result<(), AllocError> {
    put_state(out, state)?;
    let again = root_text(*out.allocator(), state)?;
    if again.as_str().as_bytes() != text {
        out.push_str(", written otherwise")?;
    }
    Ok(())
}

/// The same of a copy of the state.
fn put_copy(out: &mut String, state: &State, text: &[u8]) -> Result<(), AllocError> {
    let copy = state.copy(*out.allocator())?;
    let done = put_read(out, &copy, text);
    drop(copy);
    done
}

/// What the text of a root holds, or the line of its fault.
fn read(out: &mut String, text: &[u8]) -> Result<(), Stop> {
    match read_root(*out.allocator(), text) {
        Ok(state) => {
            let done = put_copy(out, &state, text);
            drop(state);
            Ok(done?)
        }
        Err(fault) => reply(out, fault),
    }
}

pub fn play(desk: &Desk, out: &mut String, call: &str, rest: &str) -> Result<(), Stop> {
    let "read" = call else {
        return Err(Stop::NoCall);
    };
    let bytes = desk.bytes(rest)?;
    read(out, &bytes)
}
