//! Calls of control_stanza.

use control_stanza::{Stanza, StanzaFault, read_stanzas, read_stored};
use row_answers::{Answer, put_stanza, put_stanzas, reply};
use row_table::{Desk, Stop, first_word, put, put_at};
use std::alloc::AllocError;

pub fn play(desk: &Desk, out: &mut String, call: &str, rest: &str) -> Result<(), Stop> {
    match call {
        "read" => read(desk, out, rest),
        "stored" => stored(desk, out, rest),
        "count" => count(desk, out, rest),
        "get" => get(desk, out, rest),
        "without" => without(desk, out, rest),
        _ => Err(Stop::NoCall),
    }
}

type Read = Result<Vec<(u64, Stanza)>, StanzaFault>;

/// How many stanzas there are, and each of them.
fn put_found(out: &mut String, found: &Vec<(u64, Stanza)>) -> Result<(), Stop> {
    found.put(out)?;
    put_stanzas(out, found)
}

/// How many stanzas there are, and each of them, or the fault.
fn put_read(out: &mut String, read: Read) -> Result<(), Stop> {
    match read {
        Ok(found) => {
            let done = put_found(out, &found);
            drop(found);
            done
        }
        Err(fault) => reply(out, fault),
    }
}

fn read(desk: &Desk, out: &mut String, rest: &str) -> Result<(), Stop> {
    let bytes = desk.bytes(rest)?;
    put_read(out, read_stanzas(desk.alloc, &bytes))
}

fn stored(desk: &Desk, out: &mut String, rest: &str) -> Result<(), Stop> {
    let bytes = desk.bytes(rest)?;
    put_read(out, read_stored(desk.alloc, &bytes))
}

/// What either reader answers, without the stanzas.
fn put_counts(out: &mut String, bytes: &[u8]) -> Result<(), Stop> {
    reply(out, read_stanzas(*out.allocator(), bytes))?;
    put(out, &["; "])?;
    reply(out, read_stored(*out.allocator(), bytes))
}

fn count(desk: &Desk, out: &mut String, rest: &str) -> Result<(), Stop> {
    let bytes = desk.bytes(rest)?;
    put_counts(out, &bytes)
}

/// The last stanza of a text that has to be readable.
pub fn last_stanza(desk: &Desk, rest: &str) -> Result<Stanza, Stop> {
    let Ok(mut found) = read_stanzas(desk.alloc, &desk.bytes(rest)?) else {
        return Err(Stop::NoCall);
    };
    match found.pop() {
        Some((_, stanza)) => Ok(stanza),
        None => Err(Stop::NoCall),
    }
}

/// How many fields a stanza has, and the value of one of them.
fn put_value(out: &mut String, stanza: &Stanza, name: &str) -> Result<(), AllocError> {
    put_at(out, "of ", stanza.fields().len() as u64)?;
    match stanza.get(name) {
        Some(value) => put(out, &[": ", value]),
        None => Ok(()),
    }
}

/// The value of a field of the last stanza, and how many fields that has.
fn get(desk: &Desk, out: &mut String, rest: &str) -> Result<(), Stop> {
    let (name, rest) = first_word(rest)?;
    let name = desk.word(name)?;
    let stanza = last_stanza(desk, rest)?;
    let done = put_value(out, &stanza, name.as_str());
    drop(stanza);
    Ok(done?)
}

/// A stanza's text, as a copy has it.
fn put_copy(out: &mut String, stanza: &Stanza) -> Result<(), Stop> {
    let copy = stanza.copy(*out.allocator())?;
    let done = put_stanza(out, &copy);
    drop(copy);
    done
}

/// The last stanza without a field.
fn without(desk: &Desk, out: &mut String, rest: &str) -> Result<(), Stop> {
    let (name, rest) = first_word(rest)?;
    let name = desk.word(name)?;
    let mut stanza = last_stanza(desk, rest)?;
    stanza.remove(name.as_str());
    let done = put_copy(out, &stanza);
    drop(stanza);
    done
}
