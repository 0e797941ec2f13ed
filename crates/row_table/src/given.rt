//! The arguments of a call: words and texts, in which a backslash writes what can't be seen.

use crate::stop::Stop;
use std::alloc::Global;

/// Behind `\(`: a count, `)`, the byte that stands so many times, and the rest.
fn put_repeated(out: &mut Vec<u8>, piece: &str) -> Result<(), Stop> {
    let Some((count, rest)) = piece.split_once(')') else {
        return Err(Stop::NoCall);
    };
    let Some((byte, rest)) = rest.as_bytes().split_first() else {
        return Err(Stop::NoCall);
    };
    let copies = vec![in *out.allocator(); *byte; number_of(count)? as usize]?;
    out.extend_from_slice(&copies)?;
    out.extend_from_slice(rest)?;
    Ok(())
}

/// What stands for a letter behind a backslash.
fn escaped(letter: u8) -> Option<&'static [u8]> {
    match letter {
        b'n' => Some(b"\n"),
        b't' => Some(b"\t"),
        b'r' => Some(b"\r"),
        b's' => Some(b" "),
        b'f' => Some(b"\xff"),
        b'e' => Some(b""),
        _ => None,
    }
}

/// What stands behind a backslash, up to the next one.
fn put_escaped(out: &mut Vec<u8>, piece: &str) -> Result<(), Stop> {
    if let Some(rest) = piece.strip_prefix('(') {
        return put_repeated(out, rest);
    }
    if let Some((letter, rest)) = piece.as_bytes().split_first() {
        if let Some(bytes) = escaped(*letter) {
            out.extend_from_slice(bytes)?;
            out.extend_from_slice(rest)?;
            return Ok(());
        }
    }
    out.push(b'\\')?;
    out.extend_from_slice(piece.as_bytes())?;
    Ok(())
}

/// The bytes that are written so.
pub fn decoded(alloc: Global, raw: &str) -> Result<Vec<u8>, Stop> {
    let mut out = Vec::new(alloc);
    let mut plain = true;
    for piece in raw.split('\\') {
        if plain {
            out.extend_from_slice(piece.as_bytes())?;
        } else {
            put_escaped(&mut out, piece)?;
        }
        plain = !plain && piece.is_empty();
    }
    Ok(out)
}

/// Bytes that have to be a text.
pub fn text_of(bytes: Vec<u8>) -> Result<String, Stop> {
    match String::from_utf8(bytes) {
        Ok(text) => Ok(text),
        Err(_) => Err(Stop::NoCall),
    }
}

/// The number that a word writes.
pub fn number_of(raw: &str) -> Result<u64, Stop> {
    match raw.parse::<u64>() {
        Ok(number) => Ok(number),
        Err(_) => Err(Stop::NoCall),
    }
}

/// The word before the first blank, and what follows.
pub fn first_word(raw: &str) -> Result<(&str, &str), Stop> {
    match raw.split_once(' ') {
        Some(pair) => Ok(pair),
        None => Err(Stop::NoCall),
    }
}

/// The base, where the first place that has the old text has the new one: `old => new`.
fn edited(alloc: Global, base: &str, edit: &str) -> Result<Vec<u8>, Stop> {
    let Some((old, new)) = edit.split_once(" => ") else {
        return Err(Stop::NoCall);
    };
    let old = text_of(decoded(alloc, old)?)?;
    let Some((front, back)) = base.split_once(old.as_str()) else {
        return Err(Stop::NoCall);
    };
    let new = decoded(alloc, new)?;
    let mut out = Vec::from_slice(alloc, front.as_bytes())?;
    out.extend_from_slice(&new)?;
    out.extend_from_slice(back.as_bytes())?;
    Ok(out)
}

/// The bytes of a text, which may be the base, `~`, or the base with an edit.
pub fn bytes_of(alloc: Global, base: &str, raw: &str) -> Result<Vec<u8>, Stop> {
    if raw == "~" {
        return Ok(Vec::from_slice(alloc, base.as_bytes())?);
    }
    match raw.strip_prefix("~ ") {
        Some(edit) => edited(alloc, base, edit),
        None => decoded(alloc, raw),
    }
}
