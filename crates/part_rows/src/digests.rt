//! Calls of digest_set.

use digest_set::{Digests, Hashing, Said, digest_of_hex, digests_of, mismatch};
use row_answers::{put_digests, put_hexadecimal, reply};
use row_table::{Desk, Stop, first_word, number_of, put, put_at};
use std::alloc::AllocError;

pub fn play(desk: &Desk, out: &mut String, call: &str, rest: &str) -> Result<(), Stop> {
    match call {
        "of" => of(desk, out, rest),
        "pieces" => pieces(desk, out, rest),
        "read" => read(desk, out, rest),
        "differs" => differs(desk, out, rest),
        _ => Err(Stop::NoCall),
    }
}

fn of(desk: &Desk, out: &mut String, rest: &str) -> Result<(), Stop> {
    let bytes = desk.bytes(rest)?;
    Ok(put_digests(out, &digests_of(&bytes))?)
}

/// A size, and digests.
fn put_sized(out: &mut String, size: u64, digests: &Digests) -> Result<(), AllocError> {
    put_at(out, "", size)?;
    put(out, &[" "])?;
    put_digests(out, digests)
}

/// The size of the first of two pieces, and the digests of both, one after the other.
fn put_pieces(out: &mut String, first: &str, second: &str) -> Result<(), Stop> {
    if first.len() > 1000 || second.len() > 1000 {
        return Err(Stop::NoCall);
    }
    let mut hashing = Hashing::new();
    hashing.update(first.as_bytes());
    let size = hashing.size();
    hashing.update(second.as_bytes());
    Ok(put_sized(out, size, &hashing.finish())?)
}

fn pieces(desk: &Desk, out: &mut String, rest: &str) -> Result<(), Stop> {
    let (first, second) = first_word(rest)?;
    let (first, second) = (desk.word(first)?, desk.word(second)?);
    put_pieces(out, first.as_str(), second.as_str())
}

fn put_found<const N: usize>(out: &mut String, found: Option<[u8; N]>) -> Result<(), Stop> {
    match found {
        Some(digest) => put_hexadecimal(out, &digest)?,
        None => out.push_str("none")?,
    }
    Ok(())
}

/// The digest of so many bytes that these digits write.
fn put_read(out: &mut String, size: &str, digits: &str) -> Result<(), Stop> {
    match size {
        "1" => put_found(out, digest_of_hex::<1>(digits)),
        "16" => put_found(out, digest_of_hex::<16>(digits)),
        "20" => put_found(out, digest_of_hex::<20>(digits)),
        "32" => put_found(out, digest_of_hex::<32>(digits)),
        _ => Err(Stop::NoCall),
    }
}

/// How many bytes a digest has, and its digits.
fn read(desk: &Desk, out: &mut String, rest: &str) -> Result<(), Stop> {
    let (size, digits) = first_word(rest)?;
    let digits = desk.word(digits)?;
    put_read(out, size, digits.as_str())
}

fn optional<const N: usize>(text: &str) -> Result<Option<[u8; N]>, Stop> {
    match (text, digest_of_hex::<N>(text)) {
        ("-", _) => Ok(None),
        (_, Some(digest)) => Ok(Some(digest)),
        _ => Err(Stop::NoCall),
    }
}

fn sha256_of(text: &str) -> Result<[u8; 32], Stop> {
    match digest_of_hex::<32>(text) {
        Some(digest) => Ok(digest),
        None => Err(Stop::NoCall),
    }
}

/// What these words say: a size, a SHA-256, and a SHA-1 and an MD5 or `-`.
fn said_by(size: &str, sha256: &str, sha1: &str, md5: &str) -> Result<Said, Stop> {
    Ok(Said {
        size: number_of(size)?,
        sha256: sha256_of(sha256)?,
        sha1: optional::<20>(sha1)?,
        md5: optional::<16>(md5)?,
    })
}

/// What the first four words say, and what follows.
fn said_of(rest: &str) -> Result<(Said, &str), Stop> {
    let (size, rest) = first_word(rest)?;
    let (sha256, rest) = first_word(rest)?;
    let (sha1, rest) = first_word(rest)?;
    let (md5, rest) = first_word(rest)?;
    Ok((said_by(size, sha256, sha1, md5)?, rest))
}

fn differs(desk: &Desk, out: &mut String, rest: &str) -> Result<(), Stop> {
    let (said, rest) = said_of(rest)?;
    let bytes = desk.bytes(rest)?;
    reply(out, mismatch(desk.alloc, &said, &digests_of(&bytes))?)
}
