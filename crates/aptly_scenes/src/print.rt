//! What is printed of calls, operations and files.
use crate::call::Call;
use ap_host::{Bytes, Op};
use ap_text::{SafePath, write_decimal};
use aptly_core::{Damage, Status};
use sha2::{Digest, Sha256};
use std::alloc::{AllocError, Global};

/// Adds these texts behind each other.
pub(crate) fn put_all(out: &mut Vec<u8>, parts: &[&str]) -> Result<(), AllocError> {
    for part in parts {
        put(out, part)?;
    }
    Ok(())
}

/// Adds text.
pub(crate) fn put(out: &mut Vec<u8>, text: &str) -> Result<(), AllocError> {
    out.extend_from_slice(text.as_bytes())?;
    Ok(())
}

/// Adds bytes, and an LF where they don't end with one.
fn put_whole(out: &mut Vec<u8>, bytes: &[u8]) -> Result<(), AllocError> {
    out.extend_from_slice(bytes)?;
    if !bytes.ends_with(b"\n") {
        put(out, "\n")?;
    }
    Ok(())
}

/// Adds a blank and a number.
fn put_number(out: &mut Vec<u8>, number: u64) -> Result<(), AllocError> {
    put(out, " ")?;
    write_decimal(out, number)
}

/// Adds a blank and a path.
fn put_path(out: &mut Vec<u8>, path: &SafePath) -> Result<(), AllocError> {
    put(out, " ")?;
    put(out, path.as_str())
}

/// Adds a blank and a digest.
fn put_digest(alloc: Global, out: &mut Vec<u8>, digest: &[u8; 32]) -> Result<(), AllocError> {
    put(out, " ")?;
    put(out, hex::encode(alloc, digest)?.as_str())
}

/// Adds what is damaged.
fn put_damage(alloc: Global, out: &mut Vec<u8>, damage: &Damage) -> Result<(), AllocError> {
    match damage {
        Damage::Missing { path } => {
            put(out, " missing")?;
            put_path(out, path)
        }
        Damage::Size { path, said, found } => {
            put(out, " length")?;
            put_path(out, path)?;
            put_number(out, *said)?;
            put_number(out, *found)
        }
        Damage::Digest { path, said, found } => {
            put(out, " digest")?;
            put_path(out, path)?;
            put_digest(alloc, out, said)?;
            put_digest(alloc, out, found)
        }
        Damage::Unreadable { path, line } => {
            put(out, " unreadable")?;
            put_path(out, path)?;
            put_number(out, *line)
        }
    }
}

/// Adds the line of a status.
fn put_status(alloc: Global, out: &mut Vec<u8>, status: &Status) -> Result<(), AllocError> {
    put(out, "=")?;
    put_number(out, u64::from(status.code()))?;
    match status {
        Status::Usage(place) => put_number(out, *place)?,
        Status::Damaged(damage) => put_damage(alloc, out, damage)?,
        _ => {}
    }
    put(out, "\n")
}

/// Adds what was said, and an LF where it has something and doesn't end with one.
fn put_said(alloc: Global, out: &mut Vec<u8>, call: &Call) -> Result<(), AllocError> {
    let said = call.said(alloc)?;
    if said.is_empty() {
        return Ok(());
    }
    put_whole(out, &said)
}

/// Adds the words of a call as they are shown, what was said and the status.
pub(crate) fn put_call(
    alloc: Global,
    out: &mut Vec<u8>,
    shown: &str,
    call: &Call,
) -> Result<(), AllocError> {
    put_all(out, &["> ", shown, "\n"])?;
    put_said(alloc, out, call)?;
    put_status(alloc, out, &call.status)
}

/// Adds the lines of what was said as one line, without its last LF.
fn put_flat(out: &mut Vec<u8>, said: &[u8]) -> Result<(), AllocError> {
    for byte in said.strip_suffix(b"\n").unwrap_or(said) {
        match byte {
            b'\n' => put(out, " | ")?,
            other => out.push(*other)?,
        }
    }
    Ok(())
}

/// Adds the status and what was said, in one line.
pub(crate) fn put_short(alloc: Global, out: &mut Vec<u8>, call: &Call) -> Result<(), AllocError> {
    write_decimal(out, u64::from(call.status.code()))?;
    put(out, " ")?;
    let said = call.said(alloc)?;
    put_flat(out, &said)
}

/// Adds the line of an operation.
pub(crate) fn put_op(out: &mut Vec<u8>, op: &Op) -> Result<(), AllocError> {
    match op {
        Op::Claim(true) => put(out, "claim yes")?,
        Op::Claim(false) => put(out, "claim no")?,
        Op::Barrier => put(out, "barrier")?,
        Op::Create(path) => put_all(out, &["create ", path.as_str()])?,
        Op::Append(path, bytes) => {
            put_all(out, &["append ", path.as_str()])?;
            put_number(out, bytes.len() as u64)?;
        }
        Op::Sync(path) => put_all(out, &["sync ", path.as_str()])?,
        Op::Rename(from, to) => put_all(out, &["rename ", from.as_str(), " ", to.as_str()])?,
        Op::Remove(path) => put_all(out, &["remove ", path.as_str()])?,
        Op::Say(bytes) => {
            put(out, "say")?;
            put_number(out, bytes.len() as u64)?;
        }
    }
    put(out, "\n")
}

/// Adds the line of a file: its path, its length in bytes and its SHA-256.
pub(crate) fn put_file(
    alloc: Global,
    out: &mut Vec<u8>,
    path: &SafePath,
    bytes: &Bytes,
) -> Result<(), AllocError> {
    let mut hasher = Sha256::new();
    hasher.update(bytes.as_slice());
    let digest = hasher.finalize();
    put(out, path.as_str())?;
    put_number(out, bytes.len() as u64)?;
    put(out, " ")?;
    put(out, hex::encode(alloc, &digest)?.as_str())?;
    put(out, "\n")
}

/// Adds a file's bytes, or that it is absent, and the line `.`.
pub(crate) fn put_bytes(out: &mut Vec<u8>, bytes: Option<&[u8]>) -> Result<(), AllocError> {
    match bytes {
        None => put(out, "absent\n")?,
        Some(bytes) => put_whole(out, bytes)?,
    }
    put(out, ".\n")
}
