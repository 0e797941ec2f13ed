//! Calls of hash_pool over a store in memory.
ghost use Rattle.std.specs.Prelude.{None};

use ap_host::{Bytes, Inbox, InboxErr, MemHost};
use ap_text::SafePath;
use digest_set::{Said, digests_of};
use hash_pool::{get, has, length, pool_path, take};
use row_answers::reply;
use row_table::{Desk, Stop, number_of, put, put_at, yes_or_no};
use stage_file::Stage;
use std::alloc::AllocError;

pub fn play(desk: &Desk, out: &mut String, call: &str, rest: &str) -> Result<(), Stop> {
    match call {
        "get" => given(desk, out, rest),
        "hollow" => take_hollow(desk, out, rest),
        _ => Err(Stop::NoCall),
    }
}

/// A store whose pool has these bytes.
fn store_of(desk: &Desk, sha256: &[u8; 32], bytes: &[u8]) -> Result<MemHost, AllocError> {
    let mut files = Vec::new(desk.alloc);
    files.push((
        pool_path(desk.alloc, sha256)?,
        Bytes::new(desk.alloc, bytes)?,
    ))?;
    MemHost::new(desk.alloc, files, Vec::new(desk.alloc), false)
}

fn put_path(out: &mut String, sha256: &[u8; 32]) -> Result<(), AllocError> {
    let path = pool_path(*out.allocator(), sha256)?;
    out.push_str(path.as_str())
}

/// Whether a file and another one are there, and the length of the first.
fn put_there(out: &mut String, host: &mut MemHost, sha256: &[u8; 32]) -> Result<(), AllocError> {
    let own = has(*out.allocator(), host, sha256).unwrap_or(false);
    let other = has(*out.allocator(), host, &[0; 32]).unwrap_or(true);
    put(out, &[" ", yes_or_no(own), " ", yes_or_no(other)])?;
    match length(*out.allocator(), host, sha256) {
        Ok(Some(length)) => put_at(out, " ", length),
        _ => Ok(()),
    }
}

/// Whether these bytes are given.
fn put_given(
    out: &mut String,
    host: &mut MemHost,
    sha256: &[u8; 32],
    bytes: &[u8],
) -> Result<(), AllocError> {
    match get(*out.allocator(), host, sha256) {
        Ok(Some(found)) => put(out, &[" ", yes_or_no(found.as_slice() == bytes)]),
        _ => Ok(()),
    }
}

/// The path of a file of the pool, whether it and another one are there, its length and its bytes.
fn put_pool(
    out: &mut String,
    host: &mut MemHost,
    sha256: &[u8; 32],
    bytes: &[u8],
) -> Result<(), AllocError> {
    put_path(out, sha256)?;
    put_there(out, host, sha256)?;
    put_given(out, host, sha256, bytes)
}

/// The same of a store whose pool has this text.
fn given(desk: &Desk, out: &mut String, rest: &str) -> Result<(), Stop> {
    let bytes = desk.bytes(rest)?;
    let sha256 = digests_of(&bytes).sha256;
    let mut host = store_of(desk, &sha256, &bytes)?;
    let done = put_pool(out, &mut host, &sha256, &bytes);
    drop(host);
    Ok(done?)
}

/// An inbox whose files have a length and give no byte.
#[derive(Drop)]
struct Hollow {
    length: u64,
}

impl Inbox for Hollow {
    ghost map = { λ _. None };

    ghost faults = { λ _. 0 };

    fn length(&mut self, _path: &SafePath) -> Result<Option<u64>, InboxErr> {
        Ok(Some(self.length))
    }

    fn read_at(&mut self, _path: &SafePath, _at: u64, _out: &mut [u8]) -> Result<usize, InboxErr> {
        Ok(0)
    }
}

/// What is told of such a file, and how many operations the store then had.
fn put_hollow(
    out: &mut String,
    host: &mut MemHost,
    path: &SafePath,
    size: u64,
) -> Result<(), Stop> {
    let alloc = *out.allocator();
    let mut inbox = Hollow { length: size };
    let mut stage = Stage::new(alloc);
    let said = Said {
        size,
        sha256: [0; 32],
        sha1: None,
        md5: None,
    };
    if let Err(fault) = take(alloc, host, &mut stage, &mut inbox, path, &said) {
        reply(out, fault)?;
    }
    Ok(put_at(out, ", operations ", host.log().len() as u64)?)
}

/// A file that has the stated length and gives no byte, taken into an empty store.
fn take_hollow(desk: &Desk, out: &mut String, rest: &str) -> Result<(), Stop> {
    let size = number_of(rest)?;
    let path = desk.path("in/file")?;
    let mut host = MemHost::new(
        desk.alloc,
        Vec::new(desk.alloc),
        Vec::new(desk.alloc),
        false,
    )?;
    let done = put_hollow(out, &mut host, &path, size);
    drop(host);
    done
}
