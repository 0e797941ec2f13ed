//! Digests, and how they differ.

use crate::answers::Answer;
use digest_set::{Digests, Digits, What};
use row_table::{put, put_at};
use std::alloc::AllocError;

/// Puts the digits of bytes, behind a blank.
pub fn put_hexadecimal(out: &mut String, bytes: &[u8]) -> Result<(), AllocError> {
    let digits = Digits::hexadecimal(*out.allocator(), bytes)?;
    put(out, &[" ", digits.as_str()])
}

/// Puts the size, the MD5, the SHA-1 and the SHA-256.
pub fn put_digests(out: &mut String, found: &Digests) -> Result<(), AllocError> {
    put_at(out, "", found.size)?;
    put_hexadecimal(out, &found.md5)?;
    put_hexadecimal(out, &found.sha1)?;
    put_hexadecimal(out, &found.sha256)
}

/// The name of what differs.
fn what_text(what: What) -> &'static str {
    match what {
        What::Size => "size",
        What::Sha256 => "sha256",
        What::Sha1 => "sha1",
        What::Md5 => "md5",
    }
}

/// Puts what differs, as said and as found.
pub fn put_difference<'a>(
    out: &mut String,
    what: What,
    said: &'a Digits,
    found: &'a Digits,
) -> Result<(), AllocError> {
    put(out, &[what_text(what), " "])?;
    put(out, &[said.as_str(), " ", found.as_str()])
}

impl Answer for (What, Digits, Digits) {
    fn put(&self, out: &mut String) -> Result<(), AllocError> {
        put_difference(out, self.0, &self.1, &self.2)
    }
}
