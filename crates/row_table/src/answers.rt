//! The small texts that answers are made of.

use crate::stop::Stop;
use std::alloc::AllocError;
use std::cmp::Ordering;

/// Puts these texts behind each other.
pub fn put(out: &mut String, parts: &[&str]) -> Result<(), AllocError> {
    for part in parts {
        out.push_str(part)?;
    }
    Ok(())
}

/// A text, and a number behind it.
pub fn put_at(out: &mut String, text: &str, number: u64) -> Result<(), AllocError> {
    let digits = number.to_string(*out.allocator())?;
    out.push_str(text)?;
    out.push_str(digits.as_str())
}

/// Bytes that have to be a text.
pub fn put_bytes(out: &mut String, bytes: &[u8]) -> Result<(), Stop> {
    match str::from_utf8(bytes) {
        Ok(text) => Ok(out.push_str(text)?),
        Err(_) => Err(Stop::NoCall),
    }
}

/// Whether two things are the same, and the sign between them.
pub fn put_order(out: &mut String, same: bool, order: Ordering) -> Result<(), Stop> {
    Ok(put(out, &[yes_or_no(same), " ", sign_of(order)])?)
}

pub fn yes_or_no(holds: bool) -> &'static str {
    if holds { "yes" } else { "no" }
}

/// The sign that stands between two things in this order.
pub fn sign_of(order: Ordering) -> &'static str {
    match order {
        Ordering::Less => "<",
        Ordering::Equal => "=",
        Ordering::Greater => ">",
    }
}
