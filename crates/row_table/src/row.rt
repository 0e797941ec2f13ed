//! A row, and the block of the base.

use crate::answers::{put, put_at};
use crate::desk::Desk;
use crate::stop::Stop;
use std::alloc::AllocError;

/// What is printed for the line of this number, in whole lines: the answer that was put into `out`, or `?` and the number
/// where the line is none of the calls.
pub fn answered(
    mut out: String,
    number: u64,
    played: Result<(), Stop>,
) -> Result<String, AllocError> {
    match played {
        Ok(()) => {}
        Err(Stop::NoCall) => {
            out.clear();
            put_at(&mut out, "? ", number)?;
        }
        Err(Stop::OutOfMemory(error)) => return Err(error),
    }
    if !out.is_empty() && !out.as_str().ends_with('\n') {
        out.push('\n')?;
    }
    Ok(out)
}

/// A line of the block of the base: whether the block goes on.
pub fn extend_base(desk: &mut Desk, line: &str) -> Result<bool, AllocError> {
    if line == "." {
        return Ok(false);
    }
    put(&mut desk.base, &[line, "\n"])?;
    Ok(true)
}
