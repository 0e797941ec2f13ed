//! Something that is printed.

use row_table::Stop;
use std::alloc::AllocError;

/// Something that is printed. A call's answer is handed on whole to [`reply`], and so is let go in one place.
pub trait Answer {
    /// Puts its text.
    fn put(&self, out: &mut String) -> Result<(), AllocError>;
}

impl<T: Answer, E: Answer> Answer for Result<T, E> {
    fn put(&self, out: &mut String) -> Result<(), AllocError> {
        match self {
            Ok(value) => value.put(out),
            Err(fault) => fault.put(out),
        }
    }
}

impl<T: Answer> Answer for Option<T> {
    fn put(&self, out: &mut String) -> Result<(), AllocError> {
        match self {
            Some(value) => value.put(out),
            None => out.push_str("none"),
        }
    }
}

/// Puts an answer, and lets it go.
pub fn reply<A: Answer + Drop>(out: &mut String, answer: A) -> Result<(), Stop> {
    answer.put(out)?;
    Ok(())
}
