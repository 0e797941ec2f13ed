//! Names and paths, and why a text is none.

use crate::answers::Answer;
use ap_text::{Name, SafePath, TextFault};
use row_table::put_at;
use std::alloc::AllocError;

impl Answer for TextFault {
    fn put(&self, out: &mut String) -> Result<(), AllocError> {
        match self {
            TextFault::Empty => out.push_str("empty"),
            TextFault::TooLong => out.push_str("too long"),
            TextFault::BadByte(place) => put_at(out, "bad byte at ", *place),
            TextFault::OutOfMemory => out.push_str("out of memory"),
        }
    }
}

impl Answer for Name {
    fn put(&self, out: &mut String) -> Result<(), AllocError> {
        out.push_str(self.as_str())
    }
}

impl Answer for SafePath {
    fn put(&self, out: &mut String) -> Result<(), AllocError> {
        out.push_str(self.as_str())
    }
}
