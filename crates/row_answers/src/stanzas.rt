//! Stanzas, and why a text has none.

use crate::answers::Answer;
use control_stanza::{Stanza, StanzaFault, StanzaKind, write_stanza};
use row_table::{Stop, put, put_at, put_bytes};
use std::alloc::AllocError;

fn kind_text(kind: StanzaKind) -> &'static str {
    match kind {
        StanzaKind::CarriageReturn => "carriage return",
        StanzaKind::NotUtf8 => "not UTF-8",
        StanzaKind::StrayContinuation => "stray continuation",
        StanzaKind::NoColon => "no colon",
        StanzaKind::BadFieldName => "bad field name",
        StanzaKind::RepeatedField => "repeated field",
        StanzaKind::TooLong => "too long",
    }
}

/// Puts the text of a stanza.
pub fn put_stanza(out: &mut String, stanza: &Stanza) -> Result<(), Stop> {
    let mut text = Vec::new(*out.allocator());
    write_stanza(&mut text, stanza)?;
    put_bytes(out, &text)
}

/// How many stanzas there are.
impl Answer for Vec<(u64, Stanza)> {
    fn put(&self, out: &mut String) -> Result<(), AllocError> {
        put_at(out, "stanzas ", self.len() as u64)
    }
}

impl Answer for StanzaFault {
    fn put(&self, out: &mut String) -> Result<(), AllocError> {
        match self {
            StanzaFault::At { line, kind } => {
                put_at(out, "line ", *line)?;
                put(out, &[": ", kind_text(*kind)])
            }
            StanzaFault::OutOfMemory => out.push_str("out of memory"),
        }
    }
}

/// Each stanza with its line and its text.
pub fn put_stanzas(out: &mut String, found: &[(u64, Stanza)]) -> Result<(), Stop> {
    for (line, stanza) in found {
        put_at(out, "\nat ", *line)?;
        put(out, &["\n"])?;
        put_stanza(out, stanza)?;
    }
    Ok(())
}
