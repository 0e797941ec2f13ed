//! Versions and their relations.

use crate::answers::Answer;
use deb_version::{Relation, Version, VersionFault};
use row_table::{put, put_at};
use std::alloc::AllocError;

impl Answer for VersionFault {
    fn put(&self, out: &mut String) -> Result<(), AllocError> {
        match self {
            VersionFault::BadEpoch => out.push_str("bad epoch"),
            VersionFault::Empty => out.push_str("empty"),
            VersionFault::BadByte(place) => put_at(out, "bad byte at ", *place),
            VersionFault::OutOfMemory => out.push_str("out of memory"),
        }
    }
}

impl Answer for Version {
    fn put(&self, out: &mut String) -> Result<(), AllocError> {
        put(out, &["version ", self.as_str()])
    }
}

/// How a relation is written.
pub fn relation_text(relation: Relation) -> &'static str {
    match relation {
        Relation::Earlier => "<<",
        Relation::EarlierEqual => "<=",
        Relation::Equal => "=",
        Relation::LaterEqual => ">=",
        Relation::Later => ">>",
    }
}
