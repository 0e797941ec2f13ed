//! A stanza that is being read.
use crate::gathered::Gathered;

/// The stanza above a line: the number of its first line, how many bytes its lines have, and its fields.
#[derive(Debug, Drop)]
pub(crate) struct Begun {
    pub(crate) number: u64,
    pub(crate) size: u64,
    pub(crate) stanza: Gathered,
}
