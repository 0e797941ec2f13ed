//! Queries with their regular expressions built.

use crate::expression::Expression;
use ap_text::Name;
use control_stanza::Text;
use deb_version::{Relation, Version};

/// A query whose `~` conditions have their expressions.
#[derive(Drop)]
pub(crate) enum Node {
    Any(Vec<Node>),
    All(Vec<Node>),
    Not(Box<Node>),
    Reference {
        name: Name,
        version: Version,
        arch: Name,
    },
    Wanted {
        name: Name,
        relation: Option<(Relation, Version)>,
        arch: Option<Name>,
    },
    Field {
        name: Text,
        check: Option<Check>,
    },
}

/// What is asked of a field's value.
#[derive(Drop)]
pub(crate) enum Check {
    /// The value stands in the relation to the text.
    Compared(Relation, Text),
    /// The shell pattern stands for the whole value.
    Glob(Text),
    /// The expression is found in the value.
    Pattern(Expression),
}
