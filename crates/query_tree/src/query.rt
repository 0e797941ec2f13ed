//! Queries as trees.

ghost use Rattle.std.specs.Prelude.{◌≡◌};

use ap_text::Name;
use control_stanza::Text;
use deb_version::{Relation, Version};

/// A package query (aptly manual, package query syntax): a condition on one package. Contracts see it as its plain tree.
#[derive(Drop)]
pub enum Query {
    /// Some of the queries is true: `a | b`.
    Any(Vec<Query>),
    /// Each of the queries is true: `a, b`.
    All(Vec<Query>),
    /// The query isn't true: `!a`.
    Not(Box<Query>),
    /// The one package of this name, version and architecture: `name_version_arch`.
    Reference {
        name: Name,
        version: Version,
        arch: Name,
    },
    /// A package as a relation field asks for one, maybe of an architecture: `name (>= version) {arch}`.
    Wanted {
        name: Name,
        relation: Option<(Relation, Version)>,
        arch: Option<Name>,
    },
    /// A field of the package, maybe with a test of its value: `Field (test value)`.
    Field {
        field: Text,
        test: Option<(Test, Text)>,
    },
}

/// How a field's value is tested.
#[derive(Clone, Copy, Debug, PartialEq, Eq)]
pub enum Test {
    /// `=`
    Equal,
    /// `<<`
    Less,
    /// `<=`
    LessEqual,
    /// `>=`
    GreaterEqual,
    /// `>>`
    Greater,
    /// `%`: a shell pattern stands for the whole value.
    Glob,
    /// `~`: a regular expression is found in the value.
    Pattern,
}

impl Test {
    /// The same test.
    pub fn copy(&self) -> Test
        ensures { result ≡ self.now }
    {
        *self
    }
}
