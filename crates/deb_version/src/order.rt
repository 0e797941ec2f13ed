//! The order of versions, and the relations that packages ask for.

ghost use Rattle.std.specs.Prelude.{◌≡◌, IfOk};
ghost use Rattle.deb_version.specs.VersionOrder.{version_cmp, operator as operator_text, holds as holds_in, meets as meets_relation};

use crate::text::Version;
use crate::{parts, runs};
use std::alloc::{AllocError, Global};
use std::cmp::Ordering;

/// What one version is asked to be beside another (Debian Policy 7.1).
#[derive(Clone, Copy, Debug, PartialEq, Eq)]
pub enum Relation {
    /// `<<`: before the other.
    Earlier,
    /// `<=`: before the other, or equal to it in the order of versions.
    EarlierEqual,
    /// `=`: equal to the other in the order of versions.
    Equal,
    /// `>=`: behind the other, or equal to it in the order of versions.
    LaterEqual,
    /// `>>`: behind the other.
    Later,
}

/// The order of two versions (Debian Policy 5.6.12).
///
/// Epochs are compared as numbers, then the upstream versions, then the revisions, run by run. It takes no memory.
#[tactic(auto, unfolding(crate::specs::VersionOrder::version_cmp))]
pub fn compare(a: &Version, b: &Version) -> Ordering
    ensures { result ≡ version_cmp a.now b.now }
{
    let (epoch, body) = parts::split_epoch(a.as_str().as_bytes());
    let (other_epoch, other_body) = parts::split_epoch(b.as_str().as_bytes());
    let (upstream, revision) = parts::split_revision(body);
    let (other_upstream, other_revision) = parts::split_revision(other_body);
    let order = runs::compare_numbers(epoch.unwrap_or(b""), other_epoch.unwrap_or(b""));
    if order.is_ne() {
        return order;
    }
    let order = runs::compare_parts(upstream, other_upstream);
    if order.is_ne() {
        return order;
    }
    runs::compare_parts(revision.unwrap_or(b"0"), other_revision.unwrap_or(b"0"))
}

impl Relation {
    /// The same relation once more.
    pub fn copy(&self) -> Relation
        ensures { result ≡ self.now }
    {
        *self
    }

    /// The relation's operator, as it is written: `<<`, `<=`, `=`, `>=` or `>>` (Debian Policy 7.1).
    pub fn operator(&self) -> &'static str
        ensures { result.now ≡ operator_text self.now }
    {
        match self {
            Relation::Earlier => "<<",
            Relation::EarlierEqual => "<=",
            Relation::Equal => "=",
            Relation::LaterEqual => ">=",
            Relation::Later => ">>",
        }
    }

    /// Whether two things of which the first stands so in their order stand in the relation.
    pub fn holds(&self, ordering: Ordering) -> bool
        ensures { result ≡ holds_in self.now ordering }
    {
        match self {
            Relation::Earlier => ordering.is_lt(),
            Relation::EarlierEqual => ordering.is_le(),
            Relation::Equal => ordering.is_eq(),
            Relation::LaterEqual => ordering.is_ge(),
            Relation::Later => ordering.is_gt(),
        }
    }
}

/// Whether `a` stands in the relation to `b`.
pub fn meets(a: &Version, relation: Relation, b: &Version) -> bool
    ensures { result ≡ meets_relation a.now relation b.now }
{
    relation.holds(compare(a, b))
}

/// An equal relation to an equal version, where there is one.
pub fn copy_relation(
    alloc: Global,
    relation: &Option<(Relation, Version)>,
) -> Result<Option<(Relation, Version)>, AllocError>
    ensures { IfOk result (λ copy. copy ≡ relation.now) }
{
    match relation {
        None => Ok(None),
        Some((relation, version)) => Ok(Some((*relation, version.copy(alloc)?))),
    }
}
