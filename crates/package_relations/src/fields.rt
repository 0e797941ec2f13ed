//! The relation fields of a package (Debian Policy 7.2, 7.5).
ghost use Rattle.std.specs.Prelude.{◌≡◌, IfOk};
ghost use Rattle.package_relations.specs.Fields.{field_name, groups_of as asked_by, provided as provided_by};

use depends_field::{Alternative, DependsFault, Group, read_depends, read_provides};
use package_core::Package;
use std::alloc::{AllocError, Global};

/// The fields by which a package asks for others (Debian Policy 7.2).
#[derive(Clone, Copy, Debug, PartialEq, Eq)]
pub enum RelationField {
    /// `Pre-Depends`.
    PreDepends,
    /// `Depends`.
    Depends,
    /// `Recommends`.
    Recommends,
    /// `Suggests`.
    Suggests,
}

impl RelationField {
    /// The name of the field.
    pub fn name(self) -> &'static str
        ensures { result.now ≡ field_name self }
    {
        match self {
            RelationField::PreDepends => "Pre-Depends",
            RelationField::Depends => "Depends",
            RelationField::Recommends => "Recommends",
            RelationField::Suggests => "Suggests",
        }
    }

    /// The same field.
    pub fn copy(&self) -> RelationField
        ensures { result ≡ self.now }
    {
        *self
    }
}

/// The groups that a package asks for by a field, in the order in which they were written: each is met by any of its
/// alternatives. A field that isn't readable counts as empty, as one that isn't there does. Fails only for want of memory.
#[tactic(auto, unfolding(crate::specs::Fields::groups_of))]
pub fn groups_of(
    alloc: Global,
    candidate: &Package,
    field: RelationField,
) -> Result<Vec<Group>, AllocError>
    ensures { IfOk result (λ groups. groups.items ≡ asked_by candidate.now field) }
{
    let Some(text) = candidate.stanza.get(field.name()) else {
        return Ok(Vec::new(alloc));
    };
    match read_depends(alloc, text) {
        Ok(groups) => Ok(groups),
        Err(DependsFault::At { .. }) => Ok(Vec::new(alloc)),
        Err(DependsFault::OutOfMemory) => Err(AllocError),
    }
}

/// What a package provides beside itself, by its field Provides, each with `(= version)` or without a version. A field that
/// isn't readable counts as empty, as one that isn't there does. Fails only for want of memory.
#[tactic(auto, unfolding(crate::specs::Fields::provided))]
pub fn provided(alloc: Global, candidate: &Package) -> Result<Vec<Alternative>, AllocError>
    ensures { IfOk result (λ list. list.items ≡ provided_by candidate.now) }
{
    let Some(text) = candidate.stanza.get("Provides") else {
        return Ok(Vec::new(alloc));
    };
    match read_provides(alloc, text) {
        Ok(list) => Ok(list),
        Err(DependsFault::At { .. }) => Ok(Vec::new(alloc)),
        Err(DependsFault::OutOfMemory) => Err(AllocError),
    }
}
