ghost use Rattle.std.specs.Prelude.{◌≡◌, IfOk, OnOk, OnErr, ◌++◌, ◌∷◌, []};

use ap_text::Name;
use deb_version::{Relation, Version, copy_relation};
use std::alloc::{AllocError, Global};
use std::marker::Model;

/// One way to satisfy a relation: a package, perhaps of an architecture and in a relation to a version.
#[derive(Drop)]
pub struct Alternative {
    /// The package.
    pub name: Name,
    /// The architecture that is asked for, `all` among them; none where none or `any` was written.
    pub arch: Option<Name>,
    /// What the package's version is asked to be, and beside which version.
    pub relation: Option<(Relation, Version)>,
}

/// What a package asks for: any of these alternatives, in the order in which they were written.
#[derive(Drop)]
pub struct Group {
    /// The alternatives.
    pub alternatives: Vec<Alternative>,
}

impl Model for Group {
    ghost use Rattle.std.specs.Prelude.{List};
    ghost use Rattle.depends_field.specs.declared.alternative.Alternative.{Alternative};

    ghost Value = { List Alternative };

    ghost view = { λ g. g.alternatives.items };
}

fn copy_name(alloc: Global, name: &Option<Name>) -> Result<Option<Name>, AllocError>
    ensures { IfOk result (λ copy. copy ≡ name.now) }
{
    match name {
        None => Ok(None),
        Some(name) => Ok(Some(name.copy(alloc)?)),
    }
}

impl Alternative {
    /// An equal alternative.
    pub fn copy(&self, alloc: Global) -> Result<Alternative, AllocError>
        ensures { IfOk result (λ copy. copy ≡ self.now) }
    {
        Ok(Alternative {
            name: self.name.copy(alloc)?,
            arch: copy_name(alloc, &self.arch)?,
            relation: copy_relation(alloc, &self.relation)?,
        })
    }
}

fn copy_alternatives(
    alloc: Global,
    alternatives: &[Alternative],
) -> Result<Vec<Alternative>, AllocError>
    ensures { IfOk result (λ copy. copy.items ≡ alternatives.now) }
{
    let mut copies = Vec::new(alloc);
    for alternative in alternatives {
        copies.push(alternative.copy(alloc)?)?;
    }
    Ok(copies)
}

impl Group {
    /// An equal group.
    pub fn copy(&self, alloc: Global) -> Result<Group, AllocError>
        ensures { IfOk result (λ copy. copy ≡ self.now) }
    {
        let alternatives = copy_alternatives(alloc, &self.alternatives)?;
        Ok(Group { alternatives })
    }
}
