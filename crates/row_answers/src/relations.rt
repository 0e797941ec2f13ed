//! Relation fields.

use crate::answers::Answer;
use crate::versions::relation_text;
use deb_version::{Relation, Version};
use depends_field::{Alternative, DependsFault, Group};
use row_table::{put, put_at};
use std::alloc::AllocError;

impl Answer for DependsFault {
    fn put(&self, out: &mut String) -> Result<(), AllocError> {
        match self {
            DependsFault::At { place } => put_at(out, "at ", *place),
            DependsFault::OutOfMemory => out.push_str("out of memory"),
        }
    }
}

/// A relation in parentheses.
pub(crate) fn put_relation(
    out: &mut String,
    relation: &Option<(Relation, Version)>,
) -> Result<(), AllocError> {
    match relation {
        Some((relation, version)) => {
            put(out, &[" (", relation_text(*relation), " "])?;
            put(out, &[version.as_str(), ")"])
        }
        None => Ok(()),
    }
}

/// An alternative as it is usually written, behind a mark.
fn put_alternative(
    out: &mut String,
    mark: &str,
    alternative: &Alternative,
) -> Result<(), AllocError> {
    put(out, &[mark, alternative.name.as_str()])?;
    if let Some(arch) = &alternative.arch {
        put(out, &[":", arch.as_str()])?;
    }
    put_relation(out, &alternative.relation)
}

fn put_group(out: &mut String, group: &Group) -> Result<(), AllocError> {
    for (i, alternative) in group.alternatives.iter().enumerate() {
        let mark = if i == 0 { " " } else { " | " };
        put_alternative(out, mark, alternative)?;
    }
    Ok(())
}

/// How many groups there are, and the groups.
impl Answer for Vec<Group> {
    fn put(&self, out: &mut String) -> Result<(), AllocError> {
        put_at(out, "groups ", self.len() as u64)?;
        for (i, group) in self.iter().enumerate() {
            put(out, &[if i == 0 { ":" } else { "," }])?;
            put_group(out, group)?;
        }
        Ok(())
    }
}

/// How many alternatives there are, and the alternatives.
impl Answer for Vec<Alternative> {
    fn put(&self, out: &mut String) -> Result<(), AllocError> {
        put_at(out, "alternatives ", self.len() as u64)?;
        for (i, alternative) in self.iter().enumerate() {
            put_alternative(out, if i == 0 { ": " } else { ", " }, alternative)?;
        }
        Ok(())
    }
}
