//! Mirrors of archives.
ghost use Rattle.std.specs.Prelude.{◌≡◌, IfOk};
ghost use Rattle.std.specs.Option.{option_map};
ghost use Rattle.query_tree.specs.Tree.{plain};

use crate::copied::{Copied, copy_all, copy_optional};
use crate::fetched::Fetched;
use crate::named::Named;
use ap_text::{Name, SafePath};
use query_tree::Query;
use std::alloc::{AllocError, Global};
use std::marker::Model;

/// A mirror: which part of an archive is wanted, and what was last fetched of it. Contracts see its lists as lists, and its
/// filter as a tree.
#[derive(Drop)]
pub struct Mirror {
    /// Its name.
    pub name: Name,
    /// The folder of the archive in the input, of at most 200 bytes.
    pub archive: SafePath,
    /// The distribution of the archive, of at most 100 bytes.
    pub distribution: SafePath,
    /// The wanted components, in the order of their bytes, none twice; where there is none, all that the archive has.
    pub components: Vec<Name>,
    /// The wanted architectures, likewise; `all` isn't among them.
    pub architectures: Vec<Name>,
    /// The query that wanted packages match, if there is one.
    pub filter: Option<Query>,
    /// Whether what the matching packages depend on is wanted too.
    pub with_deps: bool,
    /// What was fetched, if the mirror was ever updated.
    pub updated: Option<Fetched>,
}

impl Model for Mirror {
    ghost use Rattle.std.specs.Option.{option_map};
    ghost use Rattle.query_tree.specs.Tree.{plain};
    ghost use Rattle.std.specs.Coded.{codes};
    ghost use Rattle.query_tree.specs.TreeCode.{tree_code};
    ghost use Rattle.machine_state.specs.Values.{MirrorView};

    ghost Value = { MirrorView };

    ghost coded = { Prim.hlevel (codes, tree_code) };

    ghost view = { λ mirror. record { name = mirror.name; archive = mirror.archive; distribution = mirror.distribution; components = mirror.components.items; architectures = mirror.architectures.items; filter = option_map plain mirror.filter; with_deps = mirror.with_deps; updated = mirror.updated } };
}

impl Mirror {
    /// An equal mirror; its packages are shared. Fails only for want of memory.
    pub fn copy(&self, alloc: Global) -> Result<Mirror, AllocError>
        ensures { IfOk result (λ mirror. mirror ≡ self.now) }
    {
        Ok(Mirror {
            name: self.name.copy(alloc)?,
            archive: self.archive.copy(alloc)?,
            distribution: self.distribution.copy(alloc)?,
            components: copy_all(alloc, &self.components)?,
            architectures: copy_all(alloc, &self.architectures)?,
            filter: copy_filter(alloc, &self.filter)?,
            with_deps: self.with_deps,
            updated: copy_optional(alloc, &self.updated)?,
        })
    }
}

fn copy_filter(alloc: Global, filter: &Option<Query>) -> Result<Option<Query>, AllocError>
    ensures { IfOk result (λ copied. option_map plain copied ≡ option_map plain filter.now) }
{
    match filter {
        None => Ok(None),
        Some(query) => Ok(Some(query.copy(alloc)?)),
    }
}

impl Named for Mirror {
    ghost name_of = { λ mirror. mirror.name };

    fn name(&self) -> &Name {
        &self.name
    }
}

impl Copied for Mirror {
    fn copied(&self, alloc: Global) -> Result<Mirror, AllocError> {
        self.copy(alloc)
    }
}
