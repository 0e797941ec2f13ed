//! Copies of queries.

ghost use Rattle.std.specs.Prelude.{◌≡◌, IfOk};
ghost use Rattle.query_tree.specs.Tree.{plain, plains};

use crate::query::{Query, Test};
use ap_text::Name;
use control_stanza::Text;
use deb_version::copy_relation;
use std::alloc::{AllocError, Global};

impl Query {
    /// The same query once more. Fails only for want of memory.
    #[cycle(copy)]
    pub fn copy(&self, alloc: Global) -> Result<Query, AllocError>
        ensures { IfOk result (λ made. plain made ≡ plain self.now) }
    {
        match self {
            Query::Any(queries) => Ok(Query::Any(copy_all(alloc, queries)?)),
            Query::All(queries) => Ok(Query::All(copy_all(alloc, queries)?)),
            Query::Not(query) => Ok(Query::Not(Box::new(alloc, query.copy(alloc)?)?)),
            Query::Reference {
                name,
                version,
                arch,
            } => Ok(Query::Reference {
                name: name.copy(alloc)?,
                version: version.copy(alloc)?,
                arch: arch.copy(alloc)?,
            }),
            Query::Wanted {
                name,
                relation,
                arch,
            } => Ok(Query::Wanted {
                name: name.copy(alloc)?,
                relation: copy_relation(alloc, relation)?,
                arch: copy_arch(alloc, arch)?,
            }),
            Query::Field { field, test } => Ok(Query::Field {
                field: field.copy(alloc)?,
                test: copy_test(alloc, test)?,
            }),
        }
    }
}

#[cycle(copy)]
fn copy_all(alloc: Global, queries: &[Query]) -> Result<Vec<Query>, AllocError>
    ensures { IfOk result (λ made. plains made.items ≡ plains queries.now) }
{
    let mut all = Vec::new(alloc);
    for i in 0..queries.len() {
        all.push(queries[i].copy(alloc)?)?;
    }
    Ok(all)
}

fn copy_arch(alloc: Global, arch: &Option<Name>) -> Result<Option<Name>, AllocError>
    ensures { IfOk result (λ made. made ≡ arch.now) }
{
    match arch {
        None => Ok(None),
        Some(name) => Ok(Some(name.copy(alloc)?)),
    }
}

fn copy_test(alloc: Global, test: &Option<(Test, Text)>) -> Result<Option<(Test, Text)>, AllocError>
    ensures { IfOk result (λ made. made ≡ test.now) }
{
    match test {
        None => Ok(None),
        Some((how, value)) => Ok(Some((*how, value.copy(alloc)?))),
    }
}
