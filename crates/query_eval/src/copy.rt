//! Copies of prepared queries.

ghost use Rattle.std.specs.Prelude.{◌≡◌, IfOk, map};
ghost use Rattle.std.specs.Option.{option_map};
ghost use Rattle.query_eval.specs.Preparing.{node_tree, check_test};

use crate::node::{Check, Node};
use crate::prepare::{reference, wanted};
use std::alloc::{AllocError, Global};

impl Check {
    fn copy(&self, alloc: Global) -> Result<Check, AllocError>
        ensures { IfOk result (λ made. check_test made ≡ check_test self.now) }
    {
        match self {
            Check::Compared(relation, text) => Ok(Check::Compared(*relation, text.copy(alloc)?)),
            Check::Glob(pattern) => Ok(Check::Glob(pattern.copy(alloc)?)),
            Check::Pattern(expression) => Ok(Check::Pattern(expression.copy()?)),
        }
    }
}

fn copy_check(alloc: Global, check: &Option<Check>) -> Result<Option<Check>, AllocError>
    ensures { IfOk result (λ made. option_map check_test made ≡ option_map check_test check.now) }
{
    match check {
        None => Ok(None),
        Some(check) => Ok(Some(check.copy(alloc)?)),
    }
}

impl Node {
    /// The same once more, which shares the regular expressions. Fails only for want of memory.
    #[cycle(copy)]
    pub(crate) fn copy(&self, alloc: Global) -> Result<Node, AllocError>
        ensures { IfOk result (λ made. node_tree made ≡ node_tree self.now) }
    {
        match self {
            Node::Any(nodes) => Ok(Node::Any(copy_all(alloc, nodes)?)),
            Node::All(nodes) => Ok(Node::All(copy_all(alloc, nodes)?)),
            Node::Not(node) => Ok(Node::Not(Box::new(alloc, node.copy(alloc)?)?)),
            Node::Reference {
                name,
                version,
                arch,
            } => reference(alloc, name, version, arch),
            Node::Wanted {
                name,
                relation,
                arch,
            } => wanted(alloc, name, relation, arch),
            Node::Field { name, check } => Ok(Node::Field {
                name: name.copy(alloc)?,
                check: copy_check(alloc, check)?,
            }),
        }
    }
}

#[cycle(copy)]
fn copy_all(alloc: Global, nodes: &[Node]) -> Result<Vec<Node>, AllocError>
    ensures { IfOk result (λ made. map node_tree made.items ≡ map node_tree nodes.now) }
{
    let mut all = Vec::new(alloc);
    for i in 0..nodes.len() {
        all.push(nodes[i].copy(alloc)?)?;
    }
    Ok(all)
}
