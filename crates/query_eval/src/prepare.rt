//! Building the regular expressions of a query.

ghost use Rattle.std.specs.Prelude.{◌≡◌, ◌+◌, ◌∷◌, [], IfOk, length, map, Some};
ghost use Rattle.std.specs.Option.{option_map};
ghost use Rattle.query_tree.specs.Tree.{plain, plains, listed};
ghost use Rattle.query_tree.specs.Tree as spec;
ghost use Rattle.query_eval.specs.Conditions.{Prepares, patterns_of, patterns_in, pattern_of};
ghost use Rattle.query_eval.specs.Preparing.{node_tree, check_test};

use crate::expression::Expression;
use crate::fault::EvalFault;
use crate::node::{Check, Node};
use crate::patterns::{PatternErr, Patterns};
use ap_text::Name;
use control_stanza::Text;
use deb_version::{Relation, Version, copy_relation};
use query_tree::{Query, Test};
use std::alloc::{AllocError, Global};

pub(crate) fn copy_arch(alloc: Global, arch: &Option<Name>) -> Result<Option<Name>, AllocError>
    ensures { IfOk result (λ made. made ≡ arch.now) }
{
    match arch {
        None => Ok(None),
        Some(name) => Ok(Some(name.copy(alloc)?)),
    }
}

pub(crate) fn reference(
    alloc: Global,
    name: &Name,
    version: &Version,
    arch: &Name,
) -> Result<Node, AllocError>
    ensures { IfOk result (λ made. node_tree made ≡ spec.reference name.now version.now arch.now) }
{
    Ok(Node::Reference {
        name: name.copy(alloc)?,
        version: version.copy(alloc)?,
        arch: arch.copy(alloc)?,
    })
}

pub(crate) fn wanted(
    alloc: Global,
    name: &Name,
    relation: &Option<(Relation, Version)>,
    arch: &Option<Name>,
) -> Result<Node, AllocError>
    ensures { IfOk result (λ made. node_tree made ≡ spec.wanted name.now relation.now arch.now) }
{
    Ok(Node::Wanted {
        name: name.copy(alloc)?,
        relation: copy_relation(alloc, relation)?,
        arch: copy_arch(alloc, arch)?,
    })
}

/// Has the expression built of the `~` condition that follows so many others.
fn expression<M: Patterns>(
    alloc: Global,
    patterns: &mut M,
    text: &str,
    before: u64,
) -> Result<(Check, u64), EvalFault>
    ensures stands { IfOk result (λ made. check_test made.0 ≡ (Test.Pattern, text.now)) }
    ensures count { IfOk result (λ made. made.1 ≡ before + 1) }
    ensures prepares { Prepares before (text.now ∷ []) (M.refusals patterns.old) (M.refusals patterns.new) (M.refused patterns.old) (M.refused patterns.new) result }
{
    // A query with so many conditions has no room in memory.
    let Some(number) = before.checked_add(1) else {
        return Err(EvalFault::OutOfMemory);
    };
    match Expression::build(alloc, patterns, text) {
        Ok(built) => Ok((Check::Pattern(built), number)),
        Err(PatternErr::Syntax) => Err(EvalFault::BadPattern(number)),
        Err(PatternErr::Size) => Err(EvalFault::PatternTooLarge(number)),
        Err(PatternErr::OutOfMemory) => Err(EvalFault::OutOfMemory),
    }
}

/// The test of a field's value, and how many `~` conditions there are up to it.
fn check<M: Patterns>(
    alloc: Global,
    test: Test,
    text: &Text,
    patterns: &mut M,
    before: u64,
) -> Result<(Check, u64), EvalFault>
    ensures stands { IfOk result (λ made. check_test made.0 ≡ (test, text.now)) }
    ensures count { IfOk result (λ made. made.1 ≡ before + length (pattern_of (Some (test, text.now)))) }
    ensures prepares { Prepares before (pattern_of (Some (test, text.now))) (M.refusals patterns.old) (M.refusals patterns.new) (M.refused patterns.old) (M.refused patterns.new) result }
{
    match test {
        Test::Pattern => expression(alloc, patterns, text.as_str(), before),
        Test::Glob => Ok((Check::Glob(text.copy(alloc)?), before)),
        Test::Less => Ok((
            Check::Compared(Relation::Earlier, text.copy(alloc)?),
            before,
        )),
        Test::LessEqual => Ok((
            Check::Compared(Relation::EarlierEqual, text.copy(alloc)?),
            before,
        )),
        Test::Equal => Ok((Check::Compared(Relation::Equal, text.copy(alloc)?), before)),
        Test::GreaterEqual => Ok((
            Check::Compared(Relation::LaterEqual, text.copy(alloc)?),
            before,
        )),
        Test::Greater => Ok((Check::Compared(Relation::Later, text.copy(alloc)?), before)),
    }
}

fn field<M: Patterns>(
    alloc: Global,
    name: &Text,
    test: &Option<(Test, Text)>,
    patterns: &mut M,
    before: u64,
) -> Result<(Node, u64), EvalFault>
    ensures stands { IfOk result (λ made. node_tree made.0 ≡ spec.field name.now test.now) }
    ensures count { IfOk result (λ made. made.1 ≡ before + length (pattern_of test.now)) }
    ensures prepares { Prepares before (pattern_of test.now) (M.refusals patterns.old) (M.refusals patterns.new) (M.refused patterns.old) (M.refused patterns.new) result }
{
    let name = name.copy(alloc)?;
    match test {
        None => Ok((Node::Field { name, check: None }, before)),
        Some((test, text)) => {
            let (check, after) = check(alloc, *test, text, patterns, before)?;
            Ok((
                Node::Field {
                    name,
                    check: Some(check),
                },
                after,
            ))
        }
    }
}

/// The query with its expressions, and how many `~` conditions there are up to its end.
#[cycle(prepare)]
pub(crate) fn prepare<M: Patterns>(
    alloc: Global,
    query: &Query,
    patterns: &mut M,
    before: u64,
) -> Result<(Node, u64), EvalFault>
    ensures stands { IfOk result (λ made. node_tree made.0 ≡ plain query.now) }
    ensures count { IfOk result (λ made. made.1 ≡ before + length (patterns_of (plain query.now))) }
    ensures prepares { Prepares before (patterns_of (plain query.now)) (M.refusals patterns.old) (M.refusals patterns.new) (M.refused patterns.old) (M.refused patterns.new) result }
{
    match query {
        Query::Any(queries) => {
            let (nodes, after) = prepare_all(alloc, queries, patterns, before)?;
            Ok((Node::Any(nodes), after))
        }
        Query::All(queries) => {
            let (nodes, after) = prepare_all(alloc, queries, patterns, before)?;
            Ok((Node::All(nodes), after))
        }
        Query::Not(inner) => {
            let (node, after) = prepare(alloc, inner, patterns, before)?;
            Ok((Node::Not(Box::new(alloc, node)?), after))
        }
        Query::Reference {
            name,
            version,
            arch,
        } => Ok((reference(alloc, name, version, arch)?, before)),
        Query::Wanted {
            name,
            relation,
            arch,
        } => Ok((wanted(alloc, name, relation, arch)?, before)),
        Query::Field { field: name, test } => field(alloc, name, test, patterns, before),
    }
}

#[cycle(prepare)]
fn prepare_all<M: Patterns>(
    alloc: Global,
    queries: &[Query],
    patterns: &mut M,
    before: u64,
) -> Result<(Vec<Node>, u64), EvalFault>
    ensures stands { IfOk result (λ made. map node_tree made.0.items ≡ plains queries.now) }
    ensures count { IfOk result (λ made. made.1 ≡ before + length (patterns_in (listed (plains queries.now)))) }
    ensures prepares { Prepares before (patterns_in (listed (plains queries.now))) (M.refusals patterns.old) (M.refusals patterns.new) (M.refused patterns.old) (M.refused patterns.new) result }
{
    let mut nodes = Vec::new(alloc);
    let mut count = before;
    for query in queries {
        let (node, after) = prepare(alloc, query, patterns, count)?;
        nodes.push(node)?;
        count = after;
    }
    Ok((nodes, count))
}
