//! When a prepared query is true of a package.

ghost use Rattle.std.specs.Prelude.{◌≡◌, ◌&&◌, IfOk, Some};
ghost use Rattle.std.specs.Option.{option_map};
ghost use Rattle.std.specs.Prelude.{map};
ghost use Rattle.query_tree.specs.Tree.{listed};
ghost use Rattle.query_eval.specs.Preparing.{node_tree, check_test};
ghost use Rattle.package_relations.specs.Satisfies.{is_wanted as wanted};
ghost use Rattle.query_eval.specs.Truth.{matches as tree_matches, some_matches, each_matches, passes as value_passes, field_holds as holds_of_field, arch_holds, reference_holds, value_in};

use crate::asked::Asked;
use crate::field::{compares, value_of};
use crate::node::{Check, Node};
use ap_text::Name;
use control_stanza::Text;
use deb_version::{Relation, Version};
use package_core::Package;
use shell_pattern::glob_matches;
use std::alloc::{AllocError, Global};

fn passes(
    alloc: Global,
    candidate: &Package,
    name: &str,
    check: &Check,
    value: &str,
) -> Result<bool, AllocError>
    requires { value_in candidate.now name.now ≡ Some value.now }
    ensures { IfOk result (λ b. b ≡ value_passes name.now (check_test check.now).0 value.now (check_test check.now).1) }
{
    match check {
        Check::Compared(asked, text) => {
            compares(alloc, candidate, name, *asked, value, text.as_str())
        }
        Check::Glob(pattern) => Ok(glob_matches(pattern.as_str(), value)),
        Check::Pattern(expression) => expression.is_found(alloc, value),
    }
}

fn field_holds(
    alloc: Global,
    candidate: &Package,
    name: &Text,
    check: &Option<Check>,
) -> Result<bool, AllocError>
    ensures { IfOk result (λ b. b ≡ holds_of_field name.now (option_map check_test check.now) (value_in candidate.now name.now)) }
{
    let Some(value) = value_of(candidate, name.as_str()) else {
        return Ok(false);
    };
    match check {
        None => Ok(!value.is_empty()),
        Some(check) => passes(alloc, candidate, name.as_str(), check, value),
    }
}

fn is_reference(candidate: &Package, name: &Name, version: &Version, arch: &Name) -> bool
    ensures { result ≡ reference_holds candidate.now name.now version.now arch.now }
{
    candidate.name.as_str() == name.as_str()
        && candidate.version.as_str() == version.as_str()
        && candidate.arch.as_str() == arch.as_str()
}

fn is_for_asked(candidate: &Package, arch: &Option<Name>) -> bool
    ensures { result ≡ arch_holds candidate.now arch.now }
{
    match arch {
        None => true,
        Some(arch) => candidate.is_for(arch),
    }
}

fn is_wanted_for(
    alloc: Global,
    asked: &mut Asked<'_>,
    name: &Name,
    relation: &Option<(Relation, Version)>,
    arch: &Option<Name>,
) -> Result<bool, AllocError>
    ensures value { IfOk result (λ b. b ≡ (wanted asked.old name.now relation.now && arch_holds asked.old arch.now)) }
    ensures same { asked.new ≡ asked.old }
{
    if !is_for_asked(asked.package(), arch) {
        return Ok(false);
    }
    asked.is_wanted(alloc, name, relation)
}

/// Whether a query is true of a package.
#[cycle(matches)]
pub(crate) fn matches(alloc: Global, node: &Node, asked: &mut Asked<'_>) -> Result<bool, AllocError>
    ensures value { IfOk result (λ b. b ≡ tree_matches (node_tree node.now) asked.old) }
    ensures same { asked.new ≡ asked.old }
{
    match node {
        Node::Any(nodes) => some_match(alloc, nodes, asked),
        Node::All(nodes) => each_match(alloc, nodes, asked),
        Node::Not(inner) => {
            let holds = matches(alloc, inner, asked)?;
            Ok(!holds)
        }
        Node::Reference {
            name,
            version,
            arch,
        } => Ok(is_reference(asked.package(), name, version, arch)),
        Node::Wanted {
            name,
            relation,
            arch,
        } => is_wanted_for(alloc, asked, name, relation, arch),
        Node::Field { name, check } => field_holds(alloc, asked.package(), name, check),
    }
}

#[cycle(matches)]
fn some_match(alloc: Global, nodes: &[Node], asked: &mut Asked<'_>) -> Result<bool, AllocError>
    ensures value { IfOk result (λ b. b ≡ some_matches (listed (map node_tree nodes.now)) asked.old) }
    ensures same { asked.new ≡ asked.old }
{
    for node in nodes {
        if matches(alloc, node, asked)? {
            return Ok(true);
        }
    }
    Ok(false)
}

#[cycle(matches)]
fn each_match(alloc: Global, nodes: &[Node], asked: &mut Asked<'_>) -> Result<bool, AllocError>
    ensures value { IfOk result (λ b. b ≡ each_matches (listed (map node_tree nodes.now)) asked.old) }
    ensures same { asked.new ≡ asked.old }
{
    for node in nodes {
        if !matches(alloc, node, asked)? {
            return Ok(false);
        }
    }
    Ok(true)
}
