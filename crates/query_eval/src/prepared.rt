//! Queries that are ready to be asked.

ghost use Rattle.std.specs.Prelude.{◌≡◌, ◌≤◌, IfOk, IfErr, OnOk, All};
ghost use Rattle.query_tree.specs.Tree.{plain};
ghost use Rattle.query_eval.specs.Conditions.{IsPattern, IsRefused, KeepsRefused, patterns_of};
ghost use Rattle.query_eval.specs.Truth.{matches as is_true_of};

use crate::asked::Asked;
use crate::fault::EvalFault;
use crate::node::Node;
use crate::patterns::Patterns;
use crate::prepare::prepare;
use crate::truth::matches;
use package_core::Package;
use query_tree::Query;
use std::alloc::{AllocError, Global};
use std::marker::Model;

/// A query whose regular expressions are built, so that it can be asked of any number of packages. Contracts see the tree
/// of the query.
#[derive(Drop)]
pub struct Prepared {
    node: Node,
}

impl Model for Prepared {
    ghost use Rattle.query_tree.specs.Tree.{Tree};
    ghost use Rattle.query_tree.specs.TreeCode.{tree_code};

    ghost Value = { Tree };

    ghost coded = { tree_code };

    ghost use Rattle.query_eval.specs.Preparing.{node_tree};

    ghost view = { λ p. node_tree p.node };
}

impl Prepared {
    /// Prepares a query.
    ///
    /// Its `~` conditions are counted from 1 in the order of its text. The first whose text is no pattern, or is nested
    /// deeper than `regex` reads, is told as BadPattern; the first that `patterns` refuses for its size as PatternTooLarge.
    pub fn new<M: Patterns>(
        alloc: Global,
        query: &Query,
        patterns: &mut M,
    ) -> Result<Prepared, EvalFault>
        ensures stands { IfOk result (λ made. made ≡ plain query.now) }
        // Each `~` text is one that the grammar of `regex` reads.
        ensures read { OnOk result (All IsPattern (patterns_of (plain query.now))) }
        ensures fault { IfErr result (IsRefused 0 (patterns_of (plain query.now)) (M.refusals patterns.old) (M.refusals patterns.new) (M.refused patterns.new)) }
        ensures never_falls { M.refusals patterns.old ≤ M.refusals patterns.new }
        ensures kept { KeepsRefused (M.refused patterns.old) (M.refused patterns.new) result }
    {
        let (node, _) = prepare(alloc, query, patterns, 0)?;
        Ok(Prepared { node })
    }

    /// The same query, prepared once more: the copy shares the regular expressions. Fails only for want of memory.
    pub fn copy(&self, alloc: Global) -> Result<Prepared, AllocError>
        ensures { IfOk result (λ made. made ≡ self.now) }
    {
        Ok(Prepared {
            node: self.node.copy(alloc)?,
        })
    }

    /// Whether the query is true of the package. What the package provides is read once, and only where a condition asks
    /// for it. Fails only for want of memory.
    pub fn matches(&self, alloc: Global, candidate: &Package) -> Result<bool, AllocError>
        ensures { IfOk result (λ b. b ≡ is_true_of self.now candidate.now) }
    {
        matches(alloc, &self.node, &mut Asked::new(candidate))
    }
}
