//! Whether propagation shuts a node.

ghost use Rattle.std.specs.Prelude.{◌↔◌, IfOk, IsTrue};
ghost use Rattle.pesp_truth.specs.Trees.{ByPropagation};
ghost use Rattle.pesp_nodes.specs.Problems.{IsNodeOf};
ghost use Rattle.pesp_tree.specs.Events.{MayShut};

use pesp_nodes::{Node, Problem};
use pesp_problem::Memory;
use pesp_propagate::supports_none;
use std::alloc::Global;

/// Whether propagation shuts a node: its slack ranges support no family of time differences without an empty set. The one
/// refusal is of memory.
pub fn is_shut_by_propagation(alloc: Global, problem: &Problem, node: &Node) -> Result<bool, Memory>
    requires { IsNodeOf problem.now node.now }
    ensures { IfOk result (λ shut. IsTrue shut ↔ MayShut problem.now node.now ByPropagation) }
{
    problem.keeps_limits();
    supports_none(alloc, problem.network(), node.slacks())
}
