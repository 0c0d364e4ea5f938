//! The node to which a path leads.

ghost use Rattle.std.specs.Prelude.{◌≡◌, IfOk};
ghost use Rattle.pesp_nodes.specs.Problems.{IsNodeOf};
ghost use Rattle.pesp_tree.specs.States.{node_at};
ghost use Rattle.pesp_board.specs.Giving.{AreCuts};

use pesp_nodes::{Node, Problem};
use pesp_problem::{Cut, Memory, Side};
use std::alloc::Global;

/// The node to which a path leads from the root.
pub fn node_along(alloc: Global, problem: &Problem, path: &[(Cut, Side)]) -> Result<Node, Memory>
    requires { AreCuts problem.now path.now }
    ensures at { IfOk result (λ node. node ≡ node_at problem.now path.now) }
    ensures node { IfOk result (IsNodeOf problem.now) }
{
    let mut node = problem.root(alloc)?;
    for step in path {
        node.cut(step.0, step.1);
    }
    Ok(node)
}
