//! The node at the end of a path.

ghost use Rattle.std.specs.Prelude.{◌≡◌, All, IfOk};
ghost use Rattle.pesp_truth.specs.Paths.{along};
ghost use Rattle.pesp_nodes.specs.Problems.{ProblemValue, IsNodeOf, IsCutOf};

use pesp_nodes::Node;
use pesp_problem::{Cut, Memory, Side};
use std::alloc::Global;

/// The node to which a path leads from a root.
pub(crate) fn node_from(alloc: Global, root: &Node, path: &[(Cut, Side)]) -> Result<Node, Memory>
    requires { All (λ step. IsCutOf root.now step.0) path.now }
    ensures at { IfOk result (λ node. node ≡ along root.now path.now) }
    ensures node { (p : ProblemValue) → IsNodeOf p root.now → IfOk result (IsNodeOf p) }
{
    let mut node = root.copy(alloc)?;
    for step in path {
        node.cut(step.0, step.1);
    }
    Ok(node)
}
