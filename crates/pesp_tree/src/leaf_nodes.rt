//! The nodes that have leaves, in the order of the tree's lines, without a call for each of its levels.

ghost use Rattle.std.specs.Prelude.{◌≡◌, ℕ, ◌<◌, ◌++◌, length, map, slice_index_or, All, None, IsSome, IfOk, OnOk};
ghost use Rattle.pesp_problem.specs.declared.limits.TheConstants.{MOST_LINES};
ghost use Rattle.pesp_truth.specs.Leaves.{leaf_paths};
ghost use Rattle.pesp_tree.specs.declared.node.Kept.TheVariants.{Branched};
ghost use Rattle.pesp_tree.specs.Numbered.{grown, path_in, kept_leaf, tree_of, no_node, NodesAreNumbered};
ghost use Rattle.pesp_tree.specs.Preorder.{own_at, parts_at};

use crate::node::{Branching, Kept};
use pesp_problem::Memory;
use std::alloc::Global;

/// Notes a node that has a leaf, and lets the parts of any other node wait, the low part on top.
fn note(
    nodes: &[Kept],
    node: u32,
    leaves: &mut Vec<u32>,
    waiting: &mut Vec<u32>,
) -> Result<(), Memory>
    requires node { node < length nodes.now }
    requires places { (place : ℕ) → slice_index_or nodes.now node no_node ≡ Branched place
        → place < MOST_LINES }
    ensures leaves { OnOk result (leaves.new.items ≡ leaves.old.items ++ own_at nodes.now node) }
    ensures waiting { OnOk result
        (waiting.new.items ≡ waiting.old.items ++ parts_at nodes.now node) }
{
    match &nodes[node as usize] {
        Kept::Leaf(_) => {
            leaves.push(node)?;
            Ok(())
        }
        Kept::Branched(place) => {
            waiting.push(2 * *place + 2)?;
            waiting.push(2 * *place + 1)?;
            Ok(())
        }
    }
}

/// The nodes that have leaves, in the order of the tree's lines.
pub(crate) fn leaf_nodes(
    alloc: Global,
    branchings: &[Branching],
    nodes: &[Kept],
) -> Result<Vec<u32>, Memory>
    requires { NodesAreNumbered branchings.now nodes.now }
    ensures paths { IfOk result (λ leaves. map (path_in (grown branchings.now)) leaves.items
        ≡ leaf_paths (tree_of branchings.now (map kept_leaf nodes.now))) }
    ensures leaves { IfOk result (λ leaves. All
        (λ node. IsSome (slice_index_or (map kept_leaf nodes.now) node None)) leaves.items) }
{
    let mut leaves = Vec::new(alloc);
    let mut waiting = Vec::new(alloc);
    let mut left = 2 * branchings.len() + 1;
    waiting.push(0)?;
    while let Some(node) = waiting.pop() {
        left -= 1;
        note(nodes, node, &mut leaves, &mut waiting)?;
    }
    Ok(leaves)
}
