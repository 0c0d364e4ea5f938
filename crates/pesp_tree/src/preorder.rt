//! The lines of a tree under work, without a call for each of its levels.

ghost use Rattle.std.specs.Prelude.{◌≡◌, ◌<◌, [], ◌∷◌, ◌++◌, length, map, IfOk, OnOk};
ghost use Rattle.pesp_problem.specs.declared.limits.TheConstants.{MOST_LINES};
ghost use Rattle.pesp_truth.specs.Trees.{CutLine, preorder, line_of};
ghost use Rattle.pesp_tree.specs.Numbered.{kept_leaf, tree_of, NodesAreNumbered};
ghost use Rattle.pesp_tree.specs.Preorder.{node_line, parts_at, NodeIsKnown};

use crate::leaf::leaf_line;
use crate::node::{Branching, Kept};
use pesp_problem::{Cut, Memory};
use pesp_truth::TreeLine;
use std::alloc::Global;

/// The line of a branch.
fn cut_line(cut: Cut) -> TreeLine
    ensures { line_of result ≡ CutLine cut }
{
    match cut {
        Cut::Slack { row, k } => TreeLine::Slack { row, k },
        Cut::Offset { cycle, k } => TreeLine::Offset { cycle, k },
    }
}

/// Writes the line of a node, and lets its parts wait, the low part on top.
fn visit(
    alloc: Global,
    branchings: &[Branching],
    nodes: &[Kept],
    node: u32,
    lines: &mut Vec<TreeLine>,
    waiting: &mut Vec<u32>,
) -> Result<(), Memory>
    requires node { NodeIsKnown branchings.now nodes.now node }
    requires few { length branchings.now < MOST_LINES }
    ensures lines { OnOk result (map line_of lines.new.items
        ≡ map line_of lines.old.items ++ node_line branchings.now nodes.now node ∷ []) }
    ensures waiting { OnOk result
        (waiting.new.items ≡ waiting.old.items ++ parts_at nodes.now node) }
{
    match &nodes[node as usize] {
        Kept::Leaf(leaf) => {
            lines.push(leaf_line(alloc, leaf)?)?;
            Ok(())
        }
        Kept::Branched(place) => {
            lines.push(cut_line(branchings[*place as usize].cut))?;
            waiting.push(2 * *place + 2)?;
            waiting.push(2 * *place + 1)?;
            Ok(())
        }
    }
}

/// The lines of the tree in preorder.
pub(crate) fn lines_of(
    alloc: Global,
    branchings: &[Branching],
    nodes: &[Kept],
) -> Result<Vec<TreeLine>, Memory>
    requires { NodesAreNumbered branchings.now nodes.now }
    ensures { IfOk result (λ lines. map line_of lines.items
        ≡ preorder (tree_of branchings.now (map kept_leaf nodes.now))) }
{
    let mut lines = Vec::new(alloc);
    let mut waiting = Vec::new(alloc);
    waiting.push(0)?;
    while let Some(node) = waiting.pop() {
        visit(alloc, branchings, nodes, node, &mut lines, &mut waiting)?;
    }
    Ok(lines)
}
