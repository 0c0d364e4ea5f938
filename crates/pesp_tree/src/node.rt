//! How a tree under work is kept: its nodes by number, and its branchings in the order in which they were made.

ghost use Rattle.std.specs.Prelude.{◌≡◌, ◌<◌, ◌≤◌, ◌+◌, ◌*◌, [], ◌∷◌, ◌++◌, length, IfOk, vec_len, vec_capacity};
ghost use Rattle.pesp_problem.specs.declared.limits.TheConstants.{MOST_LINES};
ghost use Rattle.pesp_tree.specs.Numbered.{grown, path_in, AreBelow, IsSide, after_split};
ghost use Rattle.pesp_tree.specs.declared.node.Kept.TheVariants.{Leaf as KeptLeaf};

use crate::leaf::Leaf;
use pesp_problem::{Cut, Memory, Side};
use std::alloc::Global;

/// A node that became a branch, and its cut. The branching at place `b` made the nodes `2b + 1`, its low part, and `2b + 2`.
#[derive(Clone, Copy)]
pub(crate) struct Branching {
    pub(crate) node: u32,
    pub(crate) cut: Cut,
}

/// What is kept of a node: its leaf, or the place of its branching.
#[derive(Drop)]
pub(crate) enum Kept {
    Leaf(Leaf),
    Branched(u32),
}

/// The part of its branching that a node is.
fn side_of(node: u32) -> Side
    requires { 0 < node }
    ensures { IsSide node result }
{
    if node % 2 == 1 { Side::Low } else { Side::High }
}

/// The path to a node.
pub(crate) fn path_of(
    alloc: Global,
    branchings: &[Branching],
    node: u32,
) -> Result<Vec<(Cut, Side)>, Memory>
    requires below { AreBelow 1 branchings.now }
    requires within { node < 1 + 2 * length branchings.now }
    ensures { IfOk result (λ path. path.items ≡ path_in (grown branchings.now) node) }
{
    let mut path = Vec::new(alloc);
    let mut at = node;
    while at > 0 {
        let branching = branchings[(at as usize - 1) / 2];
        path.push((branching.cut, side_of(at)))?;
        at = branching.node;
    }
    path.reverse();
    Ok(path)
}

/// Adds an item where there is memory for it.
fn add<T: Drop>(items: &mut Vec<T>, item: T)
    requires { vec_len items.old < vec_capacity items.old }
    ensures items { items.new.items ≡ items.old.items ++ item ∷ [] }
    ensures memory { vec_capacity items.old ≤ vec_capacity items.new }
{
    if items.push(item).is_err() {
        unreachable!();
    }
}

/// A leaf becomes a branch with two leaves, where there is memory for it.
pub(crate) fn branch_off(
    branchings: &mut Vec<Branching>,
    nodes: &mut Vec<Kept>,
    branching: Branching,
    low: Leaf,
    high: Leaf,
)
    requires node { branching.node < length nodes.old.items }
    requires few { length branchings.old.items < MOST_LINES }
    requires place { vec_len branchings.old < vec_capacity branchings.old }
    requires places { vec_len nodes.old + 2 ≤ vec_capacity nodes.old }
    ensures branchings { branchings.new.items ≡ branchings.old.items ++ branching ∷ [] }
    ensures nodes { nodes.new.items ≡ after_split nodes.old.items branching.node
        (length branchings.old.items) (KeptLeaf low) (KeptLeaf high) }
    ensures memory { (vec_capacity branchings.old ≤ vec_capacity branchings.new)
        × (vec_capacity nodes.old ≤ vec_capacity nodes.new) }
{
    let place = branchings.len() as u32;
    add(branchings, branching);
    nodes[branching.node as usize] = Kept::Branched(place);
    add(nodes, Kept::Leaf(low));
    add(nodes, Kept::Leaf(high));
}
