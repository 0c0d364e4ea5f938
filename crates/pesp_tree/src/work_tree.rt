//! Trees under work.

ghost use Rattle.std.specs.Prelude.{◌≡◌, ◌<◌, ◌≤◌, ◌+◌, length, map, option_map, option_copied, All, IsSome, IfOk, OnOk, OnErr};
ghost use Rattle.pesp_problem.specs.declared.limits.TheConstants.{MOST_LINES};
ghost use Rattle.pesp_truth.specs.Trees.{preorder, line_of};
ghost use Rattle.pesp_truth.specs.Leaves.{leaf_paths};
ghost use Rattle.pesp_tree.specs.Leaves.{leaf_of};
ghost use Rattle.pesp_tree.specs.WorkTrees.{opening_tree, path_to, leaf_at, with_leaf, with_branch, with_room, IsWhole};

use crate::leaf::Leaf;
use crate::leaf_nodes::leaf_nodes;
use crate::node::{Branching, Kept, branch_off, path_of};
use crate::preorder::lines_of;
use pesp_problem::{Cut, Memory, Pairs, Side};
use pesp_truth::TreeLine;
use std::alloc::Global;
use std::marker::Model;

/// A tree whose leaves are still worked at.
///
/// Its nodes are numbered from 0, the root, in the order in which they are made, and keep their numbers: a split makes two
/// nodes, first the low part and then the high part. A node is known by the path to it from the root, and keeps its leaf
/// until it is split. Ranges aren't kept. A tree has at most 1,000,000 nodes. Room for nodes is made before they are.
#[derive(Drop)]
pub struct WorkTree {
    branchings: Vec<Branching>,
    nodes: Vec<Kept>,
    room: u32,
}

impl Model for WorkTree {
    ghost use Rattle.pesp_tree.specs.Codes.{work_tree_code};
    ghost use Rattle.pesp_tree.specs.WorkTrees.{WorkTreeValue};
    ghost use Rattle.std.specs.Prelude.{vec_capacity};
    ghost use Rattle.pesp_tree.specs.Numbered.{value_of, TreeListsAreKept};

    ghost Value = { WorkTreeValue };

    ghost coded = { work_tree_code };

    ghost view = { λ t. value_of t.branchings.items t.nodes.items t.room };

    ghost invariant = { λ t. TreeListsAreKept t.branchings.items t.nodes.items t.room
        (vec_capacity t.branchings) (vec_capacity t.nodes) };
}

impl WorkTree {
    /// A tree of one bound leaf without pairs. The one refusal is of memory.
    pub fn new(alloc: Global) -> Result<WorkTree, Memory>
        ensures tree { IfOk result (λ tree. tree ≡ opening_tree) }
        ensures whole { IfOk result IsWhole }
    {
        let none = Leaf::Bound(Pairs::new(Vec::new(alloc)));
        let mut nodes = Vec::new(alloc);
        nodes.push(Kept::Leaf(none))?;
        Ok(WorkTree {
            branchings: Vec::new(alloc),
            nodes,
            room: 1,
        })
    }

    /// How many nodes there are: as many as the tree has lines in preorder.
    pub fn nodes(&self) -> u32
        ensures count { result ≡ length self.now.leaves }
        ensures whole { IsWhole self.now }
    {
        self.nodes.len() as u32
    }

    /// The path from the root to a node. The one refusal is of memory.
    pub fn path(&self, alloc: Global, node: u32) -> Result<Vec<(Cut, Side)>, Memory>
        requires { node < length self.now.leaves }
        ensures path { IfOk result (λ path. path.items ≡ path_to self.now node) }
        ensures whole { IsWhole self.now }
    {
        path_of(alloc, &self.branchings, node)
    }

    /// The leaf of a node, none where the node was split.
    pub fn leaf(&self, node: u32) -> Option<&Leaf>
        requires { node < length self.now.leaves }
        ensures leaf { option_map leaf_of (option_copied result) ≡ leaf_at self.now node }
        ensures whole { IsWhole self.now }
    {
        match &self.nodes[node as usize] {
            Kept::Leaf(leaf) => Some(leaf),
            Kept::Branched(_) => None,
        }
    }

    /// Puts another leaf in a leaf's place, at the same node.
    pub fn put_leaf(&mut self, node: u32, leaf: Leaf)
        requires { IsSome (leaf_at self.old node) }
        ensures tree { self.new ≡ with_leaf self.old node (leaf_of leaf) }
        ensures whole { IsWhole self.new }
    {
        self.nodes[node as usize] = Kept::Leaf(leaf);
    }

    /// Makes room for so many more nodes than there are. The one refusal is of memory, after which nothing has changed.
    pub fn reserve(&mut self, more: u32) -> Result<(), Memory>
        requires { length self.old.leaves + more ≤ MOST_LINES }
        ensures room { OnOk result (length self.old.leaves + more ≤ self.new.room) }
        ensures tree { self.new ≡ with_room self.old self.new.room }
        ensures same { OnErr result (self.new ≡ self.old) }
    {
        let room = self.nodes() + more;
        self.branchings.reserve(more as usize / 2 + 1)?;
        self.nodes.reserve(more as usize)?;
        self.room = self.room.max(room);
        Ok(())
    }

    /// Splits a leaf where there is room for two more nodes: it becomes a branch with these two leaves, which take the next
    /// two numbers. Takes no memory.
    pub fn split(&mut self, node: u32, cut: Cut, low: Leaf, high: Leaf)
        requires leaf { IsSome (leaf_at self.old node) }
        requires room { length self.old.leaves + 2 ≤ self.old.room }
        requires few { length self.old.leaves + 2 ≤ MOST_LINES }
        ensures tree { self.new ≡ with_branch self.old node cut (leaf_of low) (leaf_of high) }
        ensures whole { IsWhole self.new }
    {
        let branching = Branching { node, cut };
        branch_off(&mut self.branchings, &mut self.nodes, branching, low, high);
    }

    /// The lines of the tree in preorder. The one refusal is of memory.
    pub fn tree_lines(&self, alloc: Global) -> Result<Vec<TreeLine>, Memory>
        ensures lines { IfOk result (λ lines. map line_of lines.items ≡ preorder self.now.tree) }
        ensures whole { IsWhole self.now }
    {
        lines_of(alloc, &self.branchings, &self.nodes)
    }

    /// The nodes that have leaves, in the order of the tree's lines. The one refusal is of memory.
    pub fn leaf_nodes(&self, alloc: Global) -> Result<Vec<u32>, Memory>
        ensures paths { IfOk result
            (λ nodes. map (path_to self.now) nodes.items ≡ leaf_paths self.now.tree) }
        ensures leaves { IfOk result
            (λ nodes. All (λ node. IsSome (leaf_at self.now node)) nodes.items) }
        ensures whole { IsWhole self.now }
    {
        leaf_nodes(alloc, &self.branchings, &self.nodes)
    }
}
