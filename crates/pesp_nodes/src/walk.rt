//! A walk over the nodes of a tree that is told by its lines in preorder.

ghost use Rattle.std.specs.Prelude.{◌≡◌, ◌≢◌, ◌↔◌, IsTrue, List, [], ◌∷◌, true, length, reverse, drop, OnOk, OnErr};
ghost use Rattle.pesp_problem.specs.Nodes as spec;
ghost use Rattle.pesp_nodes.specs.Problems.{IsCutOf};
ghost use Rattle.pesp_problem.specs.Pending.{pending, waiting, branched};
ghost use Rattle.pesp_nodes.specs.Pending.{AreChanges, CutsFirst};

use crate::node::Node;
use pesp_problem::{Branch, Cut, Memory, Side};
use std::alloc::Global;
use std::marker::Model;

/// Goes to the first part of a cut.
fn enter(node: &mut Node, path: &mut Vec<Branch>, cut: Cut) -> Result<(), Memory>
    requires cut { IsCutOf node.old cut }
    requires path { AreChanges (length node.old.slacks) (length node.old.offsets) path.old.items }
    ensures path { AreChanges (length node.new.slacks) (length node.new.offsets) path.new.items }
    ensures parts { OnOk result (waiting true node.new path.new.items
        ≡ branched (waiting true node.old path.old.items) cut) }
    ensures same { OnErr result
        (waiting true node.new path.new.items ≡ waiting true node.old path.old.items) }
{
    path.push(Branch {
        change: node.change_of(cut),
        side: Side::Low,
    })?;
    node.cut(cut, Side::Low);
    Ok(())
}

/// Goes to the next part that is still to come; false where there is none.
fn next_part(node: &mut Node, path: &mut Vec<Branch>) -> bool
    requires { AreChanges (length node.old.slacks) (length node.old.offsets) path.old.items }
    ensures path { AreChanges (length node.new.slacks) (length node.new.offsets) path.new.items }
    ensures parts { waiting result node.new path.new.items
        ≡ pending node.old (reverse path.old.items) }
{
    while !path.is_empty() {
        let top = path.len() - 1;
        let last = path[top];
        node.put_back(last.change);
        match last.side {
            Side::High => path.truncate(top),
            Side::Low => {
                node.cut(last.change.to_cut(), Side::High);
                path[top] = Branch {
                    change: last.change,
                    side: Side::High,
                };
                return true;
            }
        }
    }
    false
}

/// A walk over the nodes of a tree in the order of its lines: it keeps the present node and, for each branch on the way to it,
/// the one range that the branch changed. It is seen as the nodes that wait, the present one first.
#[derive(Drop)]
pub struct NodeWalk {
    node: Node,
    path: Vec<Branch>,
    is_open: bool,
}

impl Model for NodeWalk {
    ghost use Rattle.std.specs.Prelude.{List, length};
    ghost use Rattle.pesp_problem.specs.Nodes.{Node as Ranges};
    ghost use Rattle.pesp_problem.specs.Pending.{waiting};
    ghost use Rattle.pesp_nodes.specs.Pending.{AreChanges};

    ghost Value = { List Ranges };

    ghost view = { λ w. waiting w.is_open w.node w.path.items };

    ghost invariant = { λ w. AreChanges (length w.node.slacks) (length w.node.offsets)
        w.path.items };
}

impl NodeWalk {
    /// Begins at a node.
    pub fn new(alloc: Global, node: Node) -> NodeWalk
        ensures { result ≡ node ∷ [] }
    {
        NodeWalk {
            node,
            path: Vec::new(alloc),
            is_open: true,
        }
    }

    /// Whether no node waits.
    pub fn is_done(&self) -> bool
        ensures { IsTrue result ↔ (self.now ≡ []) }
    {
        !self.is_open
    }

    /// The present node.
    pub fn node(&self) -> &Node
        requires { self.now ≢ [] }
        ensures { (rest : List spec.Node) × (self.now ≡ result.now ∷ rest) }
    {
        &self.node
    }

    /// Cuts the present node: its first part is the present node then, and its second part waits next. After a refused growth
    /// nothing has changed.
    pub fn branch(&mut self, cut: Cut) -> Result<(), Memory>
        requires { CutsFirst self.old cut }
        ensures parts { OnOk result (self.new ≡ branched self.old cut) }
        ensures same { OnErr result (self.new ≡ self.old) }
    {
        enter(&mut self.node, &mut self.path, cut)
    }

    /// Ends the present node: the one that waits next is the present node then.
    pub fn leaf(&mut self)
        requires { self.old ≢ [] }
        ensures { self.new ≡ drop 1 self.old }
    {
        self.is_open = next_part(&mut self.node, &mut self.path);
    }
}
