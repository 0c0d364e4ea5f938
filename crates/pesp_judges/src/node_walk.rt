//! A walk over the nodes of a tree that is told by its lines in preorder.

ghost use Rattle.std.specs.Prelude.{◌≡◌, ◌≢◌, ◌↔◌, IsTrue, List, [], ◌∷◌, true, length, reverse, drop, IfOk, OnOk, OnErr, None};
ghost use Rattle.pesp_problem.specs.declared.row.SignedRow.{SignedRow};
ghost use Rattle.pesp_problem.specs.Arcs.{net_of};
ghost use Rattle.pesp_truth.specs.Trees.{Plain, IsShut, ByPropagation};
ghost use Rattle.pesp_judges.specs.Propagations.{net_rows};
ghost use Rattle.pesp_problem.specs.Nodes.{Node};
ghost use Rattle.pesp_problem.specs.Ranges.{IsCut};
ghost use Rattle.pesp_leaves.specs.Ranges.{node_of, AreRanges};
ghost use Rattle.pesp_problem.specs.Pending.{pending, waiting, branched};
ghost use Rattle.pesp_judges.specs.Pending.{AreChanges, Standing};

use crate::branch::{change_of, put_back};
use crate::propagation::shuts;
use pesp_leaves::{Ranges, take_part};
use pesp_problem::{Branch, Cut, Instance, Side};
use pesp_truth::Support;
use std::alloc::{AllocError, Global};
use std::marker::Model;

/// Goes to the first part of a cut.
fn enter(
    instance: &Instance,
    ranges: &mut Ranges,
    path: &mut Vec<Branch>,
    cut: Cut,
) -> Result<(), AllocError>
    requires ranges { AreRanges instance.now ranges.old }
    requires cut { IsCut (length instance.now.rows) (length ranges.old.offsets.items) cut }
    requires path { AreChanges (length instance.now.rows) (length ranges.old.offsets.items)
        path.old.items }
    ensures ranges { AreRanges instance.now ranges.new }
    ensures cycles { length ranges.new.offsets.items ≡ length ranges.old.offsets.items }
    ensures path { AreChanges (length instance.now.rows) (length ranges.old.offsets.items)
        path.new.items }
    ensures parts { OnOk result (waiting true (node_of ranges.new) path.new.items
        ≡ branched (waiting true (node_of ranges.old) path.old.items) cut) }
    ensures same { OnErr result (waiting true (node_of ranges.new) path.new.items
        ≡ waiting true (node_of ranges.old) path.old.items) }
{
    path.push(Branch {
        change: change_of(ranges, cut),
        side: Side::Low,
    })?;
    take_part(instance, ranges, cut, Side::Low);
    Ok(())
}

/// Goes to the next part that is still to come; false where there is none.
fn next_part(instance: &Instance, ranges: &mut Ranges, path: &mut Vec<Branch>) -> bool
    requires ranges { AreRanges instance.now ranges.old }
    requires path { AreChanges (length instance.now.rows) (length ranges.old.offsets.items)
        path.old.items }
    ensures ranges { AreRanges instance.now ranges.new }
    ensures cycles { length ranges.new.offsets.items ≡ length ranges.old.offsets.items }
    ensures path { AreChanges (length instance.now.rows) (length ranges.old.offsets.items)
        path.new.items }
    ensures parts { waiting result (node_of ranges.new) path.new.items
        ≡ pending (node_of ranges.old) (reverse path.old.items) }
{
    while !path.is_empty() {
        let top = path.len() - 1;
        let last = path[top];
        put_back(instance, ranges, last.change);
        match last.side {
            Side::High => path.truncate(top),
            Side::Low => {
                take_part(instance, ranges, last.change.to_cut(), Side::High);
                path[top] = Branch {
                    change: last.change,
                    side: Side::High,
                };
                return true;
            }
        }
    }
    false
}

/// The pass of propagation over an instance.
fn pass_of(alloc: Global, instance: &Instance) -> Result<Support, AllocError>
    ensures { IfOk result (λ pass. pass ≡ net_rows instance.now) }
{
    match Support::of(alloc, instance) {
        Ok(pass) => Ok(pass),
        Err(_refused) => Err(AllocError),
    }
}

/// A walk over the nodes of a tree in the order of its lines: it keeps the present node's ranges and, for each branch on the
/// way to it, the one range that the branch changed. The pass of propagation is made ready where it is asked first.
#[derive(Drop)]
pub struct NodeWalk<'a> {
    instance: &'a Instance,
    ranges: Ranges,
    path: Vec<Branch>,
    pass: Option<Support>,
    is_open: bool,
}

impl<'a> Model for NodeWalk<'a> {
    ghost use Rattle.std.specs.Prelude.{length};
    ghost use Rattle.pesp_leaves.specs.Ranges.{node_of, AreRanges};
    ghost use Rattle.std.specs.Prelude.{◌≡◌};
    ghost use Rattle.std.specs.Option.{ForSome};
    ghost use Rattle.pesp_problem.specs.Pending.{waiting};
    ghost use Rattle.pesp_judges.specs.Pending.{AreChanges, Standing};
    ghost use Rattle.pesp_judges.specs.Propagations.{net_rows};

    ghost Value = { Standing };

    ghost view = { λ w. record {
      problem = w.instance.now;
      cycles = length w.ranges.offsets.items;
      nodes = waiting w.is_open (node_of w.ranges) w.path.items;
    } };

    ghost invariant = { λ w. AreRanges w.instance.now w.ranges
        × AreChanges (length w.instance.now.rows) (length w.ranges.offsets.items) w.path.items
        × ForSome w.pass (λ pass. pass ≡ net_rows w.instance.now) };
}

impl<'a> NodeWalk<'a> {
    /// Begins at a node with these ranges.
    pub fn new(alloc: Global, instance: &'a Instance, ranges: Ranges) -> NodeWalk<'a>
        requires { AreRanges instance.now ranges }
        ensures { result ≡ record {
          problem = instance.now;
          cycles = length ranges.offsets.items;
          nodes = node_of ranges ∷ [];
        } }
    {
        NodeWalk {
            instance,
            ranges,
            path: Vec::new(alloc),
            pass: None,
            is_open: true,
        }
    }

    /// Whether no node waits.
    pub fn is_done(&self) -> bool
        ensures { IsTrue result ↔ (self.now.nodes ≡ []) }
    {
        !self.is_open
    }

    /// The present node's ranges.
    pub fn ranges(&self) -> &Ranges
        requires { self.now.nodes ≢ [] }
        ensures nodes { (rest : List Node) × (self.now.nodes ≡ node_of result.now ∷ rest) }
        ensures ranges { AreRanges self.now.problem result.now }
        ensures cycles { length result.now.offsets.items ≡ self.now.cycles }
    {
        &self.ranges
    }

    /// Cuts the present node: its first part is the present node then, and its second part waits next. After a refused
    /// growth nothing has changed.
    pub fn branch(&mut self, cut: Cut) -> Result<(), AllocError>
        requires open { self.old.nodes ≢ [] }
        requires cut { IsCut (length self.old.problem.rows) self.old.cycles cut }
        ensures problem { self.new.problem ≡ self.old.problem }
        ensures cycles { self.new.cycles ≡ self.old.cycles }
        ensures parts { OnOk result (self.new.nodes ≡ branched self.old.nodes cut) }
        ensures same { OnErr result (self.new.nodes ≡ self.old.nodes) }
    {
        enter(self.instance, &mut self.ranges, &mut self.path, cut)
    }

    /// Whether propagation shuts the present node. `AllocError` only where a growth was refused.
    pub fn is_shut(&mut self, alloc: Global) -> Result<bool, AllocError>
        requires open { self.old.nodes ≢ [] }
        ensures problem { self.new.problem ≡ self.old.problem }
        ensures cycles { self.new.cycles ≡ self.old.cycles }
        ensures nodes { self.new.nodes ≡ self.old.nodes }
        ensures shut { IfOk result
            (λ shut. (node : Node) × (rest : List Node) × (self.old.nodes ≡ node ∷ rest)
            × ((walks : List (List SignedRow))
            → IsTrue shut ↔ IsShut (Plain None) (net_of self.old.problem) walks ByPropagation node)) }
    {
        let mut pass = match self.pass.take() {
            Some(pass) => pass,
            None => pass_of(alloc, self.instance)?,
        };
        let shut = shuts(self.instance, &mut pass, &self.ranges);
        self.pass = Some(pass);
        Ok(shut)
    }

    /// Ends the present node: the one that waits next is the present node then.
    pub fn leaf(&mut self)
        requires open { self.old.nodes ≢ [] }
        ensures problem { self.new.problem ≡ self.old.problem }
        ensures cycles { self.new.cycles ≡ self.old.cycles }
        ensures nodes { self.new.nodes ≡ drop 1 self.old.nodes }
    {
        self.is_open = next_part(self.instance, &mut self.ranges, &mut self.path);
    }
}
