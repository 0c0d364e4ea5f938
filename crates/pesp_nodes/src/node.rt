//! Nodes: the slacks and offsets that are still allowed.

ghost use Rattle.std.specs.Prelude.{◌≡◌, ℕ, ◌-◌, ◌≤◌, List, length, unsigned_abs, IfOk};
ghost use Rattle.pesp_problem.specs.declared.limits.TheConstants.{MOST_OFFSET, MOST_SLACK};
ghost use Rattle.pesp_problem.specs.Nodes as spec;
ghost use Rattle.pesp_problem.specs.Nodes.{part};
ghost use Rattle.pesp_problem.specs.Ranges.{AreSlackEnds, cut_slack, cut_offset};
ghost use Rattle.pesp_nodes.specs.Offsets.{IsOffsetEnds, AreOffsetEnds};
ghost use Rattle.pesp_nodes.specs.Problems.{ProblemValue, IsNodeOf, IsCutOf};
ghost use Rattle.pesp_problem.specs.Pending.{change_of, restored};
ghost use Rattle.pesp_nodes.specs.Pending.{IsChange};

use pesp_problem::{Change, Cut, Memory, Side};
use std::alloc::Global;
use std::marker::Model;

/// A range of slacks for each row, modulo the period, and a range of offsets for each cycle, with both ends in them. A range
/// whose low end is above its high end is empty.
#[derive(Drop)]
pub struct Node {
    slacks: Vec<(u32, u32)>,
    offsets: Vec<(i64, i64)>,
}

impl Model for Node {
    ghost use Rattle.pesp_problem.specs.Nodes.{Node as Ranges};
    ghost use Rattle.pesp_problem.specs.Ranges.{AreSlackEnds};
    ghost use Rattle.pesp_nodes.specs.Offsets.{AreOffsetEnds};

    ghost Value = { Ranges };

    ghost view = { λ n. record { slacks = n.slacks.items; offsets = n.offsets.items } };

    ghost invariant = { λ n. AreSlackEnds n.slacks.items × AreOffsetEnds n.offsets.items };
}

/// A part of a slack range that is cut at k.
fn cut_slack(slacks: (u32, u32), k: u32, side: Side) -> (u32, u32)
    requires { k ≤ MOST_SLACK }
    ensures { result ≡ cut_slack slacks k side }
{
    match side {
        Side::Low => (slacks.0, slacks.1.min(k)),
        Side::High => (slacks.0.max(k + 1), slacks.1),
    }
}

/// A part of an offset range that is cut at k.
fn cut_offset(offsets: (i64, i64), k: i64, side: Side) -> (i64, i64)
    requires { unsigned_abs k ≤ MOST_OFFSET }
    ensures part { result ≡ cut_offset offsets k side }
    ensures ends { IsOffsetEnds offsets → IsOffsetEnds result }
{
    match side {
        Side::Low => (offsets.0, offsets.1.min(k)),
        Side::High => (offsets.0.max(k + 1), offsets.1),
    }
}

impl Node {
    /// The node of these ranges.
    pub(crate) fn new(slacks: Vec<(u32, u32)>, offsets: Vec<(i64, i64)>) -> Node
        requires slacks { AreSlackEnds slacks.items }
        requires offsets { AreOffsetEnds offsets.items }
        ensures { result ≡ record { slacks = slacks.items; offsets = offsets.items } }
    {
        Node { slacks, offsets }
    }

    /// The same node once more. The one refusal is of memory.
    pub fn copy(&self, alloc: Global) -> Result<Node, Memory>
        ensures { IfOk result (λ node. node ≡ self.now) }
    {
        let slacks = self.slacks.as_slice().to_vec(alloc)?;
        let offsets = self.offsets.as_slice().to_vec(alloc)?;
        Ok(Node::new(slacks, offsets))
    }

    /// The slack range of each row, in the instance's own unit.
    pub fn slacks(&self) -> &[(u32, u32)]
        ensures slacks { result.now ≡ self.now.slacks }
        ensures ends { AreSlackEnds self.now.slacks }
    {
        &self.slacks
    }

    /// The offset range of each cycle. A cut of an offset range that leaves both sides a value keeps the limit of a cut.
    pub fn offsets(&self) -> &[(i64, i64)]
        ensures offsets { result.now ≡ self.now.offsets }
        ensures ends { AreOffsetEnds self.now.offsets }
    {
        &self.offsets
    }

    /// Goes to a part of a branch: `Low` lowers the upper end of the cut range to at most `k`, `High` raises its lower end to
    /// at least `k + 1`. Nothing else changes.
    pub fn cut(&mut self, cut: Cut, side: Side)
        requires { IsCutOf self.old cut }
        ensures part { self.new ≡ part self.old cut side }
        ensures keeps { (p : ProblemValue) → IsNodeOf p self.old → IsNodeOf p self.new }
    {
        match cut {
            Cut::Slack { row, k } => {
                let place = row as usize - 1;
                self.slacks[place] = cut_slack(self.slacks[place], k, side);
            }
            Cut::Offset { cycle, k } => {
                let place = cycle as usize - 1;
                self.offsets[place] = cut_offset(self.offsets[place], k, side);
            }
        }
    }
    /// What a cut is going to change.
    pub(crate) fn change_of(&self, cut: Cut) -> Change
        requires { IsCutOf self.now cut }
        ensures change { result ≡ change_of self.now cut }
        ensures limits { IsChange (length self.now.slacks) (length self.now.offsets) result }
    {
        match cut {
            Cut::Slack { row, k } => Change::Slack {
                row,
                k,
                was: self.slacks[row as usize - 1],
            },
            Cut::Offset { cycle, k } => Change::Offset {
                cycle,
                k,
                was: self.offsets[cycle as usize - 1],
            },
        }
    }

    /// Puts a changed range back.
    pub(crate) fn put_back(&mut self, change: Change)
        requires { IsChange (length self.old.slacks) (length self.old.offsets) change }
        ensures node { self.new ≡ restored self.old change }
        ensures rows { length self.new.slacks ≡ length self.old.slacks }
        ensures cycles { length self.new.offsets ≡ length self.old.offsets }
    {
        match change {
            Change::Slack { row, was, .. } => self.slacks[row as usize - 1] = was,
            Change::Offset { cycle, was, .. } => self.offsets[cycle as usize - 1] = was,
        }
    }
}
