//! The tree of a certificate, line by line.

ghost use Rattle.std.specs.Prelude.{◌≡◌, ◌≢◌, ◌↔◌, ℕ, ◌<◌, IsTrue, List, [], length, IfOk, IfNone};
ghost use Rattle.pesp_problem.specs.declared.row.SignedRow.{SignedRow};
ghost use Rattle.pesp_problem.specs.Arcs.{net_of};
ghost use Rattle.pesp_truth.specs.Trees.{Claim, CutLine, EndLine, Shut, ByPropagation};
ghost use Rattle.pesp_leaves.specs.Claims.{TellsOf, HasRoom};
ghost use Rattle.pesp_problem.specs.Nets.{AreZeros, AreNets};
ghost use Rattle.pesp_judges.specs.Lines.{after, IsLineVerdict, CutIsNamed, IsSmallCut};
ghost use Rattle.pesp_judges.specs.LeafLines.{leaf_said, KeepsLeafLimits};
ghost use Rattle.pesp_judges.specs.SaidLines.{line_said, KeepsSaidLimits};

use crate::leaf::{LeafLine, judge_leaf, names};
use crate::node_walk::NodeWalk;
use crate::refusal::Refusal;
use pesp_leaves::{Checker, Elements};
use pesp_problem::{Cut, Instance, Pair, Rates};
use std::alloc::{AllocError, Global};

/// A line of the tree as a text or a list says it: a branch, a leaf, or a leaf that propagation closes.
#[derive(Clone, Copy)]
pub enum SaidLine<P> {
    Branch(Cut),
    Leaf(LeafLine<P>),
    Propagated,
}

/// Whether the row or the cycle of a cut exists.
fn cut_exists(instance: &Instance, cycles: usize, cut: Cut) -> bool
    ensures { IsTrue result ↔ CutIsNamed (length instance.now.rows) cycles cut }
{
    match cut {
        Cut::Slack { row, .. } => names(instance.rows().len(), row),
        Cut::Offset { cycle, .. } => names(cycles, cycle),
    }
}

/// Takes a branch: it is judged at the first of the nodes that wait, and its two parts wait in place of it then.
fn take_branch(
    checker: &Checker<'_>,
    walk: &mut NodeWalk<'_>,
    cut: Cut,
    line: u64,
) -> Result<Option<Refusal>, AllocError>
    requires problem { walk.old.problem ≡ checker.now.instance.now }
    requires cycles { walk.old.cycles ≡ length checker.now.table.now }
    requires open { walk.old.nodes ≢ [] }
    requires limits { IsSmallCut cut }
    ensures problem { walk.new.problem ≡ checker.now.instance.now }
    ensures cycles { walk.new.cycles ≡ length checker.now.table.now }
    ensures verdict { IfOk result (λ found. (walks : List (List SignedRow)) (claim : Claim)
        → AreNets (length checker.now.instance.now.rows) walks checker.now.table.now
        → IsLineVerdict claim (net_of checker.now.instance.now) walks (CutLine cut) walk.old.nodes
        walk.new.nodes line found) }
    ensures nodes { IfOk result
        (λ found. IfNone found (walk.new.nodes ≡ after (CutLine cut) walk.old.nodes)) }
{
    if !cut_exists(checker.instance, checker.table.len(), cut) {
        return Ok(Some(Refusal::NoSuch { line }));
    }
    walk.branch(cut)?;
    Ok(None)
}

/// Takes a leaf: it is judged at the first of the nodes that wait, and the next one is the first then.
fn take_leaf<P: Elements<Pair>>(
    checker: &Checker<'_>,
    walk: &mut NodeWalk<'_>,
    leaf: LeafLine<P>,
    line: u64,
    flows: &mut [i128],
    rates: &mut [Rates],
) -> Option<Refusal>
    requires problem { walk.old.problem ≡ checker.now.instance.now }
    requires cycles { walk.old.cycles ≡ length checker.now.table.now }
    requires open { walk.old.nodes ≢ [] }
    requires limits { KeepsLeafLimits P.elements leaf }
    requires long { length flows.old ≡ length checker.now.instance.now.rows }
    requires room { HasRoom checker.now.claim (length checker.now.instance.now.rows) (length rates.old) }
    requires zeros { AreZeros flows.old }
    ensures problem { walk.new.problem ≡ checker.now.instance.now }
    ensures cycles { walk.new.cycles ≡ length checker.now.table.now }
    ensures verdict { (walks : List (List SignedRow)) (claim : Claim)
        → AreNets (length checker.now.instance.now.rows) walks checker.now.table.now
        → TellsOf checker.now.claim claim → IsLineVerdict claim (net_of checker.now.instance.now) walks
        (EndLine (leaf_said P.elements leaf)) walk.old.nodes walk.new.nodes line result }
    ensures nodes { IfNone result
        (walk.new.nodes ≡ after (EndLine (leaf_said P.elements leaf)) walk.old.nodes) }
    ensures zeros { AreZeros flows.new }
{
    let found = judge_leaf(checker, walk.ranges(), leaf, line, flows, rates);
    walk.leaf();
    found
}

/// Takes a leaf that propagation closes: it is judged at the first of the nodes that wait, and the next one is the first
/// then.
fn take_propagated(
    alloc: Global,
    walk: &mut NodeWalk<'_>,
    line: u64,
) -> Result<Option<Refusal>, AllocError>
    requires open { walk.old.nodes ≢ [] }
    ensures problem { walk.new.problem ≡ walk.old.problem }
    ensures cycles { walk.new.cycles ≡ walk.old.cycles }
    ensures verdict { IfOk result (λ found. (claim : Claim) (walks : List (List SignedRow))
        → IsLineVerdict claim (net_of walk.old.problem) walks (EndLine (Shut ByPropagation))
        walk.old.nodes walk.new.nodes line found) }
    ensures nodes { IfOk result (λ found. IfNone found
        (walk.new.nodes ≡ after (EndLine (Shut ByPropagation)) walk.old.nodes)) }
{
    let shut = walk.is_shut(alloc)?;
    walk.leaf();
    if shut {
        return Ok(None);
    }
    Ok(Some(Refusal::NotPropagated { line }))
}

/// Takes a line of the tree: what is wrong with it at the first of the nodes that wait. The next nodes wait then. The flows, one a
/// row, are 0 before and after.
pub fn take_line<P: Elements<Pair>>(
    alloc: Global,
    checker: &Checker<'_>,
    walk: &mut NodeWalk<'_>,
    said: SaidLine<P>,
    line: u64,
    flows: &mut [i128],
    rates: &mut [Rates],
) -> Result<Option<Refusal>, AllocError>
    requires problem { walk.old.problem ≡ checker.now.instance.now }
    requires cycles { walk.old.cycles ≡ length checker.now.table.now }
    requires open { walk.old.nodes ≢ [] }
    requires limits { KeepsSaidLimits P.elements said }
    requires long { length flows.old ≡ length checker.now.instance.now.rows }
    requires room { HasRoom checker.now.claim (length checker.now.instance.now.rows) (length rates.old) }
    requires zeros { AreZeros flows.old }
    ensures problem { walk.new.problem ≡ checker.now.instance.now }
    ensures cycles { walk.new.cycles ≡ length checker.now.table.now }
    ensures verdict { IfOk result (λ found. (walks : List (List SignedRow)) (claim : Claim)
        → AreNets (length checker.now.instance.now.rows) walks checker.now.table.now
        → TellsOf checker.now.claim claim → IsLineVerdict claim (net_of checker.now.instance.now) walks
        (line_said P.elements said) walk.old.nodes walk.new.nodes line found) }
    ensures nodes { IfOk result (λ found. IfNone found
        (walk.new.nodes ≡ after (line_said P.elements said) walk.old.nodes)) }
    ensures zeros { AreZeros flows.new }
{
    match said {
        SaidLine::Branch(cut) => take_branch(checker, walk, cut, line),
        SaidLine::Leaf(leaf) => Ok(take_leaf(checker, walk, leaf, line, flows, rates)),
        SaidLine::Propagated => take_propagated(alloc, walk, line),
    }
}
