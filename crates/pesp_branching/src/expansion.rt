//! A cut with the best leaf that is found on either side.

ghost use Rattle.std.specs.Prelude.{◌≡◌, length, IfOk, IfSome};
ghost use Rattle.pesp_problem.specs.Nodes.{part};
ghost use Rattle.pesp_truth.specs.Trees.{EndLine, CutLine, CutExists, line_of};
ghost use Rattle.pesp_nodes.specs.Problems.{problem_net, IsNodeOf, IsCutOf, ArePairs};
ghost use Rattle.pesp_bound.specs.Leaves.{IsLeafOf, IsNoLess};
ghost use Rattle.pesp_branching.specs.Expanding.{leaf_that_is_found, IsLeafLine, IsStepOf, IsFoundLine, IsExpanded};

use crate::choice::Choice;
use crate::part_leaf::leaf_of_part;
use pesp_board::is_shut_by_propagation;
use pesp_bound::{Leaf, best_leaf_from};
use pesp_nodes::{Node, Pairs, Problem, offset_range};
use pesp_problem::{Cut, Memory, Pair, Side};
use pesp_strategy::PartPairs;
use pesp_truth::TreeLine;
use std::alloc::Global;

/// How many pivots look for the leaf of a part, from the pairs of the leaf above it.
const ROUNDS: u32 = 100;

/// The line of a leaf.
pub fn leaf_line(leaf: Leaf) -> TreeLine
    ensures { line_of result ≡ EndLine (leaf_that_is_found leaf) }
{
    match leaf {
        Leaf::Gap { cycle } => TreeLine::Gap(cycle),
        Leaf::Nothing { pairs } => TreeLine::Nothing(pairs),
        Leaf::Bound { pairs, .. } => TreeLine::Bound(pairs),
    }
}

/// The line of a cut.
fn cut_line(cut: Cut) -> TreeLine
    ensures { line_of result ≡ CutLine cut }
{
    match cut {
        Cut::Slack { row, k } => TreeLine::Slack { row, k },
        Cut::Offset { cycle, k } => TreeLine::Offset { cycle, k },
    }
}

/// Whether a cut of offsets leaves its cycle an offset in both parts; never so for a cut of slacks.
fn leaves_offsets(problem: &Problem, node: &Node, cut: Cut) -> bool
    requires node { IsNodeOf problem.now node.now }
    requires cut { IsCutOf node.now cut }
{
    let Cut::Offset { cycle, k } = cut else {
        return false;
    };
    match offset_range(problem, node, cycle) {
        Some((low, high)) => low <= k && k < high,
        None => false,
    }
}

/// The line of what is proposed for a part.
fn part_line(alloc: Global, part: &PartPairs) -> Result<TreeLine, Memory>
    ensures { IfOk result IsLeafLine }
{
    let pairs = Pairs::new(part.pairs.to_vec(alloc)?);
    if part.is_endless {
        Ok(TreeLine::Nothing(pairs))
    } else {
        Ok(TreeLine::Bound(pairs))
    }
}

/// The lines of a cut with what is proposed for either side, which aren't judged yet. None where something isn't proposed for
/// both sides, or one of them is closed by the cycle that is cut.
pub fn proposed_lines(
    alloc: Global,
    problem: &Problem,
    node: &Node,
    choice: &Choice,
) -> Result<Option<Vec<TreeLine>>, Memory>
    requires node { IsNodeOf problem.now node.now }
    requires cut { IsCutOf node.now choice.now.cut }
    ensures { IfOk result
        (λ found. IfSome found (λ lines. IsStepOf choice.now.cut lines.items)) }
{
    let Some(low) = &choice.low else {
        return Ok(None);
    };
    let Some(high) = &choice.high else {
        return Ok(None);
    };
    if !leaves_offsets(problem, node, choice.cut) {
        return Ok(None);
    }
    let mut lines = Vec::new(alloc);
    lines.push(cut_line(choice.cut))?;
    lines.push(part_line(alloc, low)?)?;
    lines.push(part_line(alloc, high)?)?;
    Ok(Some(lines))
}

/// The leaf of a part: the one that is proposed for it where it is one, else the best that is found.
fn leaf_at(
    alloc: Global,
    problem: &Problem,
    node: &Node,
    start: &[Pair],
    part: Option<PartPairs>,
) -> Result<Leaf, Memory>
    requires node { IsNodeOf problem.now node.now }
    requires start { ArePairs (length problem.now.table) start.now }
    ensures leaf { IfOk result (IsLeafOf problem.now node.now) }
    ensures start { IfOk result (IsNoLess problem.now node.now start.now) }
{
    if let Some(part) = part {
        if let Some(leaf) = leaf_of_part(problem, node, start, part) {
            return Ok(leaf);
        }
    }
    best_leaf_from(alloc, problem, node, start, ROUNDS)
}

/// Whether a cut makes a slack range smaller: propagation sees no other cut.
fn narrows(cut: &Cut) -> bool {
    match cut {
        Cut::Slack { .. } => true,
        Cut::Offset { .. } => false,
    }
}

/// The line of the leaf at a part of a cut: where the cut made a slack range smaller, propagation is tried first.
fn found_at(
    alloc: Global,
    problem: &Problem,
    node: &Node,
    cut: &Cut,
    start: &[Pair],
    part: Option<PartPairs>,
) -> Result<TreeLine, Memory>
    requires node { IsNodeOf problem.now node.now }
    requires start { ArePairs (length problem.now.table) start.now }
    ensures { IfOk result (IsFoundLine problem.now start.now node.now) }
{
    if narrows(cut) && is_shut_by_propagation(alloc, problem, node)? {
        return Ok(TreeLine::Propagated);
    }
    let leaf = leaf_at(alloc, problem, node, start, part)?;
    Ok(leaf_line(leaf))
}

/// The lines of a cut at a node, with the leaf that is proposed or found on either side, never worth less there than the
/// pairs of the leaf at the node.
pub fn expand(
    alloc: Global,
    problem: &Problem,
    node: Node,
    choice: Choice,
    start: &[Pair],
) -> Result<Vec<TreeLine>, Memory>
    requires node { IsNodeOf problem.now node }
    requires cut { IsCutOf node choice.cut }
    requires start { ArePairs (length problem.now.table) start.now }
    ensures { IfOk result (λ lines. IsExpanded problem.now start.now node choice.cut lines.items) }
{
    let Choice {
        cut,
        low: low_part,
        high: high_part,
    } = choice;
    let mut low = node.copy(alloc)?;
    low.cut(cut, Side::Low);
    let mut high = node;
    high.cut(cut, Side::High);
    let first = found_at(alloc, problem, &low, &cut, start, low_part)?;
    let second = found_at(alloc, problem, &high, &cut, start, high_part)?;
    let mut lines = Vec::new(alloc);
    lines.push(cut_line(cut))?;
    lines.push(first)?;
    lines.push(second)?;
    Ok(lines)
}
