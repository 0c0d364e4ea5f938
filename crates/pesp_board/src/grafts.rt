//! Whether the lines of a tree may stand in the place of a bound leaf.

ghost use Rattle.std.specs.Prelude.{◌≡◌, ◌↔◌, ◌≤ℤ◌, map, IsTrue, IfSome, OnOk};
ghost use Rattle.pesp_truth.specs.Trees.{Bound, Shut, Nothing, Gap, ByPropagation, EndLine, CutLine, line_of};
ghost use Rattle.pesp_nodes.specs.Problems.{IsNodeOf};
ghost use Rattle.pesp_board.specs.Parts.{part_line};
ghost use Rattle.pesp_board.specs.Grafting.{MakesPartOf, AreReached, AreJudgedParts, after_first, StandsFirst};

use crate::made_parts::{bound, closed, copy_of, is_gap, judged, leaves_both};
use crate::part::Part;
use crate::shut_node::is_shut_by_propagation;
use pesp_nodes::{Node, NodeWalk, Problem};
use pesp_problem::{Cut, Memory, Pair};
use pesp_tree::{GiveRefusal, Leaf};
use pesp_truth::TreeLine;
use std::alloc::Global;

/// Whether a value isn't below the worth, where there is one.
fn is_enough(value: i128, worth: Option<i128>) -> bool
    ensures { IsTrue result ↔ IfSome worth (λ w. w ≤ℤ value) }
{
    match worth {
        None => true,
        Some(worth) => worth <= value,
    }
}

/// A bound leaf, whose value isn't below the worth.
fn graft_bound(
    alloc: Global,
    problem: &Problem,
    node: &Node,
    worth: Option<i128>,
    pairs: &[Pair],
) -> Result<Part, GiveRefusal>
    requires { IsNodeOf problem.now node.now }
    ensures { MakesPartOf problem.now worth node.now (EndLine (Bound pairs.now)) result }
{
    match judged(problem, node, pairs, true) {
        Some(value) if is_enough(value, worth) => {
            let copy = copy_of(alloc, pairs)?;
            Ok(Part::Leaf(bound(copy, value)))
        }
        _ => Err(GiveRefusal::NotValid),
    }
}

/// A leaf of pairs that show that no timetable lies in the node.
fn graft_nothing(
    alloc: Global,
    problem: &Problem,
    node: &Node,
    worth: Option<i128>,
    pairs: &[Pair],
) -> Result<Part, GiveRefusal>
    requires { IsNodeOf problem.now node.now }
    ensures { MakesPartOf problem.now worth node.now (EndLine (Nothing pairs.now)) result }
{
    match judged(problem, node, pairs, false) {
        Some(value) if value > 0 => {
            let copy = copy_of(alloc, pairs)?;
            Ok(Part::Leaf(closed(Leaf::Nothing(copy))))
        }
        _ => Err(GiveRefusal::NotValid),
    }
}

/// A leaf of a cycle that has no offset left.
fn graft_gap(
    problem: &Problem,
    node: &Node,
    worth: Option<i128>,
    cycle: u32,
) -> Result<Part, GiveRefusal>
    requires { IsNodeOf problem.now node.now }
    ensures { MakesPartOf problem.now worth node.now (EndLine (Gap cycle)) result }
{
    if !is_gap(problem, node, cycle) {
        return Err(GiveRefusal::NotValid);
    }
    Ok(Part::Leaf(closed(Leaf::Gap(cycle))))
}

/// A leaf at a node that propagation shuts.
fn graft_propagated(
    alloc: Global,
    problem: &Problem,
    node: &Node,
    worth: Option<i128>,
) -> Result<Part, GiveRefusal>
    requires { IsNodeOf problem.now node.now }
    ensures { MakesPartOf problem.now worth node.now (EndLine (Shut ByPropagation)) result }
{
    if !is_shut_by_propagation(alloc, problem, node)? {
        return Err(GiveRefusal::NotValid);
    }
    Ok(Part::Leaf(closed(Leaf::Propagated)))
}

/// A cut that leaves both sides of its range a value.
fn graft_cut(
    problem: &Problem,
    node: &Node,
    worth: Option<i128>,
    cut: Cut,
) -> Result<Part, GiveRefusal>
    requires { IsNodeOf problem.now node.now }
    ensures { MakesPartOf problem.now worth node.now (CutLine cut) result }
{
    if !leaves_both(problem, node, cut) {
        return Err(GiveRefusal::NotValid);
    }
    Ok(Part::Cut(cut))
}

/// The part that a line makes at a node; refused as `NotValid` where the line may not stand there.
fn graft_line(
    alloc: Global,
    problem: &Problem,
    node: &Node,
    worth: Option<i128>,
    line: &TreeLine,
) -> Result<Part, GiveRefusal>
    requires { IsNodeOf problem.now node.now }
    ensures { MakesPartOf problem.now worth node.now (line_of line.now) result }
{
    match line {
        TreeLine::Slack { row, k } => {
            graft_cut(problem, node, worth, Cut::Slack { row: *row, k: *k })
        }
        TreeLine::Offset { cycle, k } => {
            let cut = Cut::Offset {
                cycle: *cycle,
                k: *k,
            };
            graft_cut(problem, node, worth, cut)
        }
        TreeLine::Bound(pairs) => graft_bound(alloc, problem, node, worth, pairs.as_slice()),
        TreeLine::Nothing(pairs) => graft_nothing(alloc, problem, node, worth, pairs.as_slice()),
        TreeLine::Gap(cycle) => graft_gap(problem, node, worth, *cycle),
        TreeLine::Propagated => graft_propagated(alloc, problem, node, worth),
    }
}

/// Goes on to the node of the next part.
pub(crate) fn pass(walk: &mut NodeWalk, part: &Part) -> Result<(), Memory>
    requires { StandsFirst walk.old part.now }
    ensures { OnOk result (walk.new ≡ after_first (part_line part.now) walk.old) }
{
    match part {
        Part::Cut(cut) => walk.branch(*cut),
        Part::Leaf(_) => {
            walk.leaf();
            Ok(())
        }
    }
}

/// The parts that lines make of a bound leaf of this worth, or of one without a worth, at nodes that paths lead to; refused as
/// `NotValid` where they aren't whole trees that may stand there, one for each of the nodes.
pub(crate) fn judge_lines(
    alloc: Global,
    problem: &Problem,
    walk: &mut NodeWalk,
    worth: Option<i128>,
    lines: &[TreeLine],
) -> Result<Vec<Part>, GiveRefusal>
    requires { AreReached problem.now walk.old }
    ensures { AreJudgedParts problem.now worth walk.old (map line_of lines.now) result }
{
    problem.keeps_limits();
    let mut parts = Vec::new(alloc);
    for line in lines {
        if walk.is_done() {
            return Err(GiveRefusal::NotValid);
        }
        let part = graft_line(alloc, problem, walk.node(), worth, line)?;
        pass(walk, &part)?;
        parts.push(part)?;
    }
    if !walk.is_done() {
        return Err(GiveRefusal::NotValid);
    }
    Ok(parts)
}
