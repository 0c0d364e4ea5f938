//! What a work makes of a bound leaf at a node, judged before anything changes.

ghost use Rattle.std.specs.Prelude.{List, ◌≡◌, ℤ, ◌↔◌, ◌-◌, ◌<◌, ◌+ℤ◌, ◌≤ℤ◌, ◌<ℤ◌, pos, length, true, false, Some, None, IsTrue, IsNone, IsSomeAnd, IfOk, MatchOption};
ghost use Rattle.pesp_problem.specs.declared.pair.Pair.{Pair};
ghost use Rattle.pesp_problem.specs.Walks.{Names};
ghost use Rattle.pesp_problem.specs.Nodes as spec;
ghost use Rattle.pesp_problem.specs.Nodes.{part, offsets_left, LeavesBoth};
ghost use Rattle.pesp_truth.specs.Trees.{Bound, ByGap, CutExists};
ghost use Rattle.pesp_nodes.specs.Problems.{problem_net, IsNodeOf, IsCutOf, ArePairs};
ghost use Rattle.pesp_tree.specs.Leaves.{leaf_of};
ghost use Rattle.pesp_tree.specs.declared.work.Work.TheVariants as works;
ghost use Rattle.pesp_tree.specs.BoardLeaves.{told};
ghost use Rattle.pesp_tree.specs.States.{node_at};
ghost use Rattle.pesp_tree.specs.Events.{Uses, Keeps, MayShut};
ghost use Rattle.pesp_board.specs.Parts.{IsValued};
ghost use Rattle.pesp_board.specs.Grafting.{IsReached};
ghost use Rattle.pesp_board.specs.Giving.{AreCuts, HaveValue, MakesOf};

use crate::along::node_along;
use crate::grafts::judge_lines;
use crate::part::{Made, Valued};
use crate::shut_node::is_shut_by_propagation;
use pesp_nodes::{Node, NodeWalk, Problem, are_pairs, leaf_value, offset_range};
use pesp_problem::{Cut, Memory, Pair, Pairs, Side};
use pesp_tree::{GiveRefusal, Leaf, Work};
use pesp_truth::TreeLine;
use std::alloc::Global;

/// A value as it is told.
fn tell(value: i128) -> u64
    ensures { result ≡ told value }
{
    if value < 0 {
        return 0;
    }
    value.min(999_999_999_999_999_999) as u64
}

/// A bound leaf of this value.
pub(crate) fn bound(pairs: Pairs, value: i128) -> Valued
    ensures leaf { leaf_of result.leaf ≡ Bound pairs }
    ensures value { result.value ≡ Some (told value) }
{
    Valued {
        leaf: Leaf::Bound(pairs),
        value: Some(tell(value)),
    }
}

/// A leaf that no node waits with.
pub(crate) fn closed(leaf: Leaf) -> Valued
    ensures leaf { result.leaf ≡ leaf }
    ensures value { result.value ≡ None }
{
    Valued { leaf, value: None }
}

/// The same pairs once more.
pub(crate) fn copy_of(alloc: Global, pairs: &[Pair]) -> Result<Pairs, Memory>
    ensures { IfOk result (λ copy. copy ≡ pairs.now) }
{
    Ok(Pairs::new(pairs.to_vec(alloc)?))
}

/// The value of pairs at a node; None where they don't rise, break a limit or have no value there.
pub(crate) fn judged(problem: &Problem, node: &Node, pairs: &[Pair], weighted: bool) -> Option<i128>
    requires { IsNodeOf problem.now node.now }
    ensures { MatchOption result ((v : ℤ) → HaveValue problem.now node.now pairs.now weighted v → ⊥)
        (HaveValue problem.now node.now pairs.now weighted) }
{
    if !are_pairs(pairs, problem.table().len()) {
        return None;
    }
    leaf_value(problem, node, pairs, weighted)
}

/// Pairs for a bound: those of the greater value, the old ones where both are equal.
fn make_bound(
    alloc: Global,
    problem: &Problem,
    node: &Node,
    old: &[Pair],
    pairs: &[Pair],
) -> Result<Made, GiveRefusal>
    requires node { IsNodeOf problem.now node.now }
    requires old { ArePairs (length problem.now.table) old.now }
    ensures { MakesOf problem.now node.now old.now (works.Leaf pairs.now) result }
{
    let Some(value) = judged(problem, node, pairs, true) else {
        return Err(GiveRefusal::NotValid);
    };
    match leaf_value(problem, node, old, true) {
        Some(kept) if value <= kept => Ok(Made::Leaf(bound(copy_of(alloc, old)?, kept))),
        _ => Ok(Made::Leaf(bound(copy_of(alloc, pairs)?, value))),
    }
}

/// Pairs that show that no timetable lies in the node.
fn make_nothing(
    alloc: Global,
    problem: &Problem,
    node: &Node,
    pairs: &Pairs,
) -> Result<Made, GiveRefusal>
    requires { IsNodeOf problem.now node.now }
    ensures { (old : List Pair)
        → MakesOf problem.now node.now old (works.Nothing pairs.now) result }
{
    match judged(problem, node, pairs.as_slice(), false) {
        Some(value) if value > 0 => {
            let copy = copy_of(alloc, pairs.as_slice())?;
            Ok(Made::Leaf(closed(Leaf::Nothing(copy))))
        }
        _ => Err(GiveRefusal::NotValid),
    }
}

/// Whether a cycle exists and has no offset left at a node.
pub(crate) fn is_gap(problem: &Problem, node: &Node, cycle: u32) -> bool
    requires { IsNodeOf problem.now node.now }
    ensures { IsTrue result ↔ MayShut problem.now node.now (ByGap cycle) }
{
    if cycle == 0 || cycle as usize > problem.table().len() {
        return false;
    }
    offset_range(problem, node, cycle).is_none()
}

/// A cycle that has no offset left.
fn make_gap(problem: &Problem, node: &Node, cycle: u32) -> Result<Made, GiveRefusal>
    requires { IsNodeOf problem.now node.now }
    ensures { (old : List Pair) → MakesOf problem.now node.now old (works.Gap cycle) result }
{
    if !is_gap(problem, node, cycle) {
        return Err(GiveRefusal::NotValid);
    }
    Ok(Made::Leaf(closed(Leaf::Gap(cycle))))
}

/// A node that propagation shuts.
fn make_propagated(alloc: Global, problem: &Problem, node: &Node) -> Result<Made, GiveRefusal>
    requires { IsNodeOf problem.now node.now }
    ensures { (old : List Pair) → MakesOf problem.now node.now old works.Propagated result }
{
    if !is_shut_by_propagation(alloc, problem, node)? {
        return Err(GiveRefusal::NotValid);
    }
    Ok(Made::Leaf(closed(Leaf::Propagated)))
}

/// Whether both sides of a range that is cut at `k` have a value.
fn splits(range: &(i64, i64), k: &i64) -> bool
    ensures { IsTrue result ↔ ((range.now.0 ≤ℤ k.now) × ((k.now +ℤ pos 1) ≤ℤ range.now.1)) }
{
    range.0 <= *k && *k < range.1
}

/// Whether what a cut names exists, and both sides of the cut have a value of the range.
pub(crate) fn leaves_both(problem: &Problem, node: &Node, cut: Cut) -> bool
    requires { IsNodeOf problem.now node.now }
    ensures { IsTrue result
        ↔ (CutExists (problem_net problem.now) problem.now.table cut × LeavesBoth node.now cut) }
{
    match cut {
        Cut::Slack { row, k } => {
            if row == 0 || row as usize > problem.arcs().len() {
                return false;
            }
            let range = node.slacks()[row as usize - 1];
            range.0 <= k && k < range.1
        }
        Cut::Offset { cycle, k } => {
            if cycle == 0 || cycle as usize > problem.table().len() {
                return false;
            }
            splits(&node.offsets()[cycle as usize - 1], &k)
        }
    }
}

/// The first of the pairs' cycles that has no offset left, where they have no value.
fn first_gap(problem: &Problem, node: &Node, pairs: &[Pair]) -> u32
    requires node { IsNodeOf problem.now node.now }
    requires pairs { ArePairs (length problem.now.table) pairs.now }
    requires none { spec.leaf_value (problem_net problem.now) problem.now.table node.now pairs.now true
        ≡ None }
    ensures uses { Uses pairs.now result }
    ensures gap { IsNone
        (offsets_left (problem_net problem.now) problem.now.table node.now (result - 1)) }
{
    for pair in pairs {
        if offset_range(problem, node, pair.cycle).is_none() {
            return pair.cycle;
        }
    }
    unreachable!()
}

/// What a node keeps of pairs: a bound leaf with them, or a gap where one of their cycles has no offset left.
fn kept_at(alloc: Global, problem: &Problem, node: &Node, pairs: &[Pair]) -> Result<Valued, Memory>
    requires node { IsNodeOf problem.now node.now }
    requires pairs { ArePairs (length problem.now.table) pairs.now }
    ensures keeps { IfOk result (λ kept. Keeps problem.now pairs.now node.now (leaf_of kept.leaf)) }
    ensures valued { IfOk result (IsValued problem.now node.now) }
{
    match leaf_value(problem, node, pairs, true) {
        Some(value) => Ok(bound(copy_of(alloc, pairs)?, value)),
        None => Ok(closed(Leaf::Gap(first_gap(problem, node, pairs)))),
    }
}

/// What a part of a node keeps of pairs.
fn kept_part(
    alloc: Global,
    problem: &Problem,
    node: Node,
    cut: Cut,
    side: Side,
    pairs: &[Pair],
) -> Result<Valued, Memory>
    requires node { IsNodeOf problem.now node }
    requires cut { IsCutOf node cut }
    requires pairs { ArePairs (length problem.now.table) pairs.now }
    ensures keeps { IfOk result
        (λ kept. Keeps problem.now pairs.now (part node cut side) (leaf_of kept.leaf)) }
    ensures valued { IfOk result (IsValued problem.now (part node cut side)) }
{
    let mut at = node;
    at.cut(cut, side);
    kept_at(alloc, problem, &at, pairs)
}

/// A branch with two leaves that keep the pairs.
fn make_branch(
    alloc: Global,
    problem: &Problem,
    path: &[(Cut, Side)],
    node: Node,
    old: &[Pair],
    cut: Cut,
) -> Result<Made, GiveRefusal>
    requires path { AreCuts problem.now path.now }
    requires node { IsNodeOf problem.now node }
    requires at { node ≡ node_at problem.now path.now }
    requires old { ArePairs (length problem.now.table) old.now }
    ensures { MakesOf problem.now node old.now (works.Split cut) result }
{
    problem.keeps_limits();
    if !leaves_both(problem, &node, cut) {
        return Err(GiveRefusal::NotValid);
    }
    let low = kept_part(alloc, problem, node, cut, Side::Low, old)?;
    let again = node_along(alloc, problem, path)?;
    let high = kept_part(alloc, problem, again, cut, Side::High, old)?;
    Ok(Made::Branch { cut, low, high })
}

/// A whole tree, whose bound leaves aren't below the leaf.
fn make_tree(
    alloc: Global,
    problem: &Problem,
    node: Node,
    old: &[Pair],
    lines: &Vec<TreeLine>,
) -> Result<Made, GiveRefusal>
    requires node { IsReached problem.now node }
    requires old { ArePairs (length problem.now.table) old.now }
    ensures { MakesOf problem.now node old.now (works.Tree lines.now) result }
{
    let worth = leaf_value(problem, &node, old, true);
    let mut walk = NodeWalk::new(alloc, node);
    let parts = judge_lines(alloc, problem, &mut walk, worth, lines)?;
    Ok(Made::Tree(parts))
}

/// What a work makes of a bound leaf with these pairs at the end of a path; refused as `NotValid` where it makes nothing.
pub(crate) fn make(
    alloc: Global,
    problem: &Problem,
    path: &[(Cut, Side)],
    old: &[Pair],
    work: &Work,
) -> Result<Made, GiveRefusal>
    requires path { AreCuts problem.now path.now }
    requires old { ArePairs (length problem.now.table) old.now }
    ensures { MakesOf problem.now (node_at problem.now path.now) old.now work.now result }
{
    let node = node_along(alloc, problem, path)?;
    match work {
        Work::Leaf(pairs) => make_bound(alloc, problem, &node, old, pairs.as_slice()),
        Work::Nothing(pairs) => make_nothing(alloc, problem, &node, pairs),
        Work::Gap(cycle) => make_gap(problem, &node, *cycle),
        Work::Propagated => make_propagated(alloc, problem, &node),
        Work::Split(cut) => make_branch(alloc, problem, path, node, old, *cut),
        Work::Tree(lines) => make_tree(alloc, problem, node, old, lines),
    }
}
