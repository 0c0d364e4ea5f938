//! What is proposed for a part of a leaf, as a leaf.

ghost use Rattle.std.specs.Prelude.{◌≡◌, length, true, false, pos, ◌<ℤ◌, ◌≤ℤ◌, Some, None, IfSome, IsSomeAnd, IsTrue, MatchOption};
ghost use Rattle.pesp_problem.specs.Nodes as spec;
ghost use Rattle.pesp_truth.specs.Trees.{Plain, Gap, IsSoundLeaf};
ghost use Rattle.pesp_nodes.specs.Problems.{problem_net, IsNodeOf, ArePairs};
ghost use Rattle.pesp_bound.specs.Leaves.{IsLeafOf, IsNoLess};
ghost use Rattle.pesp_branching.specs.Settled.{HaveOffsetsLeft};

use pesp_bound::Leaf;
use pesp_nodes::{Node, Pairs, Problem, are_pairs, first_gap, leaf_value};
use pesp_problem::Pair;
use pesp_strategy::PartPairs;

/// The first cycle that has no offset left.
pub fn gap_at(problem: &Problem, node: &Node) -> Option<u32>
    requires { IsNodeOf problem.now node.now }
    ensures { MatchOption result (HaveOffsetsLeft (problem_net problem.now) problem.now.table node.now)
        (λ cycle. IsSoundLeaf (Plain None) (problem_net problem.now) problem.now.table (Gap cycle) node.now) }
{
    first_gap(problem, node)
}

/// Whether pairs show that no timetable lies in the node.
fn shows_nothing(problem: &Problem, node: &Node, pairs: &[Pair]) -> bool
    requires node { IsNodeOf problem.now node.now }
    requires pairs { ArePairs (length problem.now.table) pairs.now }
    ensures { IsTrue result → IsSomeAnd (spec.leaf_value (problem_net problem.now) problem.now.table
        node.now pairs.now false) (λ v. pos 0 <ℤ v) }
{
    match leaf_value(problem, node, pairs, false) {
        Some(value) => value > 0,
        None => false,
    }
}

/// The value of pairs, where they have one and the start isn't worth more.
fn value_from(problem: &Problem, node: &Node, start: &[Pair], pairs: &[Pair]) -> Option<i128>
    requires node { IsNodeOf problem.now node.now }
    requires start { ArePairs (length problem.now.table) start.now }
    requires pairs { ArePairs (length problem.now.table) pairs.now }
    ensures value { IfSome result (λ v. spec.leaf_value (problem_net problem.now) problem.now.table
        node.now pairs.now true ≡ Some v) }
    ensures start { IfSome result (λ v. IfSome
        (spec.leaf_value (problem_net problem.now) problem.now.table node.now start.now true)
        (λ w. w ≤ℤ v)) }
{
    let value = leaf_value(problem, node, pairs, true)?;
    match leaf_value(problem, node, start, true) {
        Some(least) if value < least => None,
        _ => Some(value),
    }
}

/// The leaf of pairs that are proposed where no cycle is without an offset.
fn leaf_of_pairs(problem: &Problem, node: &Node, start: &[Pair], part: PartPairs) -> Option<Leaf>
    requires node { IsNodeOf problem.now node.now }
    requires left { HaveOffsetsLeft (problem_net problem.now) problem.now.table node.now }
    requires start { ArePairs (length problem.now.table) start.now }
    ensures leaf { IfSome result (IsLeafOf problem.now node.now) }
    ensures start { IfSome result (IsNoLess problem.now node.now start.now) }
{
    let PartPairs {
        pairs,
        is_endless,
        ..
    } = part;
    if !are_pairs(&pairs, problem.table().len()) {
        return None;
    }
    if is_endless {
        if !shows_nothing(problem, node, &pairs) {
            return None;
        }
        let pairs = Pairs::new(pairs);
        return Some(Leaf::Nothing { pairs });
    }
    let value = value_from(problem, node, start, &pairs)?;
    let pairs = Pairs::new(pairs);
    Some(Leaf::Bound { pairs, value })
}

/// The leaf at a node by what is proposed for it: a gap wherever some cycle has no offset left, else the pairs that are
/// proposed. None where they are no leaf there, or are worth less than the start.
pub(crate) fn leaf_of_part(
    problem: &Problem,
    node: &Node,
    start: &[Pair],
    part: PartPairs,
) -> Option<Leaf>
    requires node { IsNodeOf problem.now node.now }
    requires start { ArePairs (length problem.now.table) start.now }
    ensures leaf { IfSome result (IsLeafOf problem.now node.now) }
    ensures start { IfSome result (IsNoLess problem.now node.now start.now) }
{
    if let Some(cycle) = gap_at(problem, node) {
        return Some(Leaf::Gap { cycle });
    }
    leaf_of_pairs(problem, node, start, part)
}
