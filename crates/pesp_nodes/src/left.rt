//! The offsets that are left where the slack ranges are those of the root, and cycles that have none.

ghost use Rattle.std.specs.Prelude.{◌≡◌, ℕ, ◌-◌, ◌<◌, length, map, true, None, IfSome, IsTrue, MatchOption};
ghost use Rattle.pesp_problem.specs.Walks.{Names};
ghost use Rattle.pesp_problem.specs.Nodes.{offsets_left};
ghost use Rattle.pesp_problem.specs.Nodes as spec;
ghost use Rattle.pesp_nodes.specs.Offsets.{IsSmallOffset};
ghost use Rattle.pesp_nodes.specs.Problems.{problem_net, IsNodeOf};

use crate::node::Node;
use crate::offsets::shared;
use crate::problem::Problem;
use crate::value::left_at;
use pesp_problem::Arc;

/// Whether each slack range is the whole one of its row.
fn are_whole(arcs: &[Arc], slacks: &[(u32, u32)]) -> bool
    requires long { length slacks.now ≡ length arcs.now }
    ensures { IsTrue result → slacks.now ≡ map (λ arc. (0, arc.span)) arcs.now }
{
    for place in 0..arcs.len() {
        let range = slacks[place];
        if range.0 != 0 || range.1 != arcs[place].span {
            return false;
        }
    }
    true
}

/// Whether the slack ranges of a node are those of the root.
pub(crate) fn has_root_slacks(problem: &Problem, node: &Node) -> bool
    requires { IsNodeOf problem.now node.now }
    ensures { IsTrue result → node.now.slacks ≡ spec.root_slacks (problem_net problem.now) }
{
    are_whole(problem.arcs(), node.slacks())
}

/// The least and the greatest offset that are left of the cycle at a place, from 0, where the slack ranges are those of the
/// root.
fn left_of_root(problem: &Problem, node: &Node, place: usize) -> Option<(i64, i64)>
    requires node { IsNodeOf problem.now node.now }
    requires exists { place < length problem.now.table }
    requires whole { node.now.slacks ≡ spec.root_slacks (problem_net problem.now) }
    ensures value { result ≡ offsets_left (problem_net problem.now) problem.now.table node.now place }
    ensures small { IfSome result (λ left. IsSmallOffset problem.now.network.period left.0
        × IsSmallOffset problem.now.network.period left.1) }
{
    shared(node.offsets()[place], problem.bounds()[place])
}

/// The same at any node, where it may be known that the slack ranges are those of the root.
pub(crate) fn left_with(
    problem: &Problem,
    node: &Node,
    place: usize,
    is_whole: bool,
) -> Option<(i64, i64)>
    requires node { IsNodeOf problem.now node.now }
    requires exists { place < length problem.now.table }
    requires whole { is_whole ≡ true → node.now.slacks ≡ spec.root_slacks (problem_net problem.now) }
    ensures value { result ≡ offsets_left (problem_net problem.now) problem.now.table node.now place }
    ensures small { IfSome result (λ left. IsSmallOffset problem.now.network.period left.0
        × IsSmallOffset problem.now.network.period left.1) }
{
    if is_whole {
        left_of_root(problem, node, place)
    } else {
        left_at(problem, node, place)
    }
}

/// The first cycle that has no offset left at a node.
pub fn first_gap(problem: &Problem, node: &Node) -> Option<u32>
    requires { IsNodeOf problem.now node.now }
    ensures { MatchOption result ((c : ℕ) → c < length problem.now.table
        → offsets_left (problem_net problem.now) problem.now.table node.now c ≡ None → ⊥)
        (λ cycle. Names (length problem.now.table) cycle
        × (offsets_left (problem_net problem.now) problem.now.table node.now (cycle - 1) ≡ None)) }
{
    let _few = problem.arcs();
    let is_whole = has_root_slacks(problem, node);
    for place in 0..problem.table().len() {
        if left_with(problem, node, place, is_whole).is_none() {
            return Some(place as u32 + 1);
        }
    }
    None
}
