//! What a leaf of one pair is worth, in the time that its cycle takes.

ghost use Rattle.std.specs.Prelude.{◌≡◌, ℕ, [], ◌∷◌, ◌*◌, ◌<◌, ◌≤◌, List, length, pos, ◌*ℤ◌, ◌-ℤ◌, unsigned_abs, true, Some};
ghost use Rattle.pesp_problem.specs.declared.limits.TheConstants.{MOST_LOWER, MOST_PERIOD, MOST_SIGNED_ROWS, MOST_WEIGHT};
ghost use Rattle.pesp_problem.specs.declared.row.SignedRow.{SignedRow};
ghost use Rattle.pesp_problem.specs.Arcs.{over_arcs};
ghost use Rattle.pesp_problem.specs.Walks.{Names, net_count};
ghost use Rattle.pesp_problem.specs.Nodes as spec;
ghost use Rattle.pesp_problem.specs.Nets.{AreSmallCounts, AreNetCounts};
ghost use Rattle.pesp_problem.specs.Ranges.{AreSlackEnds};
ghost use Rattle.pesp_nodes.specs.Offsets.{AreArcs};
ghost use Rattle.pesp_nodes.specs.Problems.{problem_net, IsNodeOf};
ghost use Rattle.pesp_nodes.specs.Values.{plain_row_term, flow_gain_at};

use crate::node::Node;
use crate::problem::Problem;
use crate::value::{left_at, offset_term, row_term};
use pesp_problem::exact::{minus, plus, times};
use pesp_problem::{Arc, NetCount, Pair};

/// The flow of one pair on a row of its cycle.
fn flow_of(pair: &Pair, net: &NetCount) -> i128
    requires one { unsigned_abs pair.now.mult ≡ 1 }
    requires small { unsigned_abs net.now.count ≤ MOST_SIGNED_ROWS }
    ensures value { result ≡ pair.now.mult *ℤ net.now.count }
    ensures size { unsigned_abs result ≤ unsigned_abs net.now.count }
{
    times(i128::from(pair.mult), i128::from(net.count))
}

/// What a row adds to the value with this flow beyond what it adds with none.
fn gain(arc: &Arc, range: (u32, u32), flow: i128) -> i128
    requires weight { arc.now.weight ≤ MOST_WEIGHT }
    requires lower { unsigned_abs arc.now.lower ≤ MOST_LOWER }
    requires low { range.0 ≤ MOST_PERIOD }
    requires high { range.1 ≤ MOST_PERIOD }
    requires flow { unsigned_abs flow ≤ MOST_SIGNED_ROWS }
    ensures value { result
        ≡ plain_row_term arc.now range true flow -ℤ plain_row_term arc.now range true (pos 0) }
    ensures size { unsigned_abs result ≤ unsigned_abs flow * 1030000 }
{
    minus(
        row_term(arc, range, true, flow),
        row_term(arc, range, true, 0),
    )
}

/// What the row of a net count adds to the value of a pair beyond what it adds with no flow.
fn gain_at(arcs: &[Arc], slacks: &[(u32, u32)], pair: &Pair, net: &NetCount) -> i128
    requires arcs { AreArcs arcs.now }
    requires slacks { AreSlackEnds slacks.now }
    requires long { length slacks.now ≡ length arcs.now }
    requires one { unsigned_abs pair.now.mult ≡ 1 }
    requires exists { net.now.place < length arcs.now }
    requires small { unsigned_abs net.now.count ≤ MOST_SIGNED_ROWS }
    ensures value { result
        ≡ flow_gain_at arcs.now slacks.now net.now.place (pair.now.mult *ℤ net.now.count) }
    ensures size { unsigned_abs result ≤ unsigned_abs net.now.count * 1030000 }
{
    let place = net.place as usize;
    gain(&arcs[place], slacks[place], flow_of(pair, net))
}

/// What the rows of a pair's cycle add to its value beyond what they add with no flow.
fn gains(arcs: &[Arc], slacks: &[(u32, u32)], counts: &[NetCount], pair: &Pair) -> i128
    requires arcs { AreArcs arcs.now }
    requires slacks { AreSlackEnds slacks.now }
    requires long { length slacks.now ≡ length arcs.now }
    requires counts { AreSmallCounts (length arcs.now) counts.now }
    requires one { unsigned_abs pair.now.mult ≡ 1 }
    ensures value { (walk : List SignedRow) → AreNetCounts (length arcs.now) walk counts.now
        → result ≡ over_arcs arcs.now
        (λ i. flow_gain_at arcs.now slacks.now i (pair.now.mult *ℤ net_count walk i)) }
    ensures size { unsigned_abs result ≤ 10300000000000 }
{
    let mut sum = 0;
    for net in counts {
        sum = plus(sum, gain_at(arcs, slacks, pair, net));
    }
    sum
}

/// The value of the leaf of one pair whose multiplier is 1 or -1, with the rows' weights, from the value of no pairs at the
/// node; None where its cycle has no offset left. It takes the time of the cycle's length.
pub fn single_value(problem: &Problem, node: &Node, pair: &Pair, none: i128) -> Option<i128>
    requires node { IsNodeOf problem.now node.now }
    requires cycle { Names (length problem.now.table) pair.now.cycle }
    requires one { unsigned_abs pair.now.mult ≡ 1 }
    requires none { spec.leaf_value (problem_net problem.now) problem.now.table node.now [] true
        ≡ Some none }
    ensures { result ≡ spec.leaf_value (problem_net problem.now) problem.now.table node.now
        (pair.now ∷ []) true }
{
    problem.keeps_limits();
    let place = pair.cycle as usize - 1;
    let left = left_at(problem, node, place)?;
    let counts = problem.nets()[place].counts();
    let rows = gains(problem.arcs(), node.slacks(), counts, pair);
    let offsets = offset_term(problem.period(), pair.mult, left);
    Some(plus(none, plus(offsets, rows)))
}
