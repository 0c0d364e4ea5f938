//! What leaves are worth.

ghost use Rattle.std.specs.Prelude.{◌≡◌, ◌-◌, ◌*◌, ◌^◌, ◌<◌, ◌≤◌, List, length, pos, ◌*ℤ◌, unsigned_abs, All, IfSome, option_map, sum_by};
ghost use Rattle.pesp_problem.specs.declared.limits.TheConstants.{MOST_CYCLES, MOST_LOWER, MOST_MULTIPLIER, MOST_PERIOD, MOST_ROWS, MOST_SIGNED_ROWS, MOST_WEIGHT};
ghost use Rattle.pesp_problem.specs.declared.row.SignedRow.{SignedRow};
ghost use Rattle.pesp_problem.specs.Sums as sums;
ghost use Rattle.pesp_problem.specs.Arcs.{over_arcs};
ghost use Rattle.pesp_problem.specs.Walks.{Names};
ghost use Rattle.pesp_problem.specs.Nodes.{offsets_left, offset_part, weight_of, flow};
ghost use Rattle.pesp_problem.specs.Nodes as spec;
ghost use Rattle.pesp_problem.specs.Ranges.{AreSlackEnds, lesser};
ghost use Rattle.pesp_problem.specs.Terms.{AreSmallFlows};
ghost use Rattle.pesp_nodes.specs.Offsets.{AreArcs, IsSmallOffset};
ghost use Rattle.pesp_nodes.specs.Flows.{AreFlows};
ghost use Rattle.pesp_nodes.specs.Passages.{ArePassages};
ghost use Rattle.pesp_nodes.specs.Problems.{problem_net, IsNodeOf, Rise, ArePairs};
ghost use Rattle.pesp_nodes.specs.Values.{plain_row_term, row_term_at};

use crate::ends::{End, end_for};
use crate::flow::{flow_at, flows_of};
use crate::left::{has_root_slacks, left_with};
use crate::node::Node;
use crate::offsets::left_of;
use crate::passages::Passages;
use crate::problem::Problem;
use pesp_problem::exact::{minus, plus, times};
use pesp_problem::{Arc, Pair};

/// The least and the greatest offset that are left of the cycle at a place, from 0.
pub fn left_at(problem: &Problem, node: &Node, place: usize) -> Option<(i64, i64)>
    requires node { IsNodeOf problem.now node.now }
    requires exists { place < length problem.now.table }
    ensures value { result ≡ offsets_left (problem_net problem.now) problem.now.table node.now place }
    ensures small { IfSome result (λ left. IsSmallOffset problem.now.network.period left.0
        × IsSmallOffset problem.now.network.period left.1) }
{
    let counts = problem.nets()[place].counts();
    let range = node.offsets()[place];
    left_of(
        problem.period(),
        problem.arcs(),
        node.slacks(),
        counts,
        range,
    )
}

/// The least and the greatest offset of a cycle, numbered from 1, that are left at a node: those of its offset range that
/// the slack ranges allow (Odijk 1996). None where none is left.
pub fn offset_range(problem: &Problem, node: &Node, cycle: u32) -> Option<(i64, i64)>
    requires node { IsNodeOf problem.now node.now }
    requires cycle { Names (length problem.now.table) cycle }
    ensures value { result
        ≡ offsets_left (problem_net problem.now) problem.now.table node.now (cycle - 1) }
    ensures small { IfSome result (λ left. IsSmallOffset problem.now.network.period left.0
        × IsSmallOffset problem.now.network.period left.1) }
{
    left_at(problem, node, cycle as usize - 1)
}

/// The period times an offset.
fn period_times(period: u32, offset: i64) -> i128
    requires { IsSmallOffset period offset }
    ensures value { result ≡ pos period *ℤ offset }
    ensures size { unsigned_abs result ≤ 10300000000000 }
{
    times(i128::from(period), i128::from(offset))
}

/// The period times a multiplier times the least offset left, or the greatest where the multiplier is negative.
pub(crate) fn offset_term(period: u32, mult: i64, left: (i64, i64)) -> i128
    requires mult { unsigned_abs mult ≤ MOST_MULTIPLIER }
    requires low { IsSmallOffset period left.0 }
    requires high { IsSmallOffset period left.1 }
    ensures value { result ≡ pos period *ℤ sums.scaled mult left.0 left.1 }
    ensures size { unsigned_abs result ≤ 1000000000000 * 10300000000000 }
{
    let offset = end_for(mult, End::Low).of(left);
    times(i128::from(mult), period_times(period, offset))
}

/// What the offsets of the pairs' cycles add up to, times the period.
fn offset_sum(problem: &Problem, node: &Node, pairs: &[Pair]) -> Option<i128>
    requires node { IsNodeOf problem.now node.now }
    requires pairs { ArePairs (length problem.now.table) pairs.now }
    requires few { length problem.now.table ≤ MOST_CYCLES }
    ensures value { result ≡ option_map (λ z. pos problem.now.network.period *ℤ z)
        (offset_part (problem_net problem.now) problem.now.table node.now pairs.now) }
    ensures size { IfSome result (λ z. unsigned_abs z ≤ 100000 * (1000000000000 * 10300000000000)) }
{
    let is_whole = has_root_slacks(problem, node);
    let mut sum = 0;
    for pair in pairs {
        let left = left_with(problem, node, pair.cycle as usize - 1, is_whole)?;
        sum = plus(sum, offset_term(problem.period(), pair.mult, left));
    }
    Some(sum)
}

/// The weight of a row, or 0 for a leaf without weights.
fn weight_of(arc: &Arc, weighted: bool) -> i128
    requires { arc.now.weight ≤ MOST_WEIGHT }
    ensures value { result ≡ weight_of weighted arc.now }
    ensures size { unsigned_abs result ≤ 1000000000 }
{
    if weighted { i128::from(arc.weight) } else { 0 }
}

/// The lesser of a factor times each end of a range.
fn lesser(factor: i128, range: (u32, u32)) -> i128
    requires factor { unsigned_abs factor ≤ 2 * 10 ^ 24 }
    requires low { range.0 ≤ MOST_PERIOD }
    requires high { range.1 ≤ MOST_PERIOD }
    ensures value { result ≡ lesser factor range }
    ensures size { unsigned_abs result ≤ 2 * 10 ^ 28 }
{
    let low = times(factor, i128::from(range.0));
    let high = times(factor, i128::from(range.1));
    low.min(high)
}

/// A flow times a lower bound.
fn lower_part(flow: i128, lower: i64) -> i128
    requires flow { unsigned_abs flow ≤ 10 ^ 24 }
    requires lower { unsigned_abs lower ≤ MOST_LOWER }
    ensures value { result ≡ flow *ℤ lower }
    ensures size { unsigned_abs result ≤ 2 * 10 ^ 30 }
{
    times(flow, i128::from(lower))
}

/// What a row adds to the value.
pub(crate) fn row_term(arc: &Arc, range: (u32, u32), weighted: bool, flow: i128) -> i128
    requires weight { arc.now.weight ≤ MOST_WEIGHT }
    requires lower { unsigned_abs arc.now.lower ≤ MOST_LOWER }
    requires low { range.0 ≤ MOST_PERIOD }
    requires high { range.1 ≤ MOST_PERIOD }
    requires flow { unsigned_abs flow ≤ 10 ^ 24 }
    ensures value { result ≡ plain_row_term arc.now range weighted flow }
    ensures size { unsigned_abs result ≤ 10 ^ 31 }
{
    let rest = minus(weight_of(arc, weighted), flow);
    minus(lesser(rest, range), lower_part(flow, arc.lower))
}

/// What the rows add to the value.
fn row_sum(
    arcs: &[Arc],
    slacks: &[(u32, u32)],
    by_row: &[Passages],
    pairs: &[Pair],
    flows: &[i128],
    weighted: bool,
) -> i128
    requires arcs { AreArcs arcs.now }
    requires few { length arcs.now ≤ MOST_ROWS }
    requires slacks { AreSlackEnds slacks.now }
    requires long { length slacks.now ≡ length arcs.now }
    requires rows { length by_row.now ≡ length arcs.now }
    requires short { All (λ ps. sum_by (λ e. unsigned_abs e.count) ps ≤ MOST_SIGNED_ROWS) by_row.now }
    requires rise { Rise pairs.now }
    requires mults { All (λ p. unsigned_abs p.mult ≤ MOST_MULTIPLIER) pairs.now }
    requires flows { AreSmallFlows flows.now }
    ensures value { (walks : List (List SignedRow)) → ArePassages (length arcs.now) (length walks)
        walks by_row.now → All (λ p. Names (length walks) p.cycle) pairs.now
        → AreFlows walks pairs.now flows.now → result ≡ over_arcs arcs.now
        (λ i. row_term_at arcs.now slacks.now weighted i (flow walks pairs.now i)) }
    ensures size { unsigned_abs result ≤ 100000 * 10 ^ 31 }
{
    let mut sum = 0;
    for place in 0..arcs.len() {
        let flow = flow_at(flows, place, by_row[place].as_slice(), pairs);
        sum = plus(sum, row_term(&arcs[place], slacks[place], weighted, flow));
    }
    sum
}

/// The value of a leaf: with the rows' weights a lower bound of the cost of each timetable in the node; without weights, where
/// it is above 0, a proof that there is none. It takes the period times each multiplier times its cycle's least offset left,
/// or its greatest where the multiplier is negative, less what the circulation of the pairs pays for lower bounds, and for
/// each row the least that its slack can cost beyond the circulation (weak duality for circulations). None where a used cycle
/// has no offset left. In the instance's own unit of weight times slack, and below 10^26 by amount.
pub fn leaf_value(problem: &Problem, node: &Node, pairs: &[Pair], weighted: bool) -> Option<i128>
    requires node { IsNodeOf problem.now node.now }
    requires pairs { ArePairs (length problem.now.table) pairs.now }
    ensures value { result
        ≡ spec.leaf_value (problem_net problem.now) problem.now.table node.now pairs.now weighted }
    ensures small { IfSome result (λ value. unsigned_abs value < 10 ^ 26) }
{
    problem.keeps_limits();
    let arcs = problem.arcs();
    let offsets = offset_sum(problem, node, pairs)?;
    let flows = flows_of(problem.alloc(), problem.nets(), arcs.len(), pairs);
    let rows = row_sum(
        arcs,
        node.slacks(),
        problem.passages(),
        pairs,
        &flows,
        weighted,
    );
    Some(plus(offsets, rows))
}
