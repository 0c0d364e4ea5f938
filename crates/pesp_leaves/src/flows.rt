//! Flows: for each row, the sum over a leaf's pairs of the multiplier times the net count.

ghost use Rattle.std.specs.Prelude.{◌≡◌, ℕ, ◌*◌, ◌^◌, ◌<◌, ◌≤◌, List, length, pos, ◌+ℤ◌, ◌-ℤ◌, ◌*ℤ◌, unsigned_abs, All, count_by, ◌==◌};
ghost use Rattle.pesp_problem.specs.declared.limits.TheConstants.{MOST_BOUND, MOST_PERIOD, MOST_WEIGHT};
ghost use Rattle.pesp_problem.specs.declared.row.SignedRow.{SignedRow};
ghost use Rattle.pesp_problem.specs.Arcs.{arcs_of, arc_at};
ghost use Rattle.pesp_problem.specs.Limits.{KeepsLimits};
ghost use Rattle.pesp_problem.specs.Nodes.{weight_of, flow};
ghost use Rattle.pesp_problem.specs.Nets.{AreSmallCounts, AreZeros, AreNets};
ghost use Rattle.pesp_leaves.specs.Offsets.{AreSlackRanges};
ghost use Rattle.pesp_problem.specs.Ranges.{lesser};
ghost use Rattle.pesp_problem.specs.Terms.{number_at, AreSmallFlows};
ghost use Rattle.pesp_leaves.specs.Flows.{ArePairsOf, flow_term, flow_sum, entries_at};

use crate::elements::Elements;
use crate::nets::take;
use crate::rows::arc_at;
use pesp_problem::exact::{minus, plus, times};
use pesp_problem::{Arc, Instance, NetCount, Nets, Pair, add_flow};

/// Makes the flows of the pairs out of flows that are 0.
pub fn add_flows<P: Elements<Pair>>(flows: &mut [i128], table: &[Nets], pairs: P)
    requires table { All (AreSmallCounts (length flows.old)) table.now }
    requires pairs { ArePairsOf (length table.now) (P.elements pairs) }
    requires zeros { AreZeros flows.old }
    ensures flows { (walks : List (List SignedRow)) → AreNets (length flows.old) walks table.now
        → (i : ℕ) → i < length flows.old → number_at flows.new i ≡ flow walks (P.elements pairs) i }
    ensures untouched { (i : ℕ) → i < length flows.old
        → entries_at table.now (P.elements pairs) i ≡ 0 → number_at flows.new i ≡ pos 0 }
    ensures small { AreSmallFlows flows.new }
{
    let mut left = pairs;
    while let Some(pair) = left.take_next() {
        add_flow(flows, table[pair.cycle as usize - 1].counts(), pair.mult);
    }
}

/// The lesser of a factor times each end of a range.
fn lesser(factor: i128, range: (u32, u32)) -> i128
    requires factor { unsigned_abs factor ≤ 2 * 10 ^ 24 }
    requires low { range.0 ≤ MOST_PERIOD }
    requires high { range.1 ≤ MOST_PERIOD }
    ensures value { result ≡ lesser factor range }
    ensures size { unsigned_abs result ≤ 2 * 10 ^ 28 }
{
    times(factor, i128::from(range.0)).min(times(factor, i128::from(range.1)))
}

/// The weight of a row, or 0 for a leaf without weights.
fn weight_of(arc: &Arc, weighted: bool) -> i128
    requires { arc.now.weight ≤ MOST_WEIGHT }
    ensures value { result ≡ weight_of weighted arc.now }
    ensures size { unsigned_abs result ≤ 1000000000 }
{
    if weighted { i128::from(arc.weight) } else { 0 }
}

/// What a flow changes of what a slack costs at least.
fn moved(weight: i128, flow: i128, range: (u32, u32)) -> i128
    requires weight { unsigned_abs weight ≤ MOST_WEIGHT }
    requires flow { unsigned_abs flow ≤ 10 ^ 24 }
    requires low { range.0 ≤ MOST_PERIOD }
    requires high { range.1 ≤ MOST_PERIOD }
    ensures value { result ≡ lesser (weight -ℤ flow) range -ℤ lesser weight range }
    ensures size { unsigned_abs result ≤ 4 * 10 ^ 28 }
{
    let left = minus(weight, flow);
    minus(lesser(left, range), lesser(weight, range))
}

/// A flow times a lower bound.
fn lower_part(flow: i128, lower: i64) -> i128
    requires flow { unsigned_abs flow ≤ 10 ^ 24 }
    requires lower { unsigned_abs lower ≤ MOST_BOUND }
    ensures value { result ≡ flow *ℤ lower }
    ensures size { unsigned_abs result ≤ 10 ^ 30 }
{
    times(flow, i128::from(lower))
}

/// What a flow on a row changes of a leaf's value.
fn flow_term(
    instance: &Instance,
    slacks: &[(u32, u32)],
    weighted: bool,
    place: usize,
    flow: i128,
) -> i128
    requires slacks { AreSlackRanges (length instance.now.rows) slacks.now }
    requires exists { place < length instance.now.rows }
    requires flow { unsigned_abs flow ≤ 10 ^ 24 }
    ensures value { result ≡ flow_term (arcs_of instance.now) slacks.now weighted place flow }
    ensures size { unsigned_abs result ≤ 2 * 10 ^ 30 }
{
    let arc = arc_at(instance, place);
    let costs = moved(weight_of(&arc, weighted), flow, slacks[place]);
    minus(costs, lower_part(flow, arc.lower))
}

/// Takes the flows of one cycle's rows: what they change of a leaf's value. They are 0 afterwards.
fn take_flow(
    instance: &Instance,
    slacks: &[(u32, u32)],
    weighted: bool,
    counts: &[NetCount],
    flows: &mut [i128],
) -> i128
    requires limits { KeepsLimits instance.now }
    requires slacks { AreSlackRanges (length instance.now.rows) slacks.now }
    requires counts { AreSmallCounts (length flows.old) counts.now }
    requires long { length flows.old ≡ length instance.now.rows }
    requires small { AreSmallFlows flows.old }
    ensures sum { result +ℤ flow_sum (arcs_of instance.now) slacks.now weighted flows.new
        ≡ flow_sum (arcs_of instance.now) slacks.now weighted flows.old }
    ensures small { AreSmallFlows flows.new }
    ensures taken { (i : ℕ) → i < length flows.old
        → (count_by (λ e. e.place == i) counts.now ≡ 0 → number_at flows.old i ≡ pos 0)
        → number_at flows.new i ≡ pos 0 }
{
    let mut sum = 0;
    for net in counts {
        let at = net.place as usize;
        let flow = take(flows, at);
        sum = plus(sum, flow_term(instance, slacks, weighted, at, flow));
    }
    sum
}

/// Takes the flows of a leaf: what they change of its value. The flows are 0 afterwards.
pub fn take_flows<P: Elements<Pair>>(
    instance: &Instance,
    slacks: &[(u32, u32)],
    weighted: bool,
    table: &[Nets],
    pairs: P,
    flows: &mut [i128],
) -> i128
    requires limits { KeepsLimits instance.now }
    requires slacks { AreSlackRanges (length instance.now.rows) slacks.now }
    requires table { All (AreSmallCounts (length flows.old)) table.now }
    requires pairs { ArePairsOf (length table.now) (P.elements pairs) }
    requires long { length flows.old ≡ length instance.now.rows }
    requires small { AreSmallFlows flows.old }
    requires untouched { (i : ℕ) → i < length flows.old
        → entries_at table.now (P.elements pairs) i ≡ 0 → number_at flows.old i ≡ pos 0 }
    ensures sum { result ≡ flow_sum (arcs_of instance.now) slacks.now weighted flows.old }
    ensures size { unsigned_abs result ≤ 2 * 10 ^ 35 }
    ensures zeros { AreZeros flows.new }
{
    let mut left = pairs;
    let mut sum = 0;
    while let Some(pair) = left.take_next() {
        let counts = table[pair.cycle as usize - 1].counts();
        sum = plus(sum, take_flow(instance, slacks, weighted, counts, flows));
    }
    sum
}
