//! What the rows of a leaf add to its value, by their weights, flows and rates.

ghost use Rattle.std.specs.Prelude.{◌≡◌, ℕ, ◌*◌, ◌^◌, ◌<◌, ◌≤◌, length, pos, ◌-ℤ◌, ◌*ℤ◌, unsigned_abs, if◌then◌else◌};
ghost use Rattle.pesp_problem.specs.declared.limits.TheConstants.{MOST_LOWER, MOST_MULTIPLIER, MOST_PERIOD, MOST_ROWS};
ghost use Rattle.pesp_problem.specs.Ranges.{AreSlackEnds};
ghost use Rattle.pesp_problem.specs.Rates.{AreSmallRates};
ghost use Rattle.pesp_problem.specs.Terms.{lesser_excess, AreSmallArcs, AreSmallFlows};
ghost use Rattle.pesp_leaves.specs.Taken.{AreFlowsWith, AreSmallWeights};
ghost use Rattle.pesp_leaves.specs.Terms.{lower_sum, rows_sum};

use pesp_problem::exact::{minus, plus, times};
use pesp_problem::{Arc, Rates};

/// The weight of a row under a scale, or 0 for a leaf without weights.
fn scaled_weight(weight: i64, weighted: bool, scale: u32) -> i128
    requires weight { unsigned_abs weight ≤ MOST_MULTIPLIER }
    requires scale { scale ≤ 1000000 }
    ensures value { result ≡ pos scale *ℤ (if weighted then weight else pos 0) }
    ensures size { unsigned_abs result ≤ 10 ^ 18 }
{
    if weighted {
        times(i128::from(scale), i128::from(weight))
    } else {
        0
    }
}

/// What a unit of a row's slack costs beyond its flow.
fn left_at(scaled: i128, flow: i128) -> i128
    requires scaled { unsigned_abs scaled ≤ 10 ^ 18 }
    requires flow { unsigned_abs flow ≤ 100001 * 10 ^ 24 }
    ensures value { result ≡ scaled -ℤ flow }
    ensures size { unsigned_abs result ≤ 11 * 10 ^ 28 }
{
    minus(scaled, flow)
}

/// What a slack at one end of its range costs beyond the flow and the gains.
fn excess(left: i128, slack: u32, rate: i128, width: i128) -> i128
    requires left { unsigned_abs left ≤ 11 * 10 ^ 28 }
    requires slack { slack ≤ MOST_PERIOD }
    requires rate { unsigned_abs rate ≤ 10 ^ 28 }
    requires width { unsigned_abs width ≤ 10000 }
    ensures value { result ≡ left *ℤ pos slack -ℤ rate *ℤ width }
    ensures size { unsigned_abs result ≤ 12 * 10 ^ 32 }
{
    minus(times(left, i128::from(slack)), times(rate, width))
}

/// How wide a slack range is.
fn range_width(range: (u32, u32)) -> i128
    requires low { range.0 ≤ MOST_PERIOD }
    requires high { range.1 ≤ MOST_PERIOD }
    ensures value { result ≡ pos range.1 -ℤ pos range.0 }
    ensures size { unsigned_abs result ≤ 10000 }
{
    minus(i128::from(range.1), i128::from(range.0))
}

/// The lesser of what a slack at the two ends of its range costs.
fn lesser_excess(left: i128, range: (u32, u32), rates: Rates) -> i128
    requires left { unsigned_abs left ≤ 11 * 10 ^ 28 }
    requires low { range.0 ≤ MOST_PERIOD }
    requires high { range.1 ≤ MOST_PERIOD }
    requires plain { unsigned_abs rates.plain ≤ 10 ^ 28 }
    requires flipped { unsigned_abs rates.flipped ≤ 10 ^ 28 }
    ensures value { result ≡ lesser_excess left range rates }
    ensures size { unsigned_abs result ≤ 12 * 10 ^ 32 }
{
    let width = range_width(range);
    let low = excess(left, range.0, rates.flipped, width);
    let high = excess(left, range.1, rates.plain, width);
    low.min(high)
}

/// A flow times a lower bound. Many rows have no flow.
fn lower_part(flow: i128, lower: i64) -> i128
    requires flow { unsigned_abs flow ≤ 10 ^ 24 }
    requires lower { unsigned_abs lower ≤ MOST_LOWER }
    ensures value { result ≡ flow *ℤ lower }
    ensures size { unsigned_abs result ≤ 2 * 10 ^ 30 }
{
    if flow == 0 {
        return 0;
    }
    times(flow, i128::from(lower))
}

/// The sum over all rows of flow times lower bound.
pub fn lower_sum(arcs: &[Arc], flows: &[i128]) -> i128
    requires arcs { AreSmallArcs arcs.now }
    requires flows { length flows.now ≡ length arcs.now }
    requires small { AreSmallFlows flows.now }
    ensures value { result ≡ lower_sum arcs.now flows.now }
    ensures size { unsigned_abs result ≤ 2 * 10 ^ 35 }
{
    let mut sum = 0;
    for i in 0..arcs.len() {
        sum = plus(sum, lower_part(flows[i], arcs[i].lower));
    }
    sum
}

/// What the slacks of all rows cost at least beyond the flows and the gains.
pub fn rows_sum(
    slacks: &[(u32, u32)],
    weights: &[i64],
    weighted: bool,
    scale: u32,
    flows: &[i128],
    rates: &[Rates],
) -> i128
    requires slacks { AreSlackEnds slacks.now }
    requires few { length slacks.now ≤ MOST_ROWS }
    requires weights { length weights.now ≡ length slacks.now }
    requires flows { length flows.now ≡ length slacks.now }
    requires rates { length rates.now ≡ length slacks.now }
    requires scale { scale ≤ 1000000 }
    requires small_weights { AreSmallWeights weights.now }
    requires small_flows { AreFlowsWith 100000 flows.now }
    requires small_rates { AreSmallRates 100000 rates.now }
    ensures value { result ≡ rows_sum slacks.now weights.now weighted scale flows.now rates.now }
    ensures size { unsigned_abs result ≤ 12 * 10 ^ 37 }
{
    let mut sum = 0;
    for i in 0..slacks.len() {
        let scaled = scaled_weight(weights[i], weighted, scale);
        let left = left_at(scaled, flows[i]);
        sum = plus(sum, lesser_excess(left, slacks[i], rates[i]));
    }
    sum
}
