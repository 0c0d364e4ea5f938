//! Flows: for a row, the sum over a leaf's pairs of the multiplier times the net count.

ghost use Rattle.std.specs.Prelude.{◌≡◌, ◌+◌, ◌^◌, ◌<◌, ◌≤◌, List, length, ◌*ℤ◌, unsigned_abs, All, sum_by, IfOk};
ghost use Rattle.pesp_problem.specs.declared.limits.TheConstants.{MOST_MULTIPLIER, MOST_ROWS, MOST_SIGNED_ROWS};
ghost use Rattle.pesp_problem.specs.declared.row.SignedRow.{SignedRow};
ghost use Rattle.pesp_problem.specs.Walks.{Names};
ghost use Rattle.pesp_problem.specs.Nodes.{flow};
ghost use Rattle.pesp_problem.specs.Nets.{AreSmallCounts, AreZeros, AreNets};
ghost use Rattle.pesp_problem.specs.Terms.{AreSmallFlows};
ghost use Rattle.pesp_nodes.specs.Flows.{AreFlows};
ghost use Rattle.pesp_nodes.specs.Passages.{mult_of, sum_over, ArePassagesOf};
ghost use Rattle.pesp_nodes.specs.Problems.{Rise, ArePairs};

use crate::passages::Passage;
use pesp_problem::exact::{plus, times};
use pesp_problem::{Nets, Pair, add_flow};
use std::alloc::{AllocError, Global};

/// The multiplier of a cycle, 0 where no pair has it.
fn mult_of(pairs: &[Pair], cycle: u32) -> i64
    requires rise { Rise pairs.now }
    requires mults { All (λ p. unsigned_abs p.mult ≤ MOST_MULTIPLIER) pairs.now }
    ensures value { result ≡ mult_of pairs.now cycle }
    ensures size { unsigned_abs result ≤ 1000000000000 }
{
    let mut from = 0;
    let mut to = pairs.len();
    while from < to {
        let middle = from + (to - from) / 2;
        if pairs[middle].cycle < cycle {
            from = middle + 1;
        } else {
            to = middle;
        }
    }
    if from < pairs.len() && pairs[from].cycle == cycle {
        pairs[from].mult
    } else {
        0
    }
}

/// No flow on each of so many rows.
fn no_flows(alloc: Global, rows: usize) -> Result<Vec<i128>, AllocError>
    ensures long { IfOk result (λ flows. length flows.items ≡ rows) }
    ensures zeros { IfOk result (λ flows. AreZeros flows.items) }
{
    vec![in alloc; 0; rows]
}

/// Makes the flows of the pairs out of flows that are 0.
fn add_flows(flows: &mut [i128], nets: &[Nets], pairs: &[Pair])
    requires nets { All (AreSmallCounts (length flows.old)) nets.now }
    requires pairs { ArePairs (length nets.now) pairs.now }
    requires few { length nets.now ≤ MOST_ROWS }
    requires zeros { AreZeros flows.old }
    ensures flows { (walks : List (List SignedRow)) → AreNets (length flows.old) walks nets.now
        → AreFlows walks pairs.now flows.new }
    ensures small { AreSmallFlows flows.new }
{
    for pair in pairs {
        add_flow(flows, nets[pair.cycle as usize - 1].counts(), pair.mult);
    }
}

/// The flows of pairs on all of so many rows where memory lasts, else on none.
pub(crate) fn flows_of(alloc: Global, nets: &[Nets], rows: usize, pairs: &[Pair]) -> Vec<i128>
    requires nets { All (AreSmallCounts rows) nets.now }
    requires pairs { ArePairs (length nets.now) pairs.now }
    requires few { length nets.now ≤ MOST_ROWS }
    ensures flows { (walks : List (List SignedRow)) → AreNets rows walks nets.now
        → AreFlows walks pairs.now result.items }
    ensures small { AreSmallFlows result.items }
{
    let Ok(zeros) = no_flows(alloc, rows) else {
        return Vec::new(alloc);
    };
    let mut flows = zeros;
    add_flows(&mut flows, nets, pairs);
    flows
}

/// The flow on a row by its passages.
fn flow_on(passages: &[Passage], pairs: &[Pair]) -> i128
    requires rise { Rise pairs.now }
    requires most { All (λ p. unsigned_abs p.mult ≤ MOST_MULTIPLIER) pairs.now }
    requires small { sum_by (λ e. unsigned_abs e.count) passages.now ≤ MOST_SIGNED_ROWS }
    ensures value { result ≡ sum_over (λ c n. mult_of pairs.now c *ℤ n) passages.now }
    ensures size { unsigned_abs result ≤ 10 ^ 19 }
{
    let mut flow = 0;
    for passage in passages {
        let mult = mult_of(pairs, passage.cycle);
        flow = plus(flow, times(i128::from(mult), i128::from(passage.count)));
    }
    flow
}

/// The flow on the row at a place: as it is listed where the list is long enough, else by the row's passages.
pub(crate) fn flow_at(flows: &[i128], place: usize, passages: &[Passage], pairs: &[Pair]) -> i128
    requires rise { Rise pairs.now }
    requires most { All (λ p. unsigned_abs p.mult ≤ MOST_MULTIPLIER) pairs.now }
    requires small { sum_by (λ e. unsigned_abs e.count) passages.now ≤ MOST_SIGNED_ROWS }
    requires flows { AreSmallFlows flows.now }
    ensures value { (walks : List (List SignedRow)) → All (λ p. Names (length walks) p.cycle) pairs.now
        → ArePassagesOf (length walks) walks place passages.now → AreFlows walks pairs.now flows.now
        → result ≡ flow walks pairs.now place }
    ensures size { unsigned_abs result ≤ 10 ^ 24 }
{
    if place < flows.len() {
        flows[place]
    } else {
        flow_on(passages, pairs)
    }
}
