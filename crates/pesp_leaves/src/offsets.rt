//! The offsets that slack ranges leave to a cycle.

ghost use Rattle.std.specs.Prelude.{◌≡◌, ℕ, ◌*◌, ◌^◌, ◌+ℤ◌, ◌<◌, ◌≤◌, ◌≤ℤ◌, ◌<ℤ◌, List, length, pos, neg_ℤ, unsigned_abs, IfSome, slice_index_or};
ghost use Rattle.std.specs.Int.{int_min, int_max};
ghost use Rattle.pesp_problem.specs.declared.limits.TheConstants.{MOST_BOUND, MOST_PERIOD, MOST_SIGNED_ROWS};
ghost use Rattle.pesp_problem.specs.declared.row.SignedRow.{SignedRow};
ghost use Rattle.pesp_problem.specs.Sums as sums;
ghost use Rattle.pesp_problem.specs.Arcs.{arcs_of, net_of};
ghost use Rattle.pesp_problem.specs.Nodes.{least_sum, greatest_sum, odijk_range, range_or_none};
ghost use Rattle.pesp_problem.specs.Nets.{AreSmallCounts, AreNetCounts};
ghost use Rattle.pesp_problem.specs.Ranges.{least_term, greatest_term};
ghost use Rattle.pesp_leaves.specs.Offsets.{AreSlackRanges, IsSmallOffset};

use crate::rows::arc_at;
use pesp_problem::exact::{ceil_div, floor_div, times};
use pesp_problem::{Instance, NetCount};

/// A factor times the low end of a range, or times the high end where the factor is negative.
pub fn scaled(factor: i128, low: i128, high: i128) -> i128
    requires low { unsigned_abs factor * unsigned_abs low < 2 ^ 127 }
    requires high { unsigned_abs factor * unsigned_abs high < 2 ^ 127 }
    ensures value { result ≡ sums.scaled factor low high }
    ensures size { (m n : ℕ) → unsigned_abs factor ≤ m → unsigned_abs low ≤ n
        → unsigned_abs high ≤ n → unsigned_abs result ≤ m * n }
{
    if factor < 0 {
        times(factor, high)
    } else {
        times(factor, low)
    }
}

/// The duration of a row at a slack.
fn duration(lower: i64, slack: u32) -> i128
    requires lower { unsigned_abs lower ≤ MOST_BOUND }
    requires slack { slack ≤ MOST_PERIOD }
    ensures value { result ≡ lower +ℤ pos slack }
    ensures size { unsigned_abs result ≤ 1010000 }
{
    i128::from(lower) + i128::from(slack)
}

/// The least and the greatest of a net count times the durations of its row that a slack range allows.
fn duration_terms(instance: &Instance, net: &NetCount, slacks: &[(u32, u32)]) -> (i128, i128)
    requires slacks { AreSlackRanges (length instance.now.rows) slacks.now }
    requires exists { net.now.place < length instance.now.rows }
    requires small { unsigned_abs net.now.count ≤ MOST_SIGNED_ROWS }
    ensures least { result.0
        ≡ least_term (arcs_of instance.now) slacks.now net.now.place net.now.count }
    ensures greatest { result.1
        ≡ greatest_term (arcs_of instance.now) slacks.now net.now.place net.now.count }
    ensures least_size { unsigned_abs result.0 ≤ unsigned_abs net.now.count * 1010000 }
    ensures greatest_size { unsigned_abs result.1 ≤ unsigned_abs net.now.count * 1010000 }
{
    let range = slacks[net.place as usize];
    let lower = arc_at(instance, net.place as usize).lower;
    let count = i128::from(net.count);
    let low = duration(lower, range.0);
    let high = duration(lower, range.1);
    (scaled(count, low, high), scaled(count, high, low))
}

/// The least sum of net count times duration that the slack ranges allow along a walk, and the greatest.
pub fn duration_sums(
    instance: &Instance,
    counts: &[NetCount],
    slacks: &[(u32, u32)],
) -> (i128, i128)
    requires slacks { AreSlackRanges (length instance.now.rows) slacks.now }
    requires counts { AreSmallCounts (length instance.now.rows) counts.now }
    ensures least { (walk : List SignedRow)
        → AreNetCounts (length instance.now.rows) walk counts.now
        → result.0 ≡ least_sum (arcs_of instance.now) slacks.now walk }
    ensures greatest { (walk : List SignedRow)
        → AreNetCounts (length instance.now.rows) walk counts.now
        → result.1 ≡ greatest_sum (arcs_of instance.now) slacks.now walk }
    ensures least_size { unsigned_abs result.0 ≤ 10100000000000 }
    ensures greatest_size { unsigned_abs result.1 ≤ 10100000000000 }
{
    let mut least = 0;
    let mut greatest = 0;
    for net in counts {
        let terms = duration_terms(instance, net, slacks);
        least += terms.0;
        greatest += terms.1;
    }
    (least, greatest)
}

/// The greater of a range's low end and what a sum allows.
fn low_end(period: u32, least: i128, low: i64) -> i128
    requires period { 0 < period }
    requires least { unsigned_abs least ≤ 10100000000000 }
    ensures { result ≡ int_max low (sums.ceil_div least period) }
{
    i128::from(low).max(ceil_div(least, period))
}

/// The lesser of a range's high end and what a sum allows.
fn high_end(period: u32, greatest: i128, high: i64) -> i128
    requires period { 0 < period }
    requires greatest { unsigned_abs greatest ≤ 10100000000000 }
    ensures { result ≡ int_min high (sums.floor_div greatest period) }
{
    i128::from(high).min(floor_div(greatest, period))
}

/// The range, or none where it is empty.
fn range_of(from: i128, to: i128) -> Option<(i64, i64)>
    requires from { neg_ℤ (pos (2 ^ 63)) ≤ℤ from }
    requires to { to <ℤ pos (2 ^ 63) }
    ensures { result ≡ range_or_none from to }
{
    if from <= to {
        Some((from as i64, to as i64))
    } else {
        None
    }
}

/// The least and the greatest offset of a range for which the period times the offset lies between two sums.
pub fn left_between(period: u32, ends: (i128, i128), range: (i64, i64)) -> Option<(i64, i64)>
    requires period { 0 < period }
    requires least { unsigned_abs ends.0 ≤ 10100000000000 }
    requires greatest { unsigned_abs ends.1 ≤ 10100000000000 }
    ensures value { result ≡ range_or_none (int_max range.0 (sums.ceil_div ends.0 period))
        (int_min range.1 (sums.floor_div ends.1 period)) }
    ensures small { IfSome result
        (λ left. IsSmallOffset period left.0 × IsSmallOffset period left.1) }
{
    range_of(
        low_end(period, ends.0, range.0),
        high_end(period, ends.1, range.1),
    )
}

/// The quotient, rounded up.
fn quotient_up(z: i128, by: u32) -> i64
    requires by { 0 < by }
    requires small { unsigned_abs z ≤ 10100000000000 }
    ensures { result ≡ sums.ceil_div z by }
{
    ceil_div(z, by) as i64
}

/// The quotient, rounded down.
fn quotient_down(z: i128, by: u32) -> i64
    requires by { 0 < by }
    requires small { unsigned_abs z ≤ 10100000000000 }
    ensures { result ≡ sums.floor_div z by }
{
    floor_div(z, by) as i64
}

/// The offsets that slack ranges allow to a cycle, by Odijk's bounds.
pub fn odijk_range(instance: &Instance, counts: &[NetCount], slacks: &[(u32, u32)]) -> (i64, i64)
    requires slacks { AreSlackRanges (length instance.now.rows) slacks.now }
    requires counts { AreSmallCounts (length instance.now.rows) counts.now }
    ensures { (walk : List SignedRow) → AreNetCounts (length instance.now.rows) walk counts.now
        → result ≡ odijk_range (net_of instance.now) slacks.now walk }
{
    let period = instance.period();
    let (least, greatest) = duration_sums(instance, counts, slacks);
    (quotient_up(least, period), quotient_down(greatest, period))
}
