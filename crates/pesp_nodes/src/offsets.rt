//! The offsets that slack ranges leave to a cycle.

ghost use Rattle.std.specs.Prelude.{◌≡◌, ℕ, ℤ, ◌*◌, ◌+ℤ◌, ◌<◌, ◌≤◌, ◌≤ℤ◌, List, length, pos, unsigned_abs, IfSome};
ghost use Rattle.std.specs.Int.{int_min, int_max};
ghost use Rattle.pesp_problem.specs.declared.limits.TheConstants.{MOST_SIGNED_ROWS};
ghost use Rattle.pesp_problem.specs.declared.row.SignedRow.{SignedRow};
ghost use Rattle.pesp_problem.specs.Sums as sums;
ghost use Rattle.pesp_problem.specs.Arcs.{arc_at};
ghost use Rattle.pesp_problem.specs.Nodes.{slack_range, odijk_range, range_or_none};
ghost use Rattle.pesp_nodes.specs.declared.ends.End.TheVariants.{Low, High};
ghost use Rattle.pesp_problem.specs.Nets.{AreSmallCounts, AreNetCounts};
ghost use Rattle.pesp_problem.specs.Ranges.{AreSlackEnds, left_of};
ghost use Rattle.pesp_nodes.specs.Offsets.{AreArcs, IsSmallOffset, IsOffsetEnds, at_end, end_term, end_sum};

use crate::ends::{End, end_for};
use pesp_problem::exact::{ceil_div, floor_div, plus, times};
use pesp_problem::{Arc, NetCount};

/// The duration of the row at a place, at an end of its slack range.
fn duration_at(arcs: &[Arc], slacks: &[(u32, u32)], place: u32, end: End) -> i64
    requires arcs { AreArcs arcs.now }
    requires slacks { AreSlackEnds slacks.now }
    requires long { length slacks.now ≡ length arcs.now }
    requires exists { place < length arcs.now }
    ensures value { result ≡ at_end end ((arc_at arcs.now place).lower +ℤ pos
        (slack_range slacks.now place).0)
        ((arc_at arcs.now place).lower +ℤ pos (slack_range slacks.now place).1) }
    ensures size { unsigned_abs result ≤ 1030000 }
{
    let range = slacks[place as usize];
    let slack = match end {
        End::Low => range.0,
        End::High => range.1,
    };
    arcs[place as usize].lower + i64::from(slack)
}

/// The least of a net count times the durations of its row that a slack range allows, or the greatest.
fn term_at(arcs: &[Arc], slacks: &[(u32, u32)], net: &NetCount, end: End) -> i128
    requires arcs { AreArcs arcs.now }
    requires slacks { AreSlackEnds slacks.now }
    requires long { length slacks.now ≡ length arcs.now }
    requires exists { net.now.place < length arcs.now }
    requires small { unsigned_abs net.now.count ≤ MOST_SIGNED_ROWS }
    ensures value { result ≡ end_term end arcs.now slacks.now net.now.place net.now.count }
    ensures size { unsigned_abs result ≤ unsigned_abs net.now.count * 1030000 }
{
    let taken = end_for(net.count, end);
    let duration = duration_at(arcs, slacks, net.place, taken);
    times(i128::from(net.count), i128::from(duration))
}

/// The least and the greatest sum of net count times duration that the slack ranges allow along a walk.
fn sums_of(arcs: &[Arc], slacks: &[(u32, u32)], counts: &[NetCount]) -> (i128, i128)
    requires arcs { AreArcs arcs.now }
    requires slacks { AreSlackEnds slacks.now }
    requires long { length slacks.now ≡ length arcs.now }
    requires counts { AreSmallCounts (length arcs.now) counts.now }
    ensures least { (walk : List SignedRow) → AreNetCounts (length arcs.now) walk counts.now
        → result.0 ≡ end_sum Low arcs.now slacks.now walk }
    ensures greatest { (walk : List SignedRow) → AreNetCounts (length arcs.now) walk counts.now
        → result.1 ≡ end_sum High arcs.now slacks.now walk }
    ensures small { unsigned_abs result.0 ≤ 10300000000000 }
    ensures large { unsigned_abs result.1 ≤ 10300000000000 }
{
    let mut least = 0;
    let mut greatest = 0;
    for net in counts {
        least = plus(least, term_at(arcs, slacks, net, End::Low));
        greatest = plus(greatest, term_at(arcs, slacks, net, End::High));
    }
    (least, greatest)
}

/// The least offset that a sum allows, or the greatest.
fn offset_at(period: u32, sum: i128, end: End) -> i64
    requires period { 0 < period }
    requires small { unsigned_abs sum ≤ 10300000000000 }
    ensures value { result ≡ at_end end (sums.ceil_div sum period) (sums.floor_div sum period) }
    ensures size { unsigned_abs result ≤ 10300000000000 }
{
    match end {
        End::Low => ceil_div(sum, period) as i64,
        End::High => floor_div(sum, period) as i64,
    }
}

/// The range of offsets that slack ranges allow to a walk with these net counts (Odijk 1996).
pub fn bounds_of(
    period: u32,
    arcs: &[Arc],
    slacks: &[(u32, u32)],
    counts: &[NetCount],
) -> (i64, i64)
    requires period { 0 < period }
    requires arcs { AreArcs arcs.now }
    requires slacks { AreSlackEnds slacks.now }
    requires long { length slacks.now ≡ length arcs.now }
    requires counts { AreSmallCounts (length arcs.now) counts.now }
    ensures low { (walk : List SignedRow) → AreNetCounts (length arcs.now) walk counts.now
        → result.0 ≡ (odijk_range (record { period = period; arcs = arcs.now }) slacks.now walk).0 }
    ensures high { (walk : List SignedRow) → AreNetCounts (length arcs.now) walk counts.now
        → result.1 ≡ (odijk_range (record { period = period; arcs = arcs.now }) slacks.now walk).1 }
    ensures small { (z : ℤ) → result.0 ≤ℤ z → z ≤ℤ result.1 → IsSmallOffset period z }
    ensures ends { IsOffsetEnds result }
{
    let (least, greatest) = sums_of(arcs, slacks, counts);
    (
        offset_at(period, least, End::Low),
        offset_at(period, greatest, End::High),
    )
}

/// What two ranges share.
pub(crate) fn shared(range: (i64, i64), bounds: (i64, i64)) -> Option<(i64, i64)>
    ensures value { result ≡ range_or_none (int_max range.0 bounds.0) (int_min range.1 bounds.1) }
    ensures within { IfSome result
        (λ left. (bounds.0 ≤ℤ left.0) × (left.0 ≤ℤ left.1) × (left.1 ≤ℤ bounds.1)) }
{
    let low = range.0.max(bounds.0);
    let high = range.1.min(bounds.1);
    if low > high {
        return None;
    }
    Some((low, high))
}

/// The least and the greatest offset that an offset range and slack ranges leave to a walk with these net counts.
pub fn left_of(
    period: u32,
    arcs: &[Arc],
    slacks: &[(u32, u32)],
    counts: &[NetCount],
    range: (i64, i64),
) -> Option<(i64, i64)>
    requires period { 0 < period }
    requires arcs { AreArcs arcs.now }
    requires slacks { AreSlackEnds slacks.now }
    requires long { length slacks.now ≡ length arcs.now }
    requires counts { AreSmallCounts (length arcs.now) counts.now }
    ensures value { (walk : List SignedRow) → AreNetCounts (length arcs.now) walk counts.now
        → result ≡ left_of (record { period = period; arcs = arcs.now }) slacks.now range walk }
    ensures small { IfSome result
        (λ left. IsSmallOffset period left.0 × IsSmallOffset period left.1) }
{
    shared(range, bounds_of(period, arcs, slacks, counts))
}
