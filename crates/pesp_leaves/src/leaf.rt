//! What a leaf is worth at a node.

ghost use Rattle.std.specs.Prelude.{◌≡◌, ◌*◌, ◌^◌, ◌<◌, ◌≤◌, List, length, pos, ◌*ℤ◌, unsigned_abs, IfSome, option_map};
ghost use Rattle.pesp_problem.specs.declared.limits.TheConstants.{MOST_MULTIPLIER, MOST_PERIOD};
ghost use Rattle.pesp_problem.specs.declared.row.SignedRow.{SignedRow};
ghost use Rattle.pesp_problem.specs.Limits.{KeepsLimits};
ghost use Rattle.pesp_problem.specs.Timetables.{Pesp};
ghost use Rattle.pesp_problem.specs.Sums as sums;
ghost use Rattle.pesp_problem.specs.Arcs.{net_of};
ghost use Rattle.pesp_problem.specs.Nodes as nodes;
ghost use Rattle.pesp_problem.specs.Nets.{AreSmallCounts, AreNetCounts, AreZeros, AreNets};
ghost use Rattle.pesp_leaves.specs.Offsets.{AreSlackRanges, IsSmallOffset};
ghost use Rattle.pesp_leaves.specs.Flows.{ArePairsOf};
ghost use Rattle.pesp_problem.specs.Ranges.{left_of};
ghost use Rattle.pesp_leaves.specs.Ranges.{node_of, AreRanges, idle_part};

use crate::checker::Checker;
use crate::elements::Elements;
use crate::flows::{add_flows, take_flows};
use crate::offsets::{duration_sums, left_between, scaled};
use crate::ranges::Ranges;
use pesp_problem::exact::{plus, times};
use pesp_problem::{Instance, NetCount, Pair};

/// The least and the greatest offset that an offset range and slack ranges leave to a cycle.
pub fn offsets_left(
    instance: &Instance,
    counts: &[NetCount],
    slacks: &[(u32, u32)],
    range: (i64, i64),
) -> Option<(i64, i64)>
    requires slacks { AreSlackRanges (length instance.now.rows) slacks.now }
    requires counts { AreSmallCounts (length instance.now.rows) counts.now }
    ensures value { (walk : List SignedRow)
        → AreNetCounts (length instance.now.rows) walk counts.now
        → result ≡ left_of (net_of instance.now) slacks.now range walk }
    ensures small { IfSome result (λ left. IsSmallOffset instance.now.period left.0
        × IsSmallOffset instance.now.period left.1) }
{
    left_between(
        instance.period(),
        duration_sums(instance, counts, slacks),
        range,
    )
}

/// The period times an offset.
fn period_times(period: u32, offset: i64) -> i128
    requires period { period ≤ MOST_PERIOD }
    requires small { IsSmallOffset period offset }
    ensures value { result ≡ pos period *ℤ offset }
    ensures size { unsigned_abs result ≤ 10100000000000 }
{
    times(i128::from(period), i128::from(offset))
}

/// The period times the multiplier times the least offset left, or times the greatest where the multiplier is negative.
fn scaled_offset(period: u32, mult: i64, left: (i64, i64)) -> i128
    requires period { period ≤ MOST_PERIOD }
    requires mult { unsigned_abs mult ≤ MOST_MULTIPLIER }
    requires low { IsSmallOffset period left.0 }
    requires high { IsSmallOffset period left.1 }
    ensures value { result ≡ pos period *ℤ sums.scaled mult left.0 left.1 }
    ensures size { unsigned_abs result ≤ 1000000000000 * 10100000000000 }
{
    let low = period_times(period, left.0);
    let high = period_times(period, left.1);
    scaled(i128::from(mult), low, high)
}

/// The period times the sum over the pairs of the multiplier times the offset that it takes; none where a cycle has no
/// offset left.
pub fn offset_sum<P: Elements<Pair>>(
    checker: &Checker<'_>,
    ranges: &Ranges,
    pairs: P,
) -> Option<i128>
    requires ranges { AreRanges checker.now.instance.now ranges.now }
    requires cycles { length ranges.now.offsets.items ≡ length checker.now.table.now }
    requires pairs { ArePairsOf (length checker.now.table.now) (P.elements pairs) }
    ensures value { (walks : List (List SignedRow))
        → AreNets (length checker.now.instance.now.rows) walks checker.now.table.now
        → result ≡ option_map (λ z. pos checker.now.instance.now.period *ℤ z)
        (nodes.offset_part (net_of checker.now.instance.now) walks (node_of ranges.now)
        (P.elements pairs)) }
    ensures size { IfSome result (λ z. unsigned_abs z ≤ 100000 * (1000000000000 * 10100000000000)) }
    ensures limits { KeepsLimits checker.now.instance.now }
{
    let period = checker.instance.period();
    let mut left = pairs;
    let mut sum = 0;
    while let Some(pair) = left.take_next() {
        let at = pair.cycle as usize - 1;
        let range = offsets_left(
            checker.instance,
            checker.table[at].counts(),
            &ranges.slacks,
            ranges.offsets[at],
        )?;
        sum = plus(sum, scaled_offset(period, pair.mult, range));
    }
    Some(sum)
}

/// What the slacks cost at least where no flow passes them: 0 without weights.
fn idle_part(ranges: &Ranges, weighted: bool) -> i128
    ensures value { (p : Pesp) → AreRanges p ranges.now
        → result ≡ idle_part p ranges.now.slacks.items weighted }
    ensures size { (p : Pesp) → KeepsLimits p → AreRanges p ranges.now
        → unsigned_abs result ≤ 10 ^ 18 }
{
    if weighted { ranges.idle } else { 0 }
}

/// The value of a leaf with these pairs, by weak duality for circulations; none where a cycle of a pair has no offset left.
/// The working numbers, one a row, are 0 before and after.
pub fn leaf_value<P: Elements<Pair>>(
    checker: &Checker<'_>,
    ranges: &Ranges,
    pairs: P,
    weighted: bool,
    working: &mut [i128],
) -> Option<i128>
    requires ranges { AreRanges checker.now.instance.now ranges.now }
    requires cycles { length ranges.now.offsets.items ≡ length checker.now.table.now }
    requires pairs { ArePairsOf (length checker.now.table.now) (P.elements pairs) }
    requires long { length working.old ≡ length checker.now.instance.now.rows }
    requires zeros { AreZeros working.old }
    ensures value { (walks : List (List SignedRow))
        → AreNets (length checker.now.instance.now.rows) walks checker.now.table.now
        → result ≡ nodes.leaf_value (net_of checker.now.instance.now) walks (node_of ranges.now)
        (P.elements pairs) weighted }
    ensures size { IfSome result (λ v. unsigned_abs v ≤ 14 * 10 ^ 37) }
    ensures zeros { AreZeros working.new }
{
    let offsets = offset_sum(checker, ranges, pairs)?;
    let Checker {
        instance,
        table,
        ..
    } = *checker;
    add_flows(working, table, pairs);
    let moved = take_flows(instance, &ranges.slacks, weighted, table, pairs, working);
    let idle = idle_part(ranges, weighted);
    Some(plus(offsets, plus(moved, idle)))
}
