//! Shifts of one side of a cut, all amounts at once.

ghost use Rattle.std.specs.Prelude.{◌≡◌, ℕ, ◌+◌, ◌*◌, ◌<◌, ◌≤◌, ◌+ℤ◌, ◌*ℤ◌, ◌≤ℤ◌, pos, length, unsigned_abs, All, IsTrue, IfSome, IsSome};
ghost use Rattle.pesp_problem.specs.declared.limits.TheConstants.{MOST_WEIGHT};
ghost use Rattle.pesp_propagate.specs.Shifts.{number_at, change, growth, Became, bars_of, IsCrossing, IsBestShift};
ghost use Rattle.pesp_propagate.specs.Entries.{crossings_of, IsEntry, AreForShifts};
ghost use Rattle.pesp_propagate.specs.Tallies.{TakesRow, TakesRows};

use crate::crossing::{Crossing, Entry, crossing_of};
use crate::numbers::{clear, lower, raise, slant, sum_up};
use pesp_problem::{Arc, MOST_PERIOD, MOST_ROWS};

/// What a row costs that goes once round the period.
fn lap(period: u32, weight: u64) -> u64
    requires most { period ≤ MOST_PERIOD }
    requires weight { weight ≤ MOST_WEIGHT }
    ensures value { result ≡ weight * period }
    ensures most { result ≤ 10000000000000 }
{
    weight * u64::from(period)
}

/// Notes where a row's cost wraps around, and where it isn't satisfied.
fn take_row(period: u32, row: Crossing, costs: &mut [i64], bars: &mut [i64])
    requires most { period ≤ MOST_PERIOD }
    requires row { IsCrossing period row }
    requires costs_long { length costs.old ≡ period + 1 }
    requires bars_long { length bars.old ≡ period + 1 }
    requires costs_room { (p : ℕ) → unsigned_abs (number_at costs.old p) ≤ 1000000000000000000 }
    requires bars_room { (p : ℕ) → unsigned_abs (number_at bars.old p) ≤ 1000000 }
    ensures { TakesRow period row costs.old costs.new bars.old bars.new }
{
    if row.inward {
        let wrap = (period - row.slack) as usize;
        lower(costs, wrap, lap(period, row.weight));
        raise(bars, (row.span - row.slack) as usize + 1, 1);
        lower(bars, wrap, 1);
    } else {
        let wrap = row.slack as usize + 1;
        raise(costs, wrap, lap(period, row.weight));
        raise(bars, wrap, 1);
        lower(bars, (row.slack + (period - row.span)) as usize, 1);
    }
}

/// Adds a row's weight to the slope under the sign with which its slack grows.
fn tilt(slope: &mut i64, row: Crossing)
    requires weight { row.weight ≤ MOST_WEIGHT }
    requires room { unsigned_abs slope.old ≤ 1000000000000000 }
    ensures { slope.new ≡ slope.old +ℤ pos row.weight *ℤ growth row 1 }
{
    if row.inward {
        *slope += row.weight as i64;
    } else {
        *slope -= row.weight as i64;
    }
}

/// Takes in all rows of the entries; false where one isn't within its limits.
fn tally(
    period: u32,
    arcs: &[Arc],
    slacks: &[u32],
    entries: &[Entry],
    slope: &mut i64,
    costs: &mut [i64],
    bars: &mut [i64],
) -> bool
    requires most { period ≤ MOST_PERIOD }
    requires few { length entries.now ≤ MOST_ROWS }
    requires begin { TakesRows period (crossings_of arcs.now slacks.now entries.now) 0 slope.old
        costs.old bars.old }
    ensures takes { IsTrue result → TakesRows period (crossings_of arcs.now slacks.now entries.now)
        (length entries.now) slope.new costs.new bars.new }
    ensures all { All (IsEntry period arcs.now slacks.now) entries.now → IsTrue result }
{
    for entry in entries {
        let Some(row) = crossing_of(period, arcs, slacks, *entry) else {
            return false;
        };
        take_row(period, row, costs, bars);
        tilt(slope, row);
    }
    true
}

/// How much dearer all rows that cross become, and how many of them aren't satisfied, for each amount of the shift; false
/// where period, rows or working numbers aren't within their limits.
pub fn shift_costs(
    period: u32,
    arcs: &[Arc],
    slacks: &[u32],
    entries: &[Entry],
    costs: &mut [i64],
    bars: &mut [i64],
) -> bool
    ensures some { IsTrue result → 0 < period }
    ensures long { IsTrue result
        → (length costs.new ≡ period + 1) × (length bars.new ≡ period + 1) }
    ensures rows { IsTrue result
        → All (IsCrossing period) (crossings_of arcs.now slacks.now entries.now) }
    ensures costs { IsTrue result
        → Became period (change period (crossings_of arcs.now slacks.now entries.now)) costs.new }
    ensures bars { IsTrue result
        → Became period (bars_of period (crossings_of arcs.now slacks.now entries.now)) bars.new }
    ensures all { AreForShifts period arcs.now slacks.now entries.now costs.old bars.old
        → IsTrue result }
{
    let count = period as usize;
    if count == 0 || count > MOST_PERIOD as usize || entries.len() > MOST_ROWS {
        return false;
    }
    if costs.len() != count + 1 || bars.len() != count + 1 {
        return false;
    }
    clear(costs);
    clear(bars);
    let mut slope = 0;
    if !tally(period, arcs, slacks, entries, &mut slope, costs, bars) {
        return false;
    }
    sum_up(costs, count);
    sum_up(bars, count);
    slant(costs, &slope, count);
    true
}

/// The amount of the cheapest shift that keeps all rows satisfied, 0 where none is cheaper than no shift; None where
/// period, rows or working numbers aren't within their limits.
pub fn best_shift(
    period: u32,
    arcs: &[Arc],
    slacks: &[u32],
    entries: &[Entry],
    costs: &mut [i64],
    bars: &mut [i64],
) -> Option<u32>
    ensures best { IfSome result
        (IsBestShift period (crossings_of arcs.now slacks.now entries.now)) }
    ensures found { AreForShifts period arcs.now slacks.now entries.now costs.old bars.old
        → IsSome result }
{
    if !shift_costs(period, arcs, slacks, entries, costs, bars) {
        return None;
    }
    let mut best = 0;
    for i in 1..period as usize {
        if bars[i] == 0 && costs[i] < costs[best] {
            best = i;
        }
    }
    Some(best as u32)
}
