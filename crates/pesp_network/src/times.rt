//! Times that have given slacks.

ghost use Rattle.std.specs.Prelude.{◌≡◌, ℕ, ◌+◌, ◌-◌, ◌*◌, ◌<◌, ◌≤◌, ◌≢◌, ◌-ℤ◌, ◌+ℤ◌, pos, unsigned_abs, length, slice_index, IfOk, IfSome, IfNone, IsTrue, All, false, vec_len};
ghost use Rattle.std.specs.Int.{int_rem_euclid};
ghost use Rattle.pesp_problem.specs.declared.limits.TheConstants.{MOST_LOWER, MOST_PERIOD};
ghost use Rattle.pesp_problem.specs.Arcs as spec;
ghost use Rattle.pesp_network.specs.Networks.{arcs_of_network};
ghost use Rattle.pesp_network.specs.Growing.{at};
ghost use Rattle.pesp_problem.specs.ArcLimits.{HaveEnds};
ghost use Rattle.pesp_problem.specs.Arcs.{tail_of};
ghost use Rattle.pesp_network.specs.Rooted.{IsForest};
ghost use Rattle.pesp_problem.specs.Congruences.{IsSame};
ghost use Rattle.pesp_network.specs.Times.{duration, AreSlacks, FitsForest, OpensRow};

use crate::parts::Forest;
use crate::row::NetRow;
use pesp_problem::net_times::arc_slack;
use std::alloc::{AllocError, Global};

/// The remainder by the period.
fn wrapped(period: u32, z: i64) -> u32
    requires some { 0 < period }
    requires most { period ≤ MOST_PERIOD }
    requires small { unsigned_abs z ≤ 10000000 }
    ensures value { pos result ≡ int_rem_euclid z (pos period) }
    ensures less { result < period }
{
    z.rem_euclid(period as i64) as u32
}

/// A duration later.
fn later(period: u32, time: u32, row: &NetRow, slack: u32) -> u32
    requires some { 0 < period }
    requires most { period ≤ MOST_PERIOD }
    requires lower { unsigned_abs row.now.lower ≤ MOST_LOWER }
    requires slack { slack < period }
    requires time { time < period }
    ensures less { result < period }
    ensures same { IsSame period (pos result -ℤ pos time) (row.now.lower +ℤ pos slack) }
{
    wrapped(period, time as i64 + row.lower + slack as i64)
}

/// A duration earlier.
fn earlier(period: u32, time: u32, row: &NetRow, slack: u32) -> u32
    requires some { 0 < period }
    requires most { period ≤ MOST_PERIOD }
    requires lower { unsigned_abs row.now.lower ≤ MOST_LOWER }
    requires slack { slack < period }
    requires time { time < period }
    ensures less { result < period }
    ensures same { IsSame period (pos time -ℤ pos result) (row.now.lower +ℤ pos slack) }
{
    wrapped(period, time as i64 - row.lower - slack as i64)
}

/// The time of an event that is joined upwards, from the time of the event above it.
fn time_of(
    period: u32,
    rows: &[NetRow],
    forest: &Forest,
    slacks: &[u32],
    times: &[u32],
    event: usize,
) -> u32
    requires forest { IsForest (length times.now) (arcs_of_network rows.now) forest.now }
    requires slacks { AreSlacks period (arcs_of_network rows.now) slacks.now }
    requires times { (x : ℕ) → at times.now x < period }
    requires event { event < length times.now }
    requires joined { 0 < at forest.now.by.items event }
    ensures less { result < period }
    ensures as_head { tail_of (arcs_of_network rows.now) (at forest.now.by.items event)
        ≡ at forest.now.up.items event → IsSame period
        (pos result -ℤ pos (at times.now (at forest.now.up.items event)))
        (duration (arcs_of_network rows.now) slacks.now (at forest.now.by.items event)) }
    ensures as_tail { tail_of (arcs_of_network rows.now) (at forest.now.by.items event) ≢ at
        forest.now.up.items event → IsSame period
        (pos (at times.now (at forest.now.up.items event)) -ℤ pos result)
        (duration (arcs_of_network rows.now) slacks.now (at forest.now.by.items event)) }
{
    let by = forest.by[event];
    let row = &rows[by - 1];
    let up = forest.up[event];
    let slack = slacks[by - 1];
    let time = times[up];
    if row.tail as usize == up {
        later(period, time, row, slack)
    } else {
        earlier(period, time, row, slack)
    }
}

/// Times in which each row of the forest has its slack.
fn spread(
    alloc: Global,
    period: u32,
    events: usize,
    rows: &[NetRow],
    forest: &Forest,
    slacks: &[u32],
) -> Result<Vec<u32>, AllocError>
    requires forest { IsForest events (arcs_of_network rows.now) forest.now }
    requires slacks { AreSlacks period (arcs_of_network rows.now) slacks.now }
    ensures count { IfOk result (λ times. vec_len times ≡ events) }
    ensures less { IfOk result (λ times. (x : ℕ) → at times.items x < period) }
    ensures fits { IfOk result (λ times. FitsForest period (arcs_of_network rows.now) forest.now
        slacks.now times.items (vec_len forest.now.order)) }
{
    let mut times = vec![in alloc; 0u32; events]?;
    for i in 0..forest.order.len() {
        let event = forest.order[i];
        if forest.by[event] == 0 {
            continue;
        }
        let time = time_of(period, rows, forest, slacks, times.as_slice(), event);
        times[event] = time;
    }
    Ok(times)
}

/// Whether every row has its slack in these times.
fn have_slacks(period: u32, rows: &[NetRow], slacks: &[u32], times: &[u32]) -> bool
    requires slacks { AreSlacks period (arcs_of_network rows.now) slacks.now }
    requires ends { HaveEnds (length times.now) (arcs_of_network rows.now) }
    ensures all { IsTrue result → (i : ℕ) → i < length rows.now → spec.arc_slack period times.now
        (spec.arc_at (arcs_of_network rows.now) i) ≡ slice_index slacks.now i }
    ensures other { result ≡ false → (i : ℕ) × (i < length rows.now)
        × (spec.arc_slack period times.now (spec.arc_at (arcs_of_network rows.now) i)
        ≢ slice_index slacks.now i) }
{
    for (i, row) in rows.iter().enumerate() {
        let arc = row.arc();
        let slack = arc_slack(period, times, &arc);
        if slack != slacks[i] {
            return false;
        }
    }
    true
}

/// Times with exactly these slacks.
pub fn timetable_of(
    alloc: Global,
    period: u32,
    events: usize,
    rows: &[NetRow],
    forest: &Forest,
    slacks: &[u32],
) -> Result<Option<Vec<u32>>, AllocError>
    requires forest { IsForest events (arcs_of_network rows.now) forest.now }
    requires slacks { AreSlacks period (arcs_of_network rows.now) slacks.now }
    ensures count { IfOk result (λ o. IfSome o (λ times. vec_len times ≡ events)) }
    ensures below { IfOk result (λ o. IfSome o (λ times. All (λ t. t < period) times.items)) }
    ensures slacks { IfOk result (λ o. IfSome o
        (λ times. (i : ℕ) → i < length rows.now → spec.arc_slack period times.items
        (spec.arc_at (arcs_of_network rows.now) i) ≡ slice_index slacks.now i)) }
    ensures none { IfOk result
        (λ o. IfNone o (OpensRow period events (arcs_of_network rows.now) forest.now slacks.now)) }
{
    let times = spread(alloc, period, events, rows, forest, slacks)?;
    if have_slacks(period, rows, slacks, times.as_slice()) {
        return Ok(Some(times));
    }
    Ok(None)
}
