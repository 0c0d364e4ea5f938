//! Times of the events that are left, and slacks at times that come back.

ghost use Rattle.std.specs.Prelude.{◌≡◌, ℕ, ◌<◌, ◌≤◌, length, slice_index, map, unsigned_abs, pos, IfOk, All, vec_len};
ghost use Rattle.std.specs.Int.{int_rem_euclid};
ghost use Rattle.pesp_problem.specs.declared.limits.TheConstants.{MOST_LOWER, MOST_PERIOD};
ghost use Rattle.pesp_problem.specs.Timetables.{remainder};
ghost use Rattle.pesp_network.specs.Networks.{net_row_at};
ghost use Rattle.pesp_reduce.specs.Fates.{fate_at};
ghost use Rattle.pesp_reduce.specs.Times as spec;

use crate::fate::Fate;
use pesp_network::NetRow;
use std::alloc::{AllocError, Global};

/// The time that an event's shift leads back to.
fn lowered_time(period: u32, times: &[u32], shifts: &[u32], event: u32) -> u32
    requires some { 0 < period }
    requires most { period ≤ MOST_PERIOD }
    requires times { All (λ t. t < period) times.now }
    requires shifts { All (λ t. t < period) shifts.now }
    requires time { event < length times.now }
    requires shift { event < length shifts.now }
    ensures { result ≡ spec.lowered_time period times.now shifts.now event }
{
    (times[event as usize] + period - shifts[event as usize]) % period
}

/// The times that the shifts of these events lead back to.
pub fn lowered_times(
    alloc: Global,
    period: u32,
    times: &[u32],
    shifts: &[u32],
    firsts: &[u32],
) -> Result<Vec<u32>, AllocError>
    requires some { 0 < period }
    requires most { period ≤ MOST_PERIOD }
    requires times { All (λ t. t < period) times.now }
    requires shifts { All (λ t. t < period) shifts.now }
    requires count { length times.now ≡ length shifts.now }
    requires events { All (λ e. e < length times.now) firsts.now }
    ensures { IfOk result
        (λ made. made.items ≡ map (spec.lowered_time period times.now shifts.now) firsts.now) }
{
    let mut made = Vec::new(alloc);
    for first in firsts {
        made.push(lowered_time(period, times, shifts, *first))?;
    }
    Ok(made)
}

/// The remainder by the period.
fn wrapped(period: u32, z: &i64) -> u32
    requires some { 0 < period }
    requires most { period ≤ MOST_PERIOD }
    requires small { unsigned_abs z.now ≤ 10000000 }
    ensures value { result ≡ remainder period z.now }
    ensures below { result < period }
{
    z.rem_euclid(i64::from(period)) as u32
}

fn is_bridge(fate: Fate) -> bool
    ensures { result ≡ spec.is_bridge fate }
{
    match fate {
        Fate::Free => false,
        Fate::Contracted => false,
        Fate::Bridge => true,
        Fate::Kept => false,
    }
}

/// The time of the event that an event becomes, and the shift.
fn shifted(stands: &[u32], shifts: &[u32], times: &[u32], event: u32) -> i64
    requires stand { event < length stands.now }
    requires shift { event < length shifts.now }
    requires time { slice_index stands.now event < length times.now }
    requires times { All (λ t. t < MOST_PERIOD) times.now }
    requires shifts { All (λ t. t < MOST_PERIOD) shifts.now }
    ensures value { result ≡ spec.shifted stands.now shifts.now times.now event }
    ensures size { unsigned_abs result ≤ 20000 }
{
    let stand = stands[event as usize] as usize;
    i64::from(times[stand]) + i64::from(shifts[event as usize])
}

/// The slack of a row at shifted times, 0 for a bridge.
fn lifted_slack(
    period: u32,
    stands: &[u32],
    shifts: &[u32],
    times: &[u32],
    row: &NetRow,
    fate: Fate,
) -> u32
    requires some { 0 < period }
    requires most { period ≤ MOST_PERIOD }
    requires count { length shifts.now ≡ length stands.now }
    requires tail { row.now.tail < length stands.now }
    requires head { row.now.head < length stands.now }
    requires stands { All (λ c. c < length times.now) stands.now }
    requires times { All (λ t. t < period) times.now }
    requires shifts { All (λ t. t < period) shifts.now }
    requires lower { unsigned_abs row.now.lower ≤ MOST_LOWER }
    ensures value { result ≡ spec.lifted_slack period stands.now shifts.now times.now row.now fate }
    ensures below { result < period }
{
    if is_bridge(fate) {
        return 0;
    }
    let head = shifted(stands, shifts, times, row.head);
    let tail = shifted(stands, shifts, times, row.tail);
    let rest = head - tail - row.lower;
    wrapped(period, &rest)
}

/// The slacks of rows at shifted times, 0 for bridges.
pub fn lifted_slacks(
    alloc: Global,
    period: u32,
    stands: &[u32],
    shifts: &[u32],
    times: &[u32],
    rows: &[NetRow],
    fates: &[Fate],
) -> Result<Vec<u32>, AllocError>
    requires some { 0 < period }
    requires most { period ≤ MOST_PERIOD }
    requires count { length shifts.now ≡ length stands.now }
    requires fates { length fates.now ≡ length rows.now }
    requires tails { All (λ row. row.tail < length stands.now) rows.now }
    requires heads { All (λ row. row.head < length stands.now) rows.now }
    requires stands { All (λ c. c < length times.now) stands.now }
    requires times { All (λ t. t < period) times.now }
    requires shifts { All (λ t. t < period) shifts.now }
    requires lowers { All (λ row. unsigned_abs row.lower ≤ MOST_LOWER) rows.now }
    ensures count { IfOk result (λ slacks. vec_len slacks ≡ length rows.now) }
    ensures below { IfOk result (λ slacks. All (λ y. y < period) slacks.items) }
    ensures each { IfOk result (λ slacks. (i : ℕ) → i < length rows.now
        → slice_index slacks.items i ≡ spec.lifted_slack period stands.now shifts.now times.now
        (net_row_at rows.now i) (fate_at fates.now i)) }
{
    let mut slacks = Vec::new(alloc);
    for (i, row) in rows.iter().enumerate() {
        slacks.push(lifted_slack(period, stands, shifts, times, row, fates[i]))?;
    }
    Ok(slacks)
}
