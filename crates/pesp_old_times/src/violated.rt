//! How many activities wanted times violate.

ghost use Rattle.std.specs.Prelude.{◌≡◌, ◌≤◌, ◌≤ℤ◌, ◌-ℤ◌, int_lt, pos, neg_ℤ, length, map, IfOk};
ghost use Rattle.pesp_problem.specs.declared.limits.TheConstants.{MOST_BOUND};
ghost use Rattle.pesp_problem.specs.Limits.{RowKeepsLimits};
ghost use Rattle.pesp_old_times.specs.Moves as spec;

use pesp_problem::{Instance, Memory, Row, slack_of};
use std::alloc::{AllocFailed, Global};

/// The wanted times, with 0 where none is wanted.
fn times_of(alloc: Global, wanted: &[Option<u32>]) -> Result<Vec<u32>, AllocFailed<u32>>
    ensures { IfOk result (λ times. times.items ≡ map spec.or_zero wanted.now) }
{
    let mut times = Vec::new(alloc);
    for time in wanted {
        times.push(or_zero(time))?;
    }
    Ok(times)
}

/// A wanted time, or 0 where none is wanted.
fn or_zero(time: &Option<u32>) -> u32
    ensures { result ≡ spec.or_zero time.now }
{
    match time {
        Some(time) => *time,
        None => 0,
    }
}

/// Whether a slack is above what the bounds of a row allow.
fn is_above(slack: u32, row: &Row) -> bool
    requires lower { neg_ℤ (pos MOST_BOUND) ≤ℤ row.now.lower }
    requires bounds { row.now.lower ≤ℤ row.now.upper }
    requires upper { row.now.upper ≤ℤ pos MOST_BOUND }
    ensures { result ≡ int_lt (row.now.upper -ℤ row.now.lower) (pos slack) }
{
    i64::from(slack) > row.upper - row.lower
}

/// Whether times of both ends of a row are wanted.
fn is_wanted(wanted: &[Option<u32>], row: &Row) -> bool
    requires { RowKeepsLimits (length wanted.now) row.now }
    ensures { result ≡ spec.is_wanted wanted.now row.now }
{
    wanted[row.tail as usize].is_some() && wanted[row.head as usize].is_some()
}

/// 1 where the wanted times of both ends of a row violate it, else 0.
fn violation(instance: &Instance, wanted: &[Option<u32>], times: &[u32], row: &Row) -> usize
    requires row { RowKeepsLimits (length wanted.now) row.now }
    requires times { times.now ≡ map spec.or_zero wanted.now }
    ensures exact { result ≡ spec.violation instance.now wanted.now row.now }
    ensures small { result ≤ 1 }
{
    let above = is_above(slack_of(instance.period(), times, row), row);
    if is_wanted(wanted, row) && above {
        1
    } else {
        0
    }
}

/// How many activities the wanted times violate, of those of whose both events a time is wanted. Where one is wanted of each
/// event, these are the activities that `report --violations` tells of the times.
pub fn count_violated(
    alloc: Global,
    instance: &Instance,
    wanted: &[Option<u32>],
) -> Result<usize, Memory>
    requires { length wanted.now ≡ length instance.now.events }
    ensures { IfOk result (λ count. count ≡ spec.violated instance.now wanted.now) }
{
    let times = times_of(alloc, wanted)?;
    let mut count = 0usize;
    for row in instance.rows() {
        count += violation(instance, wanted, &times, row);
    }
    Ok(count)
}
