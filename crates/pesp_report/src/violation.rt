//! The activities that times violate.

ghost use Rattle.std.specs.Prelude.{◌≡◌, ◌+◌, ◌-◌, ◌<◌, ◌≤ℤ◌, ◌-ℤ◌, ◌++◌, [], int_lt, length, neg_ℤ, pos, IfOk, OnOk};
ghost use Rattle.std.specs.List.{cons_option};
ghost use Rattle.pesp_problem.specs.declared.limits.TheConstants.{MOST_BOUND};
ghost use Rattle.pesp_problem.specs.Timetables.{AreTimes, row_at};
ghost use Rattle.pesp_report.specs.Violations as spec;

use crate::line::line_at;
use pesp_problem::{Instance, Row};
use std::alloc::{AllocError, Global};

/// What is told of an activity that times violate: its number from 1 on and its label, the labels of its events, its
/// duration and its bounds in the instance's own unit, by how much its slack is above its span, and how much is missing to
/// its least duration, where it is taken for a period less.
#[derive(Clone, Copy)]
pub struct Violation {
    pub row: u32,
    pub label: i64,
    pub tail: i64,
    pub head: i64,
    pub duration: i64,
    pub lower: i64,
    pub upper: i64,
    pub excess: i64,
    pub short: u32,
}

/// How much a slack lacks of a period.
fn short_of(period: u32, slack: u32) -> u32
    ensures { result ≡ period - slack }
{
    period.saturating_sub(slack)
}

/// By how much a slack is above what the bounds of a row allow.
fn excess_of(slack: u32, row: &Row) -> i64
    requires lower { neg_ℤ (pos MOST_BOUND) ≤ℤ row.now.lower }
    requires bounds { row.now.lower ≤ℤ row.now.upper }
    requires upper { row.now.upper ≤ℤ pos MOST_BOUND }
    ensures { result ≡ pos slack -ℤ (row.now.upper -ℤ row.now.lower) }
{
    i64::from(slack) - (row.upper - row.lower)
}

/// Whether a slack is above what the bounds of a row allow.
fn is_above(slack: u32, row: &Row) -> bool
    requires lower { neg_ℤ (pos MOST_BOUND) ≤ℤ row.now.lower }
    requires bounds { row.now.lower ≤ℤ row.now.upper }
    requires upper { row.now.upper ≤ℤ pos MOST_BOUND }
    ensures { result ≡ int_lt (row.now.upper -ℤ row.now.lower) (pos slack) }
{
    i64::from(slack) > row.upper - row.lower
}

/// What is told of the row at a place, where the times violate it.
fn violation_at(instance: &Instance, times: &[u32], place: usize) -> Option<Violation>
    requires times { AreTimes instance.now times.now }
    requires place { place < length instance.now.rows }
    ensures { result ≡ spec.violation_at instance.now times.now
        (place + 1, row_at instance.now.rows place) }
{
    let row = &instance.rows()[place];
    let line = line_at(instance, times, place);
    if !is_above(line.slack, row) {
        return None;
    }
    Some(Violation {
        row: line.row,
        label: line.label,
        tail: line.tail,
        head: line.head,
        duration: line.duration,
        lower: row.lower,
        upper: row.upper,
        excess: excess_of(line.slack, row),
        short: short_of(instance.period(), line.slack),
    })
}

/// Adds a violated row where there is one.
fn push_some(
    violations: &mut Vec<Violation>,
    violation: Option<Violation>,
) -> Result<(), AllocError>
    ensures { OnOk result
        (violations.new.items ≡ violations.old.items ++ cons_option violation []) }
{
    if let Some(violation) = violation {
        violations.push(violation)?;
    }
    Ok(())
}

/// The rows that the times violate, in the order of the rows.
pub fn violations_of(
    alloc: Global,
    instance: &Instance,
    times: &[u32],
) -> Result<Vec<Violation>, AllocError>
    requires { AreTimes instance.now times.now }
    ensures { IfOk result
        (λ violations. violations.items ≡ spec.violations_of instance.now times.now) }
{
    let mut violations = Vec::new(alloc);
    for place in 0..instance.rows().len() {
        push_some(&mut violations, violation_at(instance, times, place))?;
    }
    Ok(violations)
}
