//! Searches that leave rows out.

ghost use Rattle.std.specs.Prelude.{◌≤◌, ℕ, List, IfOk, IfErr};
ghost use Rattle.pesp_problem.specs.declared.limits.TheConstants.{MOST_STEPS};
ghost use Rattle.pesp_problem.specs.Timetables.{Pesp};
ghost use Rattle.pesp_truth.specs.Conflicts.{KeepsRows};
ghost use Rattle.pesp_conflict.specs.Refusals.{IsConflictRefusal};
ghost use Rattle.pesp_conflict.specs.Findings.{IsConflict};
ghost use Rattle.pesp_conflict.specs.Insides.{IsTrial};

use crate::decided_rows::decide;
use crate::decision::{Decision, are_fit};
use crate::lists::{are_among, has_others, without};
use pesp_forest::TimesFinder;
use pesp_problem::Instance;
use pesp_search::SolveRefusal;
use std::alloc::Global;

/// A listed row that is needed: times keep all others; fewer of the listed rows that are in conflict; or neither.
#[derive(Drop)]
pub enum Trial {
    Needed(u32),
    Fewer(Vec<u32>),
    Unknown,
}

/// What times that keep the rest say of a group that was left out: a row by itself is needed.
fn needed_in(listed: &[u32], group: &[u32], rest: &[u32]) -> Trial
    ensures { (p : Pesp) → (times : List ℕ) → KeepsRows p rest.now times
        → IsTrial p listed.now result }
{
    match group.first().copied() {
        Some(row) if has_others(listed, row, rest) => Trial::Needed(row),
        _ => Trial::Unknown,
    }
}

/// Fewer rows that are in conflict.
fn fewer_of(listed: &[u32], rows: Vec<u32>) -> Trial
    ensures { (p : Pesp) → IsConflict p rows.items → IsTrial p listed.now result }
{
    if are_among(listed, &rows) {
        Trial::Fewer(rows)
    } else {
        Trial::Unknown
    }
}

/// Searches for times that keep the listed rows but those of a group.
pub fn try_without<F: TimesFinder>(
    alloc: Global,
    instance: &Instance,
    listed: &[u32],
    group: &[u32],
    steps: u32,
    finder: &mut F,
) -> Result<Trial, SolveRefusal>
    requires { steps ≤ MOST_STEPS }
    ensures tried { IfOk result (IsTrial instance.now listed.now) }
    ensures refused { IfErr result (IsConflictRefusal instance.now steps) }
{
    let rest = without(alloc, listed, group)?;
    if !are_fit(instance, &rest) {
        return Ok(Trial::Unknown);
    }
    match decide(alloc, instance, &rest, steps, finder)? {
        Decision::Timetable => Ok(needed_in(listed, group, &rest)),
        Decision::Conflict(rows) => Ok(fewer_of(listed, rows)),
        Decision::Undecided => Ok(Trial::Unknown),
    }
}
