//! The conflict of an instance.

ghost use Rattle.std.specs.Prelude.{◌≤◌, IfOk, IfErr};
ghost use Rattle.pesp_problem.specs.declared.limits.TheConstants.{MOST_STEPS};
ghost use Rattle.pesp_conflict.specs.Refusals.{IsConflictRefusal};
ghost use Rattle.pesp_conflict.specs.Findings.{IsConflict, IsFinding};
ghost use Rattle.pesp_conflict.specs.Insides.{IsFirstDecision, IsShown};

use crate::decided_rows::decide;
use crate::decision::Decision;
use crate::deletion_filter::sift_all;
use crate::finding::{Conflict, Finding};
use crate::known::{conflict_of, known_of};
use crate::lists::all_rows;
use crate::settings::TRIAL_STEPS;
use pesp_forest::TimesFinder;
use pesp_problem::Instance;
use pesp_search::SolveRefusal;
use std::alloc::Global;

/// Searches over all rows.
fn decide_all<F: TimesFinder>(
    alloc: Global,
    instance: &Instance,
    steps: u32,
    finder: &mut F,
) -> Result<Decision, SolveRefusal>
    requires { steps ≤ MOST_STEPS }
    ensures decided { IfOk result (IsFirstDecision instance.now steps) }
    ensures refused { IfErr result (IsConflictRefusal instance.now steps) }
{
    let rows = all_rows(alloc, instance.rows().len() as u32)?;
    decide(alloc, instance, &rows, steps, finder)
}

/// Leaves out of the rows what can be left out.
fn narrowed<F: TimesFinder>(
    alloc: Global,
    instance: &Instance,
    rows: Vec<u32>,
    steps: u32,
    finder: &mut F,
) -> Result<Conflict, SolveRefusal>
    requires steps { steps ≤ MOST_STEPS }
    requires conflict { IsConflict instance.now rows.items }
    ensures shown { IfOk result (IsShown instance.now) }
    ensures refused { IfErr result (IsConflictRefusal instance.now steps) }
{
    let mut known = known_of(alloc, rows);
    let trial_steps = steps.min(TRIAL_STEPS);
    sift_all(alloc, instance, &mut known, trial_steps, finder)?;
    Ok(conflict_of(known))
}

/// Searches, by at most so many splits of a leaf, for a reason why the instance has no timetable. `Conflict` lists rows, by
/// rising number, of which every list of times violates one; where it says that each is needed, there are for each listed row
/// times that keep all other listed rows. Each is listed that could not be left out within a fixed amount of search; rows of
/// the greatest span are left out first (the deletion filter, Chinneck 2008). `Timetable` says that the instance has a
/// timetable, and `Undecided` that a search over all rows used all its steps and found neither. A finder looks for times; nothing
/// that is promised rests on it.
///
/// Refused as `TableTooLarge` only where the square of the number of activities is above 10000000, as `PairsTooMany` only
/// where that number times one more than the steps is above 20000000, and where a search over some rows meets that limit; and
/// else as `Memory`, where a growth was refused.
pub fn conflict<F: TimesFinder>(
    alloc: Global,
    instance: &Instance,
    steps: u32,
    finder: &mut F,
) -> Result<Finding, SolveRefusal>
    requires { steps ≤ MOST_STEPS }
    ensures found { IfOk result (IsFinding instance.now steps) }
    ensures refused { IfErr result (IsConflictRefusal instance.now steps) }
{
    match decide_all(alloc, instance, steps, finder)? {
        Decision::Conflict(rows) => Ok(Finding::Conflict(narrowed(
            alloc, instance, rows, steps, finder,
        )?)),
        Decision::Timetable => Ok(Finding::Timetable),
        Decision::Undecided => Ok(Finding::Undecided),
    }
}
