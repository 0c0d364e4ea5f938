//! Whether times are a timetable, for all that tells of one.

ghost use Rattle.std.specs.Prelude.{IfErr, IfOk};
ghost use Rattle.pesp_problem.specs.Timetables.{IsTimetableOfCost};
ghost use Rattle.pesp_report.specs.Reporting.{RefusesTimes};

use crate::refusal::ReportRefusal;
use pesp_problem::{Instance, Score, score};

/// What a timetable costs.
///
/// `NotTimes` where there isn't one time below the period for each event, and `Violates` with the first row that isn't
/// satisfied.
pub fn cost_of(instance: &Instance, times: &[u32]) -> Result<u64, ReportRefusal>
    ensures cost { IfOk result (IsTimetableOfCost instance.now times.now) }
    ensures refused { IfErr result (RefusesTimes instance.now times.now) }
{
    match score(instance, times) {
        Score::NotTimes => Err(ReportRefusal::NotTimes),
        Score::Violates { row, .. } => Err(ReportRefusal::Violates { row }),
        Score::Feasible { cost } => Ok(cost),
    }
}
