//! Timetables near to times.

ghost use Rattle.std.specs.Prelude.{IfOk, IfSome};
ghost use Rattle.pesp_problem.specs.Timetables.{IsTimetable};

use pesp_problem::{Instance, Memory, Score, score};
use pesp_repair::near_times;
use std::alloc::Global;

/// A timetable near to the times that are wanted of the events, in their order; an event of which none is wanted may be anywhere.
/// None where none was found, which says nothing of whether there is one. Every call gives the same, after a counted number of
/// steps.
pub fn repaired(
    alloc: Global,
    instance: &Instance,
    wanted: &[Option<u32>],
) -> Result<Option<Vec<u32>>, Memory>
    ensures { IfOk result (λ found. IfSome found (λ times. IsTimetable instance.now times.items)) }
{
    let Some(times) = near_times(alloc, instance, wanted)? else {
        return Ok(None);
    };
    match score(instance, &times) {
        Score::Feasible { .. } => Ok(Some(times)),
        _ => Ok(None),
    }
}
