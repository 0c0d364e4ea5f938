//! Times that are given.

ghost use Rattle.std.specs.Prelude.{◌≡◌, OnOk};
ghost use Rattle.pesp_search.specs.Searching.{AreOffered};

use pesp_board::Board;
use pesp_forest::TimesFinder;
use pesp_problem::{Instance, Memory, Score, score};
use pesp_reduce::Reduced;
use std::alloc::Global;

/// Offers times; those that are no timetable aren't taken.
pub(crate) fn offer_given(alloc: Global, board: &mut Board, times: &[u32]) -> Result<(), Memory>
    ensures problem { board.new.problem ≡ board.old.problem }
    ensures offered { OnOk result
        (AreOffered board.old.problem times.now board.old.state board.new.state) }
{
    let copy = times.to_vec(alloc)?;
    board.offer(copy);
    Ok(())
}

/// Has a finder begin with times that are given too, where they are a timetable.
pub(crate) fn begin_with<F: TimesFinder>(
    alloc: Global,
    instance: &Instance,
    reduced: &Reduced,
    times: &[u32],
    finder: &mut F,
) -> Result<(), Memory>
    requires { reduced.now.original ≡ instance.now }
{
    let Score::Feasible { .. } = score(instance, times) else {
        return Ok(());
    };
    let lowered = reduced.lower_times(alloc, times)?;
    finder.take(lowered)
}
