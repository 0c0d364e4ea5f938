//! Times of a problem's network, judged without memory.

ghost use Rattle.pesp_board.specs.Timetables.{Judges};

use pesp_nodes::Problem;

/// The cost of times that are a timetable of the problem's network; None where they aren't one.
pub(crate) fn judge(problem: &Problem, times: &[u32]) -> Option<u64>
    ensures { Judges problem.now times.now result }
{
    let network = problem.network();
    if !network.is_timetable(times) {
        return None;
    }
    Some(network.cost_of(times))
}
