//! A leaf at whose node nothing is left to cut.

ghost use Rattle.std.specs.Prelude.{◌≡◌, ◌<◌, ◌≤◌, ◌-◌, length, true, false, All, IfOk, IsSomeAnd};
ghost use Rattle.pesp_problem.specs.Nodes.{slack_range};
ghost use Rattle.pesp_nodes.specs.Problems.{ProblemValue};
ghost use Rattle.pesp_branching.specs.Settled.{low_slack};
ghost use Rattle.pesp_branching.specs.Lifted.{AreSlacksOf};
ghost use Rattle.pesp_turns.specs.Settling.{Settles, HaveLeastSlacks};
ghost use Rattle.pesp_turns.specs.Turning.{IsSettledByTimes, IsSettling};

use pesp_board::{Board, Job};
use pesp_network::NetRow;
use pesp_network::laws::whole_offsets_leave_no_row_open;
use pesp_nodes::Node;
use pesp_problem::Memory;
use pesp_reduce::Reduced;
use std::alloc::Global;

/// The least slack of a row that is left, below the period.
fn least_slack(reduced: &Reduced, slacks: &[(u32, u32)], row: &NetRow) -> u32
    ensures below { result < reduced.now.network.period }
    ensures same { 1 ≤ row.now.origin
        → (slack_range slacks.now (row.now.origin - 1)).0 < reduced.now.network.period
        → result ≡ (slack_range slacks.now (row.now.origin - 1)).0 }
{
    let most = reduced.network().period() - 1;
    let place = (row.origin as usize).wrapping_sub(1);
    let range = slacks.get(place).copied().unwrap_or((0, 0));
    range.0.min(most)
}

/// The least slacks of the rows that are left.
fn least_slacks(alloc: Global, reduced: &Reduced, node: &Node) -> Result<Vec<u32>, Memory>
    ensures count { IfOk result (λ left. length left.items ≡ length reduced.now.network.rows) }
    ensures below { IfOk result (λ left. All (λ y. y < reduced.now.network.period) left.items) }
    ensures slacks { (p : ProblemValue) → Settles p reduced.now node.now
        → IfOk result (λ left. AreSlacksOf reduced.now (low_slack node.now) left.items) }
{
    let _limits = reduced.network().period();
    let mut left = Vec::new(alloc);
    for row in reduced.network().rows() {
        left.push(least_slack(reduced, node.slacks(), row))?;
    }
    Ok(left)
}

/// The times of the instance at which each row that is left has its least slack; None where there are no such times, or they
/// are no timetable.
fn settled_times(alloc: Global, reduced: &Reduced, node: &Node) -> Result<Option<Vec<u32>>, Memory>
    ensures { (p : ProblemValue) → Settles p reduced.now node.now → IfOk result
        (λ found. IsSomeAnd found (λ times. HaveLeastSlacks reduced.now node.now times.items)) }
{
    whole_offsets_leave_no_row_open();
    let network = reduced.network();
    let left = least_slacks(alloc, reduced, node)?;
    let Some(times) = network.timetable_of(alloc, &left)? else {
        return Ok(None);
    };
    if !network.is_timetable(&times) {
        return Ok(None);
    }
    let lifted = reduced.lift_times(alloc, &times)?;
    Ok(Some(lifted))
}

/// Whether the number is lent with a leaf that is worth no less than the best times cost.
fn is_reached(board: &Board, number: u64) -> bool
    ensures reached { result ≡ true → IsSettledByTimes board.now.problem board.now.state number }
    ensures unreached { result ≡ false → IsSettledByTimes board.now.problem board.now.state number → ⊥ }
{
    let Some(cost) = board.best() else {
        return false;
    };
    let Some((value, _)) = board.job_leaf(number) else {
        return false;
    };
    cost <= value
}

/// Offers the times at which each row has its least slack, and gives the leaf back where it is closed so; says whether it is.
/// Else it stays lent, and isn't lent again.
pub(crate) fn settle(
    alloc: Global,
    board: &mut Board,
    reduced: &Reduced,
    job: &Job,
    node: &Node,
) -> Result<bool, Memory>
    ensures problem { board.new.problem ≡ board.old.problem }
    ensures settles { IfOk result (λ found. IsSettling board.old.problem reduced.now node.now
        board.old.state job.now.number found board.new.state) }
{
    let found = settled_times(alloc, reduced, node)?;
    let Some(times) = found else {
        return Ok(false);
    };
    board.offer(times);
    if !is_reached(board, job.number) {
        return Ok(false);
    }
    board.recall(job.number);
    Ok(true)
}
