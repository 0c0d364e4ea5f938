//! Work for a leaf that was just lent.

ghost use Rattle.std.specs.Prelude.{◌≡◌, IfOk};
ghost use Rattle.pesp_turns.specs.Handing.{IsHandedIn, IsGiven};

use pesp_board::{Board, GiveRefusal, Job, Work};
use pesp_branching::turn::valid_work_is_taken;
use pesp_problem::Memory;
use std::alloc::Global;

/// Gives valid work for a leaf that is lent; says whether it is taken. It isn't where the tree would pass a limit.
///
/// Refused where a growth is refused.
pub fn hand_in(alloc: Global, board: &mut Board, job: &Job, work: &Work) -> Result<bool, Memory>
    requires { IsHandedIn board.old.problem board.old.state job.now work.now }
    ensures problem { board.new.problem ≡ board.old.problem }
    ensures given { IfOk result (λ taken. IsGiven board.old.problem board.old.state job.now.number
        work.now taken board.new.state) }
{
    valid_work_is_taken();
    match board.give(alloc, job.number, work) {
        Ok(()) => Ok(true),
        Err(GiveRefusal::TooLarge) => Ok(false),
        Err(GiveRefusal::Memory) => Err(Memory),
        Err(GiveRefusal::UnknownJob) => unreachable!(),
        Err(GiveRefusal::AlreadyGiven) => unreachable!(),
        Err(GiveRefusal::NotValid) => unreachable!(),
    }
}
