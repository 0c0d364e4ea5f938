//! A certificate that is taken up, with all its open leaves lent.

ghost use Rattle.std.specs.Prelude.{IfOk, None};
ghost use Rattle.pesp_truth.specs.Certificates.{IsValid};
ghost use Rattle.pesp_worker.specs.Lent.{IsLentFrom};

use pesp_board::{Board, Job, LendRefusal};
use pesp_cert::Certificate;
use pesp_problem::{Instance, Memory};
use std::alloc::Global;

/// A board whose open leaves are all lent, and their jobs in the order of the tree's lines.
#[derive(Drop)]
pub struct Lent {
    pub board: Board,
    pub jobs: Vec<Job>,
}

/// Takes the base up, and lends all its open leaves.
pub fn lend_base(alloc: Global, instance: &Instance, base: &Certificate) -> Result<Lent, Memory>
    requires { IsValid None instance.now base.now }
    ensures { IfOk result (λ lent. IsLentFrom instance.now base.now lent.board.problem
        lent.jobs.items lent.board.state) }
{
    let mut board = Board::adopt(alloc, instance, base)?;
    board.best();
    match board.lend_all(alloc) {
        Ok(jobs) => Ok(Lent { board, jobs }),
        Err(LendRefusal::Memory) => Err(Memory),
        // A tree has at most 1000000 leaves.
        Err(LendRefusal::NumbersSpent) => unreachable!(),
    }
}
