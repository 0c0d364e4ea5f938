//! Leaves that are lent to the work.

ghost use Rattle.std.specs.Prelude.{◌≡◌, IfOk, IfSome, IsOk, IsTrue};
ghost use Rattle.pesp_tree.specs.Events.{LendsLeaf};
ghost use Rattle.pesp_worker.specs.Holding.{IsHeld};

use crate::copies::copy_pairs;
use pesp_board::{Board, GiveRefusal, Job, LendRefusal, Work, node_along};
use pesp_nodes::Node;
use pesp_problem::{Memory, Pairs};
use pesp_truth::TreeLine;
use std::alloc::Global;

/// A leaf that is lent to the work, with its node and its pairs.
#[derive(Drop)]
pub(crate) struct Held {
    pub(crate) job: Job,
    pub(crate) node: Node,
    pub(crate) pairs: Pairs,
}

/// Lends a leaf, where one is open and a number is left.
pub(crate) fn lend_next(alloc: Global, board: &mut Board) -> Result<Option<Job>, Memory>
    ensures problem { board.new.problem ≡ board.old.problem }
    ensures lends { IfOk result (λ next. IfSome next
        (λ job. LendsLeaf board.old.problem board.old.state job board.new.state)) }
{
    match board.lend(alloc) {
        Ok(next) => Ok(next),
        Err(LendRefusal::Memory) => Err(Memory),
        Err(LendRefusal::NumbersSpent) => Ok(None),
    }
}

/// Lends a leaf to the work, where one is open and a number is left.
pub(crate) fn hold(alloc: Global, board: &mut Board) -> Result<Option<Held>, Memory>
    ensures problem { board.new.problem ≡ board.old.problem }
    ensures held { IfOk result (λ next. IfSome next (IsHeld board.old.problem)) }
{
    let Some(job) = lend_next(alloc, board)? else {
        return Ok(None);
    };
    let _best = board.best();
    let node = node_along(alloc, board.problem(), &job.path)?;
    let Some((_, pairs)) = board.job_leaf(job.number) else {
        return Ok(None);
    };
    let pairs = copy_pairs(alloc, pairs)?;
    Ok(Some(Held { job, node, pairs }))
}

/// Whether what was given is taken.
pub(crate) fn is_taken(given: Result<(), GiveRefusal>) -> Result<bool, Memory>
    ensures { IfOk result (λ taken. IsTrue taken → IsOk given) }
{
    match given {
        Ok(()) => Ok(true),
        Err(GiveRefusal::Memory) => Err(Memory),
        Err(_) => Ok(false),
    }
}

/// Gives lines for the leaf; says whether they are taken.
pub(crate) fn hand_in(
    alloc: Global,
    board: &mut Board,
    number: u64,
    lines: Vec<TreeLine>,
) -> Result<bool, Memory>
    ensures { board.new.problem ≡ board.old.problem }
{
    is_taken(board.give(alloc, number, &Work::Tree(lines)))
}
