//! Leaves that are split on a board where some are open.

ghost use Rattle.std.specs.Prelude.{◌≡◌, ◌≤◌, IfOk};
ghost use Rattle.pesp_problem.specs.declared.limits.TheConstants.{MOST_STEPS};
ghost use Rattle.pesp_turns.specs.Knowing.{IsKnown};

use crate::held_leaves::lend_next;
use pesp_board::Board;
use pesp_forest::{NoTimes, TimesFinder};
use pesp_problem::{Instance, Memory};
use pesp_turns::{Ending, Nobody, Search};
use std::alloc::Global;

/// How often a leaf is looked for at most: no board lends more leaves.
const MOST_LOOKS: u32 = 1_000_000;

/// Whether an open leaf is worth less than a bound: the least one is looked at.
fn is_open_below(alloc: Global, board: &mut Board, bound: u64) -> Result<bool, Memory>
    ensures { board.new.problem ≡ board.old.problem }
{
    let Some(job) = lend_next(alloc, board)? else {
        return Ok(false);
    };
    let is_below = match board.job_leaf(job.number) {
        Some((value, _)) => value < bound,
        None => false,
    };
    board.recall(job.number);
    Ok(is_below)
}

/// Takes a turn, where an open leaf is worth less than a bound: how many leaves it split; None where no turn is left.
fn split_next<F: TimesFinder>(
    alloc: Global,
    search: &mut Search,
    bound: u64,
    finder: &mut F,
) -> Result<Option<u32>, Memory>
    requires { IsKnown search.old.board.problem search.old.known }
    ensures problem { search.new.board.problem ≡ search.old.board.problem }
    ensures known { search.new.known ≡ search.old.known }
{
    if !is_open_below(alloc, &mut search.board, bound)? {
        return Ok(None);
    }
    let ended = search.take_turn(alloc, finder)?;
    match ended.ending {
        Ending::StepsUsed | Ending::TurnsUsed => Ok(Some(ended.used)),
        Ending::NoneOpen | Ending::NumbersSpent | Ending::TreeTooLarge => Ok(None),
    }
}

/// Splits leaves that are worth less than a bound, that of least value first, at most so many.
fn split_below<F: TimesFinder>(
    alloc: Global,
    search: &mut Search,
    steps: u32,
    bound: u64,
    finder: &mut F,
) -> Result<(), Memory>
    requires { IsKnown search.old.board.problem search.old.known }
    ensures { search.new.board.problem ≡ search.old.board.problem }
{
    let mut used = 0u32;
    for _look in 0..MOST_LOOKS {
        if used >= steps {
            return Ok(());
        }
        let Some(split) = split_next(alloc, search, bound, finder)? else {
            return Ok(());
        };
        used = used.saturating_add(split);
    }
    Ok(())
}

/// Splits open leaves, that of least value first, at most so many: those that are worth less than a bound, where one is given.
fn split<F: TimesFinder>(
    alloc: Global,
    search: &mut Search,
    steps: u32,
    until: Option<u64>,
    finder: &mut F,
) -> Result<(), Memory>
    requires known { IsKnown search.old.board.problem search.old.known }
    requires few { steps ≤ MOST_STEPS }
    ensures { search.new.board.problem ≡ search.old.board.problem }
{
    match until {
        Some(bound) => split_below(alloc, search, steps, bound, finder),
        None => {
            search.run(alloc, steps, finder, &mut Nobody)?;
            Ok(())
        }
    }
}

/// Splits open leaves in the same way. The finder looks for times of what is left of the instance where the board has none: a
/// timetable is no part of what is worked on.
fn split_while_looking<F: TimesFinder>(
    alloc: Global,
    search: &mut Search,
    steps: u32,
    until: Option<u64>,
    finder: &mut F,
) -> Result<(), Memory>
    requires known { IsKnown search.old.board.problem search.old.known }
    requires few { steps ≤ MOST_STEPS }
    ensures { search.new.board.problem ≡ search.old.board.problem }
{
    if search.board.best().is_some() {
        return split(alloc, search, steps, until, &mut NoTimes);
    }
    finder.look_at(search.known.reduced.network())?;
    split(alloc, search, steps, until, finder)
}

/// The board with open leaves split; so many were split before.
pub(crate) fn split_on<F: TimesFinder>(
    alloc: Global,
    instance: &Instance,
    board: Board,
    before: u32,
    steps: u32,
    until: Option<u64>,
    finder: &mut F,
) -> Result<Board, Memory>
    requires { steps ≤ MOST_STEPS }
    ensures { IfOk result (λ worked. worked.problem ≡ board.problem) }
{
    let mut search = Search::on(alloc, instance, board)?;
    search.used = before;
    let done = split_while_looking(alloc, &mut search, steps, until, finder);
    let Search {
        board,
        known,
        strategy,
        ..
    } = search;
    drop(known);
    drop(strategy);
    match done {
        Ok(()) => Ok(board),
        Err(refused) => {
            drop(board);
            Err(refused)
        }
    }
}
