//! The leaf that is worked on, before it is split.

ghost use Rattle.std.specs.Prelude.{◌≡◌};
ghost use Rattle.pesp_worker.specs.Holding.{IsHeld};

use crate::copies::one_line;
use crate::held_leaves::{Held, hand_in, hold};
use pesp_board::{Board, is_shut_by_propagation};
use pesp_bound::best_leaf_from;
use pesp_branching::leaf_line;
use pesp_nodes::Problem;
use pesp_problem::Memory;
use pesp_truth::TreeLine;
use std::alloc::Global;

/// How many pivots look for the leaf that is worked on.
const ROUNDS: u32 = 1_000;

/// The line of the best leaf that is found.
fn found_line(alloc: Global, problem: &Problem, held: &Held) -> Result<TreeLine, Memory>
    requires { IsHeld problem.now held.now }
{
    if is_shut_by_propagation(alloc, problem, &held.node)? {
        return Ok(TreeLine::Propagated);
    }
    let leaf = best_leaf_from(alloc, problem, &held.node, held.pairs.as_slice(), ROUNDS)?;
    Ok(leaf_line(leaf))
}

/// Gives the best leaf that is found in the place of the open leaf, which is never worth less; says whether it is taken.
pub(crate) fn improve_leaf(alloc: Global, board: &mut Board) -> Result<bool, Memory>
    ensures { board.new.problem ≡ board.old.problem }
{
    let Some(held) = hold(alloc, board)? else {
        return Ok(false);
    };
    let line = found_line(alloc, board.problem(), &held)?;
    let lines = one_line(alloc, line)?;
    hand_in(alloc, board, held.job.number, lines)
}
