//! A leaf that is closed.

ghost use Rattle.std.specs.Prelude.{◌≡◌, None, IfOk};
ghost use Rattle.pesp_truth.specs.Trees.{Plain, Gap, IsSoundLeaf};
ghost use Rattle.pesp_nodes.specs.Problems.{problem_net, IsNodeOf};
ghost use Rattle.pesp_tree.specs.States.{node_at};
ghost use Rattle.pesp_tree.specs.declared.work.Work.TheVariants.{Gap as GivesGap};
ghost use Rattle.pesp_branching.specs.Settled.{IsSettled};
ghost use Rattle.pesp_turns.specs.Handing.{IsJustLent, IsGiven};
ghost use Rattle.pesp_turns.specs.Turning.{turn_given, turn_found, IsTurn};

use crate::ending::Ending;
use crate::handed_work::hand_in;
use crate::settled_leaf::settle;
use crate::turn::Turn;
use pesp_board::{Board, Job, Work};
use pesp_branching::gap_at;
use pesp_nodes::Node;
use pesp_problem::Memory;
use pesp_reduce::Reduced;
use std::alloc::Global;

/// Closes the leaf that was just lent by a cycle that has no offset left; says whether that is taken.
fn close_leaf(alloc: Global, board: &mut Board, job: &Job, cycle: u32) -> Result<bool, Memory>
    requires lent { IsJustLent board.old.problem board.old.state job.now }
    requires gap { IsSoundLeaf (Plain None) (problem_net board.old.problem) board.old.problem.table (Gap cycle)
        (node_at board.old.problem job.now.path.items) }
    ensures problem { board.new.problem ≡ board.old.problem }
    ensures given { IfOk result (λ taken. IsGiven board.old.problem board.old.state job.now.number
        (GivesGap cycle) taken board.new.state) }
{
    hand_in(alloc, board, job, &Work::Gap(cycle))
}

/// What a turn did that closed a leaf, where that was taken.
fn closed(taken: bool) -> Turn
    ensures { result ≡ turn_given taken }
{
    if taken {
        Turn::Closed
    } else {
        Turn::Over(Ending::TreeTooLarge)
    }
}

/// What a turn did that settled a leaf, where times closed it.
fn settled(found: bool) -> Turn
    ensures { result ≡ turn_found found }
{
    if found { Turn::Closed } else { Turn::GivenUp }
}

/// Closes the leaf that was just lent, at whose node nothing is left to cut: by a cycle that has no offset left, or by times.
pub(crate) fn close_at(
    alloc: Global,
    board: &mut Board,
    reduced: &Reduced,
    job: &Job,
    node: &Node,
) -> Result<Turn, Memory>
    requires lent { IsJustLent board.old.problem board.old.state job.now }
    requires at { node.now ≡ node_at board.old.problem job.now.path.items }
    requires node { IsNodeOf board.old.problem node.now }
    requires settled { IsSettled (problem_net board.old.problem) board.old.problem.table node.now }
    ensures problem { board.new.problem ≡ board.old.problem }
    ensures turn { (lent : IsJustLent board.old.problem board.old.state job.now) → IfOk result
        (λ turn. IsTurn board.old.problem reduced.now lent.before turn board.new.state) }
{
    if let Some(cycle) = gap_at(board.problem(), node) {
        let taken = close_leaf(alloc, board, job, cycle)?;
        return Ok(closed(taken));
    }
    let found = settle(alloc, board, reduced, job, node)?;
    Ok(settled(found))
}
