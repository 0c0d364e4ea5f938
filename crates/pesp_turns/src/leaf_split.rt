//! A leaf that is split.

ghost use Rattle.std.specs.Prelude.{◌≡◌, IfOk, MatchOption};
ghost use Rattle.pesp_nodes.specs.Problems.{IsNodeOf};
ghost use Rattle.pesp_tree.specs.States.{node_at};
ghost use Rattle.pesp_turns.specs.Handing.{IsSplitAt, IsStepGiven};

use crate::handed_work::hand_in;
use pesp_board::{Board, GiveRefusal, Job, Work};
use pesp_branching::{Choice, expand, proposed_lines};
use pesp_nodes::Node;
use pesp_problem::Memory;
use std::alloc::Global;

/// Gives a cut, with what is proposed for either side, for the leaf that was just lent, at this node; says whether it is
/// taken, which it isn't where the tree would pass a limit. None where it isn't valid: then nothing has changed.
fn give_proposed(
    alloc: Global,
    board: &mut Board,
    job: &Job,
    node: &Node,
    choice: &Choice,
) -> Result<Option<bool>, Memory>
    requires split { IsSplitAt board.old.problem board.old.state job.now choice.now.cut }
    requires node { IsNodeOf board.old.problem node.now }
    ensures problem { board.new.problem ≡ board.old.problem }
    ensures given { IfOk result (λ found. MatchOption found (board.new.state ≡ board.old.state)
        (λ taken. IsStepGiven board.old.problem board.old.state job.now.number taken
        board.new.state)) }
{
    let Some(lines) = proposed_lines(alloc, board.problem(), node, choice)? else {
        return Ok(None);
    };
    match board.give(alloc, job.number, &Work::Tree(lines)) {
        Ok(()) => Ok(Some(true)),
        Err(GiveRefusal::TooLarge) => Ok(Some(false)),
        Err(GiveRefusal::Memory) => Err(Memory),
        Err(GiveRefusal::UnknownJob) => Ok(None),
        Err(GiveRefusal::AlreadyGiven) => Ok(None),
        Err(GiveRefusal::NotValid) => Ok(None),
    }
}

/// Gives a cut, with the leaf that is found on either side, for the leaf that was just lent, at this node; says whether it is
/// taken. It isn't where the tree would pass a limit.
fn give_found(
    alloc: Global,
    board: &mut Board,
    job: &Job,
    node: Node,
    choice: Choice,
) -> Result<bool, Memory>
    requires split { IsSplitAt board.old.problem board.old.state job.now choice.cut }
    requires node { IsNodeOf board.old.problem node }
    requires at { node ≡ node_at board.old.problem job.now.path.items }
    ensures problem { board.new.problem ≡ board.old.problem }
    ensures given { IfOk result (λ taken. IsStepGiven board.old.problem board.old.state
        job.now.number taken board.new.state) }
{
    let Some((_, start)) = board.job_leaf(job.number) else {
        unreachable!();
    };
    let lines = expand(alloc, board.problem(), node, choice, start)?;
    hand_in(alloc, board, job, &Work::Tree(lines))
}

/// Gives a cut, with the leaf that is proposed or found on either side, for the leaf that was just lent, at this node; says
/// whether it is taken. It isn't where the tree would pass a limit. What is proposed is judged by the board alone.
pub(crate) fn split_leaf(
    alloc: Global,
    board: &mut Board,
    job: &Job,
    node: Node,
    choice: Choice,
) -> Result<bool, Memory>
    requires split { IsSplitAt board.old.problem board.old.state job.now choice.cut }
    requires node { IsNodeOf board.old.problem node }
    requires at { node ≡ node_at board.old.problem job.now.path.items }
    ensures problem { board.new.problem ≡ board.old.problem }
    ensures given { IfOk result (λ taken. IsStepGiven board.old.problem board.old.state
        job.now.number taken board.new.state) }
{
    if let Some(taken) = give_proposed(alloc, board, job, &node, &choice)? {
        return Ok(taken);
    }
    give_found(alloc, board, job, node, choice)
}
