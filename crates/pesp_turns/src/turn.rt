//! One turn.

ghost use Rattle.std.specs.Prelude.{◌≡◌, IfOk};
ghost use Rattle.pesp_turns.specs.Knowing.{IsKnown};
ghost use Rattle.pesp_turns.specs.Handing.{IsJustLent};
ghost use Rattle.pesp_turns.specs.Turning.{IsTurn};

use crate::closed_leaf::close_at;
use crate::ending::Ending;
use crate::known::Known;
use crate::leaf_split::split_leaf;
use crate::path_node::node_from;
use pesp_board::{Board, Job, LendRefusal};
use pesp_branching::{Advised, ask, choose, offer_met};
use pesp_forest::TimesFinder;
use pesp_problem::Memory;
use pesp_strategy::Strategy;
use std::alloc::Global;

/// What a turn did: it split a leaf; it closed one, by a cycle that has no offset left or by times that cost no more than it is
/// worth; it found nothing to do with one, which is lent from then on; or it did nothing, and no turn is left.
#[derive(Clone, Copy)]
pub(crate) enum Turn {
    Split,
    Closed,
    GivenUp,
    Over(Ending),
}

/// Splits the leaf that was just lent where something is left to cut at its node, as is proposed; else closes it.
fn turn_on<F: TimesFinder>(
    alloc: Global,
    board: &mut Board,
    known: &Known,
    strategy: &mut Option<Strategy>,
    job: &Job,
    splits: u32,
    finder: &mut F,
) -> Result<Turn, Memory>
    requires known { IsKnown board.old.problem known.now }
    requires lent { IsJustLent board.old.problem board.old.state job.now }
    ensures problem { board.new.problem ≡ board.old.problem }
    ensures turn { (lent : IsJustLent board.old.problem board.old.state job.now)
        → IfOk result (λ turn. IsTurn board.old.problem known.now.reduced lent.before turn
        board.new.state) }
{
    let reduced = &known.reduced;
    let node = node_from(alloc, &known.root, &job.path)?;
    let Advised { cut, met } = ask(alloc, strategy, board, reduced, job, &node)?;
    let Some(choice) = choose(board.problem(), &node, &known.passed, cut) else {
        return close_at(alloc, board, reduced, job, &node);
    };
    let taken = split_leaf(alloc, board, job, node, choice)?;
    if !taken {
        return Ok(Turn::Over(Ending::TreeTooLarge));
    }
    offer_met(alloc, board, reduced, finder, met, splits)?;
    Ok(Turn::Split)
}

/// Lends an open leaf, and splits or closes it; where it is split, as many leaves are split then.
pub(crate) fn take_turn<F: TimesFinder>(
    alloc: Global,
    board: &mut Board,
    known: &Known,
    strategy: &mut Option<Strategy>,
    splits: u32,
    finder: &mut F,
) -> Result<Turn, Memory>
    requires { IsKnown board.old.problem known.now }
    ensures problem { board.new.problem ≡ board.old.problem }
    ensures turn { IfOk result (λ turn. IsTurn board.old.problem known.now.reduced
        board.old.state turn board.new.state) }
{
    board.problem().keeps_limits();
    board.best();
    match board.lend(alloc) {
        Ok(Some(job)) => turn_on(alloc, board, known, strategy, &job, splits, finder),
        Ok(None) => Ok(Turn::Over(Ending::NoneOpen)),
        Err(LendRefusal::NumbersSpent) => Ok(Turn::Over(Ending::NumbersSpent)),
        Err(LendRefusal::Memory) => Err(Memory),
    }
}
