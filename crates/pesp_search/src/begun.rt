//! A search that begins.

ghost use Rattle.std.specs.Prelude.{◌≡◌, IfOk, IfErr};
ghost use Rattle.pesp_branching.specs.Lifted.{IsReduced};
ghost use Rattle.pesp_turns.specs.Knowing.{IsKnown};
ghost use Rattle.pesp_search.specs.Beginning.{IsNewBoard, IsBegun};
ghost use Rattle.pesp_search.specs.Refusals.{MeetsLimit};
ghost use Rattle.pesp_search.specs.Solving.{IsSearchRefusal};

use crate::lifted_problem::problem_for;
use crate::planted_forest::{Planting, planted};
use crate::refusal::SolveRefusal;
use pesp_board::Board;
use pesp_forest::TimesFinder;
use pesp_nodes::Problem;
use pesp_problem::{Instance, Memory};
use pesp_reduce::Reduced;
use pesp_strategy::Strategy;
use pesp_turns::{Known, Observer, Search, known_of, strategy_of};
use std::alloc::Global;

/// A new board of the problem that is searched.
fn board_of(alloc: Global, instance: &Instance, reduced: &Reduced) -> Result<Board, SolveRefusal>
    requires original { reduced.now.original ≡ instance.now }
    requires reduced { IsReduced reduced.now }
    ensures board { IfOk result (IsNewBoard instance.now reduced.now) }
    ensures refused { IfErr result (IsSearchRefusal instance.now 0) }
    ensures passed { IfErr result (MeetsLimit instance.now 0) }
{
    let problem = problem_for(alloc, instance, reduced)?;
    let board = Board::new(alloc, problem)?;
    Ok(board)
}

/// What is known of a problem with what is left of its instance, and what proposes cuts for it.
fn known_and_strategy(
    alloc: Global,
    problem: &Problem,
    reduced: Reduced,
) -> Result<(Known, Option<Strategy>), Memory>
    ensures known { IfOk result (λ made. IsKnown problem.now made.0) }
    ensures reduced { IfOk result (λ made. made.0.reduced ≡ reduced) }
{
    let known = known_of(alloc, problem, reduced)?;
    match strategy_of(alloc, &known) {
        Ok(strategy) => Ok((known, strategy)),
        Err(refused) => {
            drop(known);
            Err(refused)
        }
    }
}

/// Begins the search over what is left of an instance.
pub(crate) fn begin_over(
    alloc: Global,
    instance: &Instance,
    reduced: Reduced,
) -> Result<Search, SolveRefusal>
    requires original { reduced.original ≡ instance.now }
    requires reduced { IsReduced reduced }
    ensures begun { IfOk result (IsBegun instance.now) }
    ensures refused { IfErr result (IsSearchRefusal instance.now 0) }
    ensures passed { IfErr result (MeetsLimit instance.now 0) }
{
    match board_of(alloc, instance, &reduced) {
        Ok(board) => match known_and_strategy(alloc, board.problem(), reduced) {
            Ok((known, strategy)) => Ok(Search {
                board,
                known,
                strategy,
                used: 0,
            }),
            Err(_) => {
                drop(board);
                Err(SolveRefusal::Memory)
            }
        },
        Err(refusal) => {
            drop(reduced);
            Err(refusal)
        }
    }
}

/// Begins the search for an instance: the board's problem is its network with the lifted walks of what is left of it. From then
/// on a finder looks for times of that. An observer looks on.
pub(crate) fn begin<F: TimesFinder, O: Observer>(
    alloc: Global,
    instance: &Instance,
    planting: Planting,
    finder: &mut F,
    observer: &mut O,
) -> Result<Search, SolveRefusal>
    ensures begun { IfOk result (IsBegun instance.now) }
    ensures refused { IfErr result (IsSearchRefusal instance.now 0) }
    ensures passed { IfErr result (MeetsLimit instance.now 0) }
{
    let reduced = planted(alloc, instance, planting, observer)?;
    let search = begin_over(alloc, instance, reduced)?;
    match finder.look_at(search.known.reduced.network()) {
        Ok(()) => Ok(search),
        Err(_) => {
            drop(search);
            Err(SolveRefusal::Memory)
        }
    }
}
