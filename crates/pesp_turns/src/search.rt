//! Searches.

ghost use Rattle.std.specs.Prelude.{◌+◌, ◌-◌, ◌^◌, min, ◌≡◌, ◌≤◌, IfOk};
ghost use Rattle.pesp_problem.specs.declared.limits.TheConstants.{MOST_STEPS};
ghost use Rattle.pesp_turns.specs.Knowing.{IsKnown};
ghost use Rattle.pesp_branching.specs.Turns.{IsWorked};
ghost use Rattle.pesp_turns.specs.Settling.{IsSearched};
ghost use Rattle.pesp_turns.specs.Growing.{Grows};
ghost use Rattle.pesp_turns.specs.Turning.{splits_in, ending_after, IsTold};
ghost use Rattle.pesp_turns.specs.Counting.{AreTurns};
ghost use Rattle.pesp_turns.specs.Endings.{AreLentSettled, EndsAs};

use crate::all_turns::run_turns;
use crate::ending::{Ended, Ending};
use crate::known::{Known, known_of};
use crate::observer::Observer;
use crate::original_forest::replanted;
use crate::strategies::strategy_for;
use crate::turn::{Turn, take_turn};
use pesp_board::Board;
use pesp_forest::TimesFinder;
use pesp_problem::{Instance, Memory};
use pesp_strategy::Strategy;
use std::alloc::Global;

/// A board in any state, what is known of its problem, what proposes cuts where its cycles are those of a forest of what is left of
/// the instance, and how many leaves were split so far.
#[derive(Drop)]
pub struct Search {
    pub board: Board,
    pub known: Known,
    pub strategy: Option<Strategy>,
    pub used: u32,
}

/// What is known of the board's problem, and what proposes cuts for it.
fn known_and_strategy(
    alloc: Global,
    instance: &Instance,
    board: &Board,
) -> Result<(Known, Option<Strategy>), Memory>
    ensures { IfOk result (λ made. IsKnown board.now.problem made.0) }
{
    let reduced = replanted(alloc, instance, board.problem().table())?;
    let known = known_of(alloc, board.problem(), reduced)?;
    match strategy_for(alloc, &known, board.problem()) {
        Ok(strategy) => Ok((known, strategy)),
        Err(refused) => {
            drop(known);
            Err(refused)
        }
    }
}

/// How many leaves a turn split, and why no other is taken with it.
fn ended_by(turn: Turn) -> Ended
    ensures used { result.used ≡ splits_in turn }
    ensures ending { result.ending ≡ ending_after turn }
{
    match turn {
        Turn::Split => Ended {
            used: 1,
            ending: Ending::StepsUsed,
        },
        Turn::Closed | Turn::GivenUp => Ended {
            used: 0,
            ending: Ending::TurnsUsed,
        },
        Turn::Over(ending) => Ended { used: 0, ending },
    }
}

impl Search {
    /// A search that goes on from a board in any state. Cuts are proposed where the cycles are lifted fundamental walks of a
    /// forest of what is left of the instance.
    ///
    /// Refused where a growth is refused.
    pub fn on(alloc: Global, instance: &Instance, board: Board) -> Result<Search, Memory>
        ensures board { IfOk result (λ search. search.board ≡ board) }
        ensures known { IfOk result (λ search. IsKnown board.problem search.known) }
        ensures used { IfOk result (λ search. search.used ≡ 0) }
    {
        match known_and_strategy(alloc, instance, &board) {
            Ok((known, strategy)) => Ok(Search {
                board,
                known,
                strategy,
                used: 0,
            }),
            Err(refused) => {
                drop(board);
                Err(refused)
            }
        }
    }

    /// Takes turns on the open leaves, of least value first, until so many were split, or none can be lent any more. A finder
    /// looks for times of what is left of the instance, and an observer looks on.
    ///
    /// Refused where a growth is refused.
    pub fn run<F: TimesFinder, O: Observer>(
        &mut self,
        alloc: Global,
        steps: u32,
        finder: &mut F,
        observer: &mut O,
    ) -> Result<Ended, Memory>
        requires known { IsKnown self.old.board.problem self.old.known }
        requires few { steps ≤ MOST_STEPS }
        ensures problem { self.new.board.problem ≡ self.old.board.problem }
        ensures known { self.new.known ≡ self.old.known }
        ensures few { IfOk result (λ ended. ended.used ≤ steps) }
        ensures grows { IfOk result (λ ended. Grows self.old.board.problem ended.used
            self.old.board.state self.new.board.state) }
        ensures counted { IsSearched self.old.board.problem self.old.known.reduced
            → IsWorked self.old.board.problem 0 self.old.board.state → IfOk result
            (λ ended. AreTurns self.old.board.problem steps self.old.board.state ended.used
            ended.ending self.new.board.state) }
        ensures ends { AreLentSettled self.old.board.problem self.old.board.state → IfOk result
            (λ ended. EndsAs self.old.board.problem self.old.known.reduced steps self.old.board.state ended.used
            ended.ending self.new.board.state) }
        ensures used { IfOk result
            (λ ended. self.new.used ≡ min (self.old.used + ended.used) (2 ^ 32 - 1)) }
    {
        let Search {
            board,
            known,
            strategy,
            used,
        } = self;
        let ended = run_turns(
            alloc, board, known, strategy, *used, steps, finder, observer,
        )?;
        *used = used.saturating_add(ended.used);
        Ok(ended)
    }

    /// Takes one turn on an open leaf of least value: `StepsUsed` where it was split, `TurnsUsed` where it was closed or laid aside.
    /// A finder looks for times of what is left of the instance.
    ///
    /// Refused where a growth is refused.
    pub fn take_turn<F: TimesFinder>(
        &mut self,
        alloc: Global,
        finder: &mut F,
    ) -> Result<Ended, Memory>
        requires { IsKnown self.old.board.problem self.old.known }
        ensures problem { self.new.board.problem ≡ self.old.board.problem }
        ensures known { self.new.known ≡ self.old.known }
        ensures told { IfOk result (λ ended. IsTold self.old.board.problem self.old.known.reduced
            self.old.board.state ended.used ended.ending self.new.board.state) }
        ensures grows { IfOk result (λ ended. Grows self.old.board.problem ended.used
            self.old.board.state self.new.board.state) }
        ensures used { IfOk result
            (λ ended. self.new.used ≡ min (self.old.used + ended.used) (2 ^ 32 - 1)) }
    {
        let Search {
            board,
            known,
            strategy,
            used,
        } = self;
        let after = used.saturating_add(1);
        let turn = take_turn(alloc, board, known, strategy, after, finder)?;
        let ended = ended_by(turn);
        *used = used.saturating_add(ended.used);
        Ok(ended)
    }
}
