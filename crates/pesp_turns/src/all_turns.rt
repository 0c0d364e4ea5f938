//! Turns, until all splits are used up or no leaf can be split or closed.

ghost use Rattle.std.specs.Prelude.{◌≡◌, ◌≤◌, IfOk};
ghost use Rattle.pesp_problem.specs.declared.limits.TheConstants.{MOST_STEPS};
ghost use Rattle.pesp_turns.specs.Knowing.{IsKnown};
ghost use Rattle.pesp_branching.specs.Turns.{IsWorked};
ghost use Rattle.pesp_turns.specs.Settling.{IsSearched};
ghost use Rattle.pesp_turns.specs.Growing.{Grows};
ghost use Rattle.pesp_turns.specs.Counting.{AreTurns};
ghost use Rattle.pesp_turns.specs.Endings.{AreLentSettled, EndsAs};

use crate::ending::{Ended, Ending};
use crate::known::Known;
use crate::observer::Observer;
use crate::turn::{Turn, take_turn};
use pesp_board::Board;
use pesp_forest::TimesFinder;
use pesp_problem::Memory;
use pesp_strategy::Strategy;
use std::alloc::Global;

/// Takes turns until so many leaves were split, or none can be lent any more; so many were split before. A finder looks for times,
/// and an observer looks on.
pub(crate) fn run_turns<F: TimesFinder, O: Observer>(
    alloc: Global,
    board: &mut Board,
    known: &Known,
    strategy: &mut Option<Strategy>,
    before: u32,
    steps: u32,
    finder: &mut F,
    observer: &mut O,
) -> Result<Ended, Memory>
    requires known { IsKnown board.old.problem known.now }
    requires few { steps ≤ MOST_STEPS }
    ensures problem { board.new.problem ≡ board.old.problem }
    ensures few { IfOk result (λ ended. ended.used ≤ steps) }
    ensures grows { IfOk result
        (λ ended. Grows board.old.problem ended.used board.old.state board.new.state) }
    ensures counted { IsSearched board.old.problem known.now.reduced
        → IsWorked board.old.problem 0 board.old.state → IfOk result (λ ended.
        AreTurns board.old.problem steps board.old.state ended.used ended.ending board.new.state) }
    ensures ends { AreLentSettled board.old.problem board.old.state → IfOk result (λ ended.
        EndsAs board.old.problem known.now.reduced steps board.old.state ended.used ended.ending board.new.state) }
{
    board.problem().keeps_limits();
    let mut used = 0;
    for _turn in 0..2 * steps + 3 {
        let splits = before.saturating_add(used);
        observer.look(splits, board);
        if used == steps {
            return Ok(Ended {
                used,
                ending: Ending::StepsUsed,
            });
        }
        let after = splits.saturating_add(1);
        match take_turn(alloc, board, known, strategy, after, finder)? {
            Turn::Split => used += 1,
            Turn::Closed => {}
            Turn::GivenUp => {}
            Turn::Over(ending) => return Ok(Ended { used, ending }),
        }
    }
    Ok(Ended {
        used,
        ending: Ending::TurnsUsed,
    })
}
