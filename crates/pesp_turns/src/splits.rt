//! Open leaves are split, one after the other.

ghost use Rattle.std.specs.Prelude.{◌≡◌, ◌≢◌, ◌<◌, ◌≤◌, IfOk};
ghost use Rattle.pesp_turns.specs.Knowing.{IsKnown};
ghost use Rattle.pesp_turns.specs.Growing.{Grows};
ghost use Rattle.pesp_turns.specs.Endings.{AreLentSettled, EndsAs};
ghost use Rattle.pesp_turns.specs.ResumeEndings.{IsEndedAs, AreTold, ending_of};

use crate::resume_ending::ResumeEnding;
use crate::watcher::Watcher;
use crate::{Ended, Ending as TurnsEnding, Nobody, Search};
use pesp_forest::TimesFinder;
use pesp_problem::Memory;
use std::alloc::Global;

/// How often a leaf is looked for at most: no board lends more leaves.
const MOST_LOOKS: u32 = 1_000_000;

/// How many leaves were split, and why no more were.
#[derive(Clone, Copy)]
pub(crate) struct Done {
    pub(crate) used: u32,
    pub(crate) ending: ResumeEnding,
}

/// Why the search ends; None where it goes on.
fn end_of(ending: TurnsEnding) -> Option<ResumeEnding>
    ensures { result ≡ ending_of ending }
{
    match ending {
        TurnsEnding::StepsUsed | TurnsEnding::TurnsUsed => None,
        TurnsEnding::NoneOpen => Some(ResumeEnding::NoneOpen),
        TurnsEnding::NumbersSpent | TurnsEnding::TreeTooLarge => Some(ResumeEnding::Full),
    }
}

/// Splits one leaf, where one can be split; leaves that can be closed are closed on the way.
fn split_one<F: TimesFinder>(
    alloc: Global,
    search: &mut Search,
    finder: &mut F,
) -> Result<Ended, Memory>
    requires { IsKnown search.old.board.problem search.old.known }
    ensures problem { search.new.board.problem ≡ search.old.board.problem }
    ensures known { search.new.known ≡ search.old.known }
    ensures few { IfOk result (λ ended. ended.used ≤ 1) }
    ensures grows { IfOk result (λ ended. Grows search.old.board.problem ended.used
        search.old.board.state search.new.board.state) }
    ensures ends { AreLentSettled search.old.board.problem search.old.board.state → IfOk result
        (λ ended. EndsAs search.old.board.problem search.old.known.reduced 1 search.old.board.state ended.used ended.ending
        search.new.board.state) }
{
    search.run(alloc, 1, finder, &mut Nobody)
}

/// Splits open leaves, that of least value first, until so many were split or the search ends. A finder looks for times, and the
/// watcher is asked after each leaf.
pub(crate) fn split_leaves<F: TimesFinder, W: Watcher>(
    alloc: Global,
    search: &mut Search,
    steps: u32,
    finder: &mut F,
    watcher: &mut W,
) -> Result<Done, Memory>
    requires { IsKnown search.old.board.problem search.old.known }
    ensures problem { search.new.board.problem ≡ search.old.board.problem }
    ensures few { IfOk result (λ done. done.used ≤ steps) }
    ensures grows { IfOk result (λ done. Grows search.old.board.problem done.used
        search.old.board.state search.new.board.state) }
    ensures ends { 0 < steps → AreLentSettled search.old.board.problem search.old.board.state
        → IfOk result (λ done. IsEndedAs search.old.board.problem steps
        (W.may_end watcher.old × W.has_ended watcher.new) search.old.board.state
        search.new.board.state done.used done.ending) }
    ensures told { IfOk result (λ done. AreTold (W.has_said watcher.new) done.used done.ending) }
    ensures heeded { IfOk result
        (λ done. done.ending ≢ ResumeEnding.Stopped → W.has_ended watcher.new → W.has_ended watcher.old) }
{
    let mut used = 0;
    for _look in 0..MOST_LOOKS {
        if used >= steps {
            let ending = ResumeEnding::StepsUsed;
            return Ok(Done { used, ending });
        }
        let ended = split_one(alloc, search, finder)?;
        used += ended.used;
        if let Some(ending) = end_of(ended.ending) {
            return Ok(Done { used, ending });
        }
        if !watcher.goes_on(used, &search.board) {
            let ending = ResumeEnding::Stopped;
            return Ok(Done { used, ending });
        }
    }
    let ending = ResumeEnding::Full;
    Ok(Done { used, ending })
}
