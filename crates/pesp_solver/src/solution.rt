//! Solutions.

ghost use Rattle.std.specs.Prelude.{◌≤◌, IfOk, IfErr};
ghost use Rattle.pesp_problem.specs.declared.limits.TheConstants.{MOST_STEPS};
ghost use Rattle.pesp_search.specs.Refusals.{MeetsLimit};
ghost use Rattle.pesp_search.specs.Solving.{IsSolved, IsSearchRefusal};

use crate::TimesSearch;
use pesp_problem::Instance;
use pesp_search::{Nobody, SolveRefusal, Solved, solve_watched};
use std::alloc::Global;

/// Searches for a best timetable, by at most so many splits of a leaf. The certificate is valid for the instance. An answer
/// that is open has used all splits, and propagation doesn't shut the root of its tree; its bound is at least the value at the
/// root of no pairs and of each single pair whose multiplier is 1 or -1. The tree has as many branches as splits were used, fewer than the room of its root, and each of them
/// leaves both its parts a value. Each cycle passes no row twice, and some row that no other cycle passes.
///
/// Refused as `TableTooLarge` only where the square of the number of activities is above 10000000 and the fundamental walks of
/// some spanning forest of what is left of them pass a limit, or do so lifted; as `PairsTooMany` only where the number of
/// cycles, at most that of activities, times one more than the steps is above 20000000 and a tree that so many steps may lead
/// to would pass a limit; and else as `Memory`, where a growth was refused.
pub fn solve(alloc: Global, instance: &Instance, steps: u32) -> Result<Solved, SolveRefusal>
    requires { steps ≤ MOST_STEPS }
    ensures solved { IfOk result (λ s. IsSolved instance.now steps s.steps_used s.certificate) }
    ensures refused { IfErr result (IsSearchRefusal instance.now steps) }
    ensures passed { IfErr result (MeetsLimit instance.now steps) }
{
    let mut finder = TimesSearch::new(alloc);
    let solved = solve_watched(alloc, instance, steps, &mut finder, &mut Nobody);
    drop(finder);
    solved
}
