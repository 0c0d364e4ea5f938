//! A first look, for a search that goes on from it in a way of its own.

ghost use Rattle.std.specs.Prelude.{◌≡◌, IfOk, IfErr};
ghost use Rattle.pesp_search.specs.Refusals.{MeetsLimit};
ghost use Rattle.pesp_search.specs.Solving.{IsSolved, CostsNoMore, IsSearchRefusal};

use crate::begun::begin;
use crate::planted_forest::Planting;
use crate::refusal::SolveRefusal;
use crate::solution::{Solved, solve_on};
use pesp_forest::{Effort, TimesFinder};
use pesp_problem::Instance;
use pesp_reduce::Reduced;
use pesp_turns::{Known, Observer, Search};
use std::alloc::Global;

/// What is known of an instance after a first look, and what is left of the instance.
#[derive(Drop)]
pub struct FirstLook {
    pub solved: Solved,
    pub reduced: Reduced,
}

/// Answers within 0 steps as `solve_from` does, with the same promises, for a search that goes on from the answer in a way of
/// its own. No later bound rests on the cycles of the answer, so a forest is looked for a twentieth as long; and the finder does
/// little for times of what is left of the instance: its first batch is still to be made.
pub fn look_first<F: TimesFinder, O: Observer>(
    alloc: Global,
    instance: &Instance,
    times: &[u32],
    finder: &mut F,
    observer: &mut O,
) -> Result<FirstLook, SolveRefusal>
    ensures solved { IfOk result
        (λ look. IsSolved instance.now 0 look.solved.steps_used look.solved.certificate) }
    ensures improved { IfOk result
        (λ look. CostsNoMore instance.now times.now look.solved.certificate) }
    ensures refused { IfErr result (IsSearchRefusal instance.now 0) }
    ensures passed { IfErr result (MeetsLimit instance.now 0) }
{
    let mut search = begin(alloc, instance, Planting::Short, finder, observer)?;
    finder.set_effort(Effort::Short);
    match solve_on(alloc, instance, &mut search, times, 0, finder, observer) {
        Ok(solved) => {
            let Search {
                board,
                known,
                strategy,
                ..
            } = search;
            drop(board);
            drop(strategy);
            let Known {
                reduced,
                passed,
                root,
            } = known;
            drop(passed);
            drop(root);
            Ok(FirstLook { solved, reduced })
        }
        Err(refusal) => {
            drop(search);
            Err(refusal)
        }
    }
}
