//! Solutions with marked walks.

ghost use Rattle.std.specs.Prelude.{◌≤◌, IfOk, IfErr};
ghost use Rattle.pesp_problem.specs.declared.limits.TheConstants.{MOST_STEPS};
ghost use Rattle.pesp_search.specs.Refusals.{MeetsLimit};
ghost use Rattle.pesp_search.specs.Solving.{CostsNoMore, IsSearchRefusal};
ghost use Rattle.pesp_sharp_search.specs.Solving.{IsSharpSolved};

use crate::choice::{SharpSolved, settled, without_front};
use crate::observer::{Observing, SharpObserver};
use crate::whole_search::proposed;
use pesp_cert::Fronted;
use pesp_problem::{Instance, Memory};
use pesp_reduce::Reduced;
use pesp_search::{FirstLook, Pace, Proposals, SharpWatcher, Sharpener, SolveRefusal, look_first};
use std::alloc::Global;

/// What is proposed beside a plain answer by at most so many splits of a leaf, from the root on.
fn proposed_at<F: Sharpener, W: SharpWatcher>(
    alloc: Global,
    instance: &Instance,
    plain: &Fronted,
    reduced: Reduced,
    steps: u32,
    sharpener: &mut F,
    watcher: &mut W,
) -> Result<Proposals, Memory> {
    let pace = Pace::Steps {
        before: 0,
        most: steps,
    };
    sharpener.sharpen_root(alloc, instance, plain, reduced, pace)?;
    proposed(alloc, instance, plain, sharpener, watcher)
}

/// Searches for a best timetable by at most so many splits of a leaf, with leaves that marked walks sharpen, from times that are
/// given: one for each event of the instance, in the instance's order, from 0 to one less than the period. A sharpener proposes, and
/// looks for times of what is left of the instance; an observer looks on.
///
/// The certificate is valid for the instance with its marked walks. Its tree has as many branches as splits are told, at most
/// so many, and fewer than the root has room. Each branch leaves both of its parts a value of the range that it cuts. The bound
/// that is told is the least that the tree shows, and the cost. It isn't below, and the cost isn't above, what `solve_from` has
/// for some forest within 0 steps. Where the times are a timetable of the instance, the answer has a cost, at most theirs.
///
/// Refused as `TableTooLarge` or `PairsTooMany` only where the square of the number of activities is above 10000000, or that
/// number above 20000000, and as `solve` says within 0 steps; and else as `Memory`, where a growth was refused.
pub fn solve_sharp<F: Sharpener, O: SharpObserver>(
    alloc: Global,
    instance: &Instance,
    times: &[u32],
    steps: u32,
    sharpener: &mut F,
    observer: &mut O,
) -> Result<SharpSolved, SolveRefusal>
    requires { steps ≤ MOST_STEPS }
    ensures solved { IfOk result
        (λ sharp. IsSharpSolved instance.now steps sharp.steps_used sharp.fronted) }
    ensures improved { IfOk result (λ sharp. CostsNoMore instance.now times.now sharp.fronted.content) }
    ensures refused { IfErr result (IsSearchRefusal instance.now 0) }
    ensures passed { IfErr result (MeetsLimit instance.now 0) }
{
    let FirstLook { solved, reduced } = look_first(alloc, instance, times, sharpener, observer)?;
    let plain = without_front(solved.certificate);
    let watcher = &mut Observing { observer };
    match proposed_at(alloc, instance, &plain, reduced, steps, sharpener, watcher) {
        Ok(proposals) => Ok(settled(alloc, instance, plain, proposals, steps)?),
        Err(_) => {
            drop(plain);
            Err(SolveRefusal::Memory)
        }
    }
}
