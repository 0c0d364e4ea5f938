//! The search for a best timetable, with leaves that marked walks sharpen.

use pesp_cert::print_fronted;
use pesp_problem::Instance;
use pesp_runs::{Fault, Search, vouch};
use pesp_sharp_search::{SharpObserver, Sharpener, solve_sharp};
use pesp_stream::Sink;
use std::alloc::Global;

/// A search by at most so many splits of a leaf, with leaves that marked walks sharpen, while a sharpener proposes and looks for times and an observer
/// looks on, which writes a certificate of what was found, with a front where it has one.
///
/// What is written is the text of a certificate that is valid for the instance with its marked walks, so its answer is true. Its
/// tree has at most so many branches. From times that are a timetable it has a cost, at most theirs. `Search` where the instance's
/// cycles or the pairs of the root pass their limits, which they can only where the square of the number of rows is above 10000000,
/// or the number of rows above 20000000.
#[derive(Drop)]
pub struct SolveSharp<F, O> {
    pub steps: u32,
    pub sharpener: F,
    pub observer: O,
}

impl<F: Sharpener, O: SharpObserver> Search for SolveSharp<F, O> {
    ghost use Rattle.std.specs.Prelude.{◌≤◌};
    ghost use Rattle.pesp_problem.specs.declared.limits.TheConstants.{MOST_STEPS};
    ghost use Rattle.pesp_runs.specs.Causes.{SolutionStops};
    ghost use Rattle.pesp_tasks.specs.SharpSolving.{WritesSharpSolution};

    ghost within = { λ s. s.steps ≤ MOST_STEPS };

    ghost writes = { λ s _ p times Gets. WritesSharpSolution p times s.steps Gets };

    // What the search passes it passes within 0 steps.
    ghost stops = { λ _ p times fault cut. SolutionStops fault p 0 cut };

    fn write<W: Sink>(
        &mut self,
        alloc: Global,
        instance: &Instance,
        times: &[u32],
        writer: &mut W,
    ) -> Result<(), Fault> {
        let SolveSharp {
            steps,
            sharpener,
            observer,
        } = self;
        let found = solve_sharp(alloc, instance, times, *steps, sharpener, observer)?;
        vouch(instance, &found.fronted);
        print_fronted(&found.fronted, writer)?;
        Ok(())
    }
}
