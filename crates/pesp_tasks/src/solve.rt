//! The search for a best timetable.

use pesp_cert::print;
use pesp_forest::TimesFinder;
use pesp_problem::Instance;
use pesp_runs::{Fault, Search};
use pesp_search::{Observer, solve_from};
use pesp_stream::Sink;
use std::alloc::Global;

/// A search by at most so many splits of a leaf, while a finder looks for times and an observer looks on, which writes a certificate
/// of what was found.
///
/// What is written is the text of a certificate that is valid for the instance, so its answer is true. An answer that is open
/// has used all steps. From times that are a timetable it has a cost, at most theirs. `Search` where the instance's cycles or the
/// search's tree pass their limits, as `solve` says, which they can only where the square of the number of rows is above 10000000,
/// or the number of rows times one more than the steps above 20000000.
#[derive(Drop)]
pub struct Solve<F, O> {
    pub steps: u32,
    pub finder: F,
    pub observer: O,
}

impl<F: TimesFinder, O: Observer> Search for Solve<F, O> {
    ghost use Rattle.std.specs.Prelude.{◌≤◌};
    ghost use Rattle.pesp_problem.specs.declared.limits.TheConstants.{MOST_STEPS};
    ghost use Rattle.pesp_runs.specs.Causes.{SolutionStops};
    ghost use Rattle.pesp_tasks.specs.Solving.{WritesSolution};

    ghost within = { λ s. s.steps ≤ MOST_STEPS };

    ghost writes = { λ s _ p times Gets. WritesSolution p times s.steps Gets };

    ghost stops = { λ s p times fault cut. SolutionStops fault p s.steps cut };

    fn write<W: Sink>(
        &mut self,
        alloc: Global,
        instance: &Instance,
        times: &[u32],
        writer: &mut W,
    ) -> Result<(), Fault> {
        instance.period();
        let Solve {
            steps,
            finder,
            observer,
        } = self;
        let found = solve_from(alloc, instance, times, *steps, finder, observer)?;
        print(&found.certificate, writer)?;
        Ok(())
    }
}
