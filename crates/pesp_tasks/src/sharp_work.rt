//! Work on open leaves of a certificate that may have a front.

use pesp_cert::{Fronted, print_fronted};
use pesp_problem::Instance;
use pesp_runs::{Fault, OnBase, vouch};
use pesp_sharp_search::{Sharpener, Unwatched, work_sharp};
use pesp_stream::Sink;
use std::alloc::Global;

/// Work on the open leaves of these numbers, which rise, of a certificate with a front or without, by at most so many splits in all of
/// leaves below the bound, where one is named, while a sharpener proposes and looks for times; the certificate that comes of it is written. `NoJob`
/// where no more leaves than one of the numbers are open.
#[derive(Drop)]
pub struct WorkSharp<'a, F> {
    pub steps: u32,
    pub until: Option<u64>,
    pub jobs: &'a [u64],
    pub sharpener: F,
}

impl<F: Sharpener> OnBase for WorkSharp<'_, F> {
    ghost use Rattle.std.specs.Prelude.{◌⊎◌, ⊤};
    ghost use Rattle.pesp_runs.specs.Causes.{OutCause};
    ghost use Rattle.pesp_tasks.specs.SharpOutside.{SharpJobCause, WritesSharpWork};

    type Base = Fronted;

    ghost within = { λ _. ⊤ };

    ghost writes = { λ s _ p base Gets. WritesSharpWork p base s.jobs.now s.steps s.until Gets };

    ghost stops = { λ s p base fault cut. SharpJobCause fault p base s.jobs.now ⊎ OutCause fault cut };

    fn write<W: Sink>(
        &mut self,
        alloc: Global,
        instance: &Instance,
        base: Fronted,
        writer: &mut W,
    ) -> Result<(), Fault> {
        let WorkSharp {
            steps,
            until,
            jobs,
            sharpener,
        } = self;
        let watcher = &mut Unwatched;
        match work_sharp(
            alloc, instance, base, jobs, *steps, *until, sharpener, watcher,
        )? {
            Some(fronted) => {
                vouch(instance, &fronted);
                print_fronted(&fronted, writer)?;
                Ok(())
            }
            None => Err(Fault::NoJob),
        }
    }
}
