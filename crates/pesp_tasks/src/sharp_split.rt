//! The open leaves of a certificate that may have a front, as jobs.

use pesp_cert::Fronted;
use pesp_problem::Instance;
use pesp_runs::{Fault, OnBase};
use pesp_sharp_work::sharp_jobs;
use pesp_stream::{Sink, print_to};
use pesp_turns::JobsText;
use std::alloc::Global;

/// The open leaves of a certificate, with a front or without, as jobs, numbered from 0 in the order of the tree's lines, each with its
/// value and the path to it.
#[derive(Clone, Copy)]
pub struct SplitSharp;

impl OnBase for SplitSharp {
    ghost use Rattle.std.specs.Prelude.{⊤};
    ghost use Rattle.pesp_runs.specs.Causes.{OutCause};
    ghost use Rattle.pesp_tasks.specs.SharpOutside.{WritesSharpJobs};

    type Base = Fronted;

    ghost within = { λ _. ⊤ };

    ghost writes = { λ _ _ p base Gets. WritesSharpJobs p base Gets };

    ghost stops = { λ _ p base fault cut. OutCause fault cut };

    fn write<W: Sink>(
        &mut self,
        alloc: Global,
        instance: &Instance,
        base: Fronted,
        writer: &mut W,
    ) -> Result<(), Fault> {
        let jobs = sharp_jobs(alloc, instance, &base);
        drop(base);
        let jobs = jobs?;
        print_to(writer, &JobsText(&jobs))?;
        Ok(())
    }
}
