//! Works on open leaves of a certificate.

ghost use Rattle.std.specs.Prelude.{◌≡◌, ◌≤◌, IfOk, IfErr, None};
ghost use Rattle.std.specs.List.Sorted.{IsStrictlyIncreasing};
ghost use Rattle.pesp_problem.specs.declared.limits.TheConstants.{MOST_STEPS};
ghost use Rattle.pesp_truth.specs.Certificates.{IsValid};
ghost use Rattle.pesp_worker.specs.HandingIn.{AreWorksOn};
ghost use Rattle.pesp_tasks.specs.Outside.{work_fault, JobCause};

use pesp_cert::Certificate;
use pesp_cert_items::WorkText;
use pesp_forest::TimesFinder;
use pesp_problem::Instance;
use pesp_runs::{Fault, OnBase};
use pesp_stream::{Sink, print_to};
use pesp_worker::{WorkRefusal, work_on_all};
use std::alloc::Global;

/// Work on the open leaves of these numbers, which rise, by at most so many splits in all of leaves below the bound, where one is
/// named; a work for each is written, one behind the other. `NoJob` where no more leaves than one of the numbers are open. A finder
/// looks for times where the certificate has none.
#[derive(Drop)]
pub struct WorkTask<'a, F> {
    pub steps: u32,
    pub until: Option<u64>,
    pub jobs: &'a [u64],
    pub finder: F,
}

impl<F: TimesFinder> OnBase for WorkTask<'_, F> {
    ghost use Rattle.std.specs.Prelude.{◌≤◌, ◌⊎◌};
    ghost use Rattle.std.specs.List.Sorted.{IsStrictlyIncreasing};
    ghost use Rattle.pesp_problem.specs.declared.limits.TheConstants.{MOST_STEPS};
    ghost use Rattle.pesp_runs.specs.Causes.{OutCause};
    ghost use Rattle.pesp_tasks.specs.Outside.{JobCause, WritesWorks};

    type Base = Certificate;

    ghost within = { λ s. (s.steps ≤ MOST_STEPS) × IsStrictlyIncreasing s.jobs.now };

    ghost writes = { λ s _ p base Gets. WritesWorks p base s.jobs.now s.steps s.until Gets };

    ghost stops = { λ s p base fault cut. JobCause fault p base s.jobs.now ⊎ OutCause fault cut };

    fn write<W: Sink>(
        &mut self,
        alloc: Global,
        instance: &Instance,
        base: Certificate,
        writer: &mut W,
    ) -> Result<(), Fault> {
        let WorkTask {
            steps,
            until,
            jobs,
            finder,
        } = self;
        let found = found_works(alloc, instance, &base, *steps, *until, jobs, finder);
        drop(base);
        let found = found?;
        print_to(writer, &found.as_slice())?;
        Ok(())
    }
}

/// Works on open leaves of a valid certificate, by at most so many splits of leaves below the bound, where one is named.
#[tactic(auto, using(crate::proofs::Causes::job_cause))]
fn found_works<F: TimesFinder>(
    alloc: Global,
    instance: &Instance,
    base: &Certificate,
    steps: u32,
    until: Option<u64>,
    jobs: &[u64],
    finder: &mut F,
) -> Result<Vec<WorkText>, Fault>
    requires steps { steps ≤ MOST_STEPS }
    requires rise { IsStrictlyIncreasing jobs.now }
    requires valid { IsValid None instance.now base.now }
    ensures works { IfOk result
        (λ works. AreWorksOn instance.now base.now jobs.now steps until works.items) }
    ensures cause { IfErr result (λ fault. JobCause fault instance.now base.now jobs.now) }
{
    match work_on_all(alloc, instance, base, jobs, steps, until, finder) {
        Ok(found) => Ok(found),
        Err(refusal) => Err(work_fault(refusal)),
    }
}

/// Why there is no work.
fn work_fault(refusal: WorkRefusal) -> Fault
    ensures { result ≡ work_fault refusal }
{
    match refusal {
        WorkRefusal::Memory => Fault::Memory,
        WorkRefusal::NoSuchJob => Fault::NoJob,
    }
}
