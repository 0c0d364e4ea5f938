//! The open leaves of a certificate as jobs.

ghost use Rattle.std.specs.Prelude.{◌≡◌, ◌≢◌, ◌<◌, ◌^◌, OnOk, IfErr};
ghost use Rattle.std.specs.Io.KnownBytes.{Appends};
ghost use Rattle.pesp_stream.specs.Counts.{FewerThan, HasWorked};
ghost use Rattle.pesp_check.specs.Devices.{over};
ghost use Rattle.pesp_runs.specs.Reading.{HasBase};
ghost use Rattle.pesp_tasks.specs.Outside.{WritesJobs, SplitCause};

use pesp_cert::Certificate;
use pesp_problem::Instance;
use pesp_runs::{Fault, OnBase, run_on_base};
use pesp_stream::{Sink, Source, print_to};
use pesp_turns::JobsText;
use pesp_worker::open_jobs;
use std::alloc::Global;

/// The open leaves of a certificate as jobs, numbered from 0 in the order of the tree's lines, each with its value and the path to it.
#[derive(Clone, Copy)]
pub struct Split;

impl OnBase for Split {
    ghost use Rattle.std.specs.Prelude.{⊤};
    ghost use Rattle.pesp_runs.specs.Causes.{OutCause};
    ghost use Rattle.pesp_tasks.specs.Outside.{WritesJobs};

    type Base = Certificate;

    ghost within = { λ _. ⊤ };

    ghost writes = { λ _ _ p base Gets. WritesJobs p base Gets };

    ghost stops = { λ _ p base fault cut. OutCause fault cut };

    fn write<W: Sink>(
        &mut self,
        alloc: Global,
        instance: &Instance,
        base: Certificate,
        writer: &mut W,
    ) -> Result<(), Fault> {
        let jobs = open_jobs(alloc, instance, &base);
        drop(base);
        let jobs = jobs?;
        print_to(writer, &JobsText(&jobs))?;
        Ok(())
    }
}

/// Reads an instance and then a certificate that is valid for it, and writes its open leaves as jobs, numbered from 0 in the
/// order of the tree's lines, each with its value and the path to it.
pub fn run_split<R: Source, B: Source, W: Sink>(
    alloc: Global,
    instance_reader: &mut R,
    base_reader: &mut B,
    writer: &mut W,
    period: u32,
) -> Result<(), Fault>
    requires reads_fit { FewerThan (2 ^ 62) (R.calls instance_reader.old) }
    requires base_reads_fit { FewerThan (2 ^ 62) (B.calls base_reader.old) }
    requires writes_fit { FewerThan (2 ^ 62) (W.calls writer.old) }
    ensures ok { OnOk result
        (HasBase (R.remaining instance_reader.old) (R.remaining instance_reader.new)
        (B.remaining base_reader.old) (B.remaining base_reader.new) period
        (λ p base. WritesJobs p base (Appends (W.contents writer.old) (W.contents writer.new)))) }
    ensures reads { OnOk result
        (HasWorked (R.calls instance_reader.old) (R.calls instance_reader.new)) }
    ensures reads_else { IfErr result (λ fault. fault ≢ Fault.Read → HasWorked (R.calls instance_reader.old) (R.calls instance_reader.new)) }
    ensures base_reads { OnOk result
        (HasWorked (B.calls base_reader.old) (B.calls base_reader.new)) }
    ensures base_reads_else { IfErr result (λ fault. fault ≢ Fault.Read → HasWorked (B.calls base_reader.old) (B.calls base_reader.new)) }
    ensures writes { OnOk result (HasWorked (W.calls writer.old) (W.calls writer.new)) }
    ensures cause { IfErr result (λ fault. SplitCause fault
        (over (R.remaining instance_reader.old) (R.remaining instance_reader.new)
        (R.calls instance_reader.old) (R.calls instance_reader.new))
        (over (B.remaining base_reader.old) (B.remaining base_reader.new)
        (B.calls base_reader.old) (B.calls base_reader.new))
        (over (W.contents writer.old) (W.contents writer.new)
        (W.calls writer.old) (W.calls writer.new))
        period (base_reader.new ≡ base_reader.old)) }
    ensures silent { IfErr result (λ fault. fault ≢ Fault.Write → writer.new ≡ writer.old) }
{
    run_on_base(
        alloc,
        &mut Split,
        instance_reader,
        base_reader,
        writer,
        period,
    )
}
