//! The runs that are named after their commands, from bytes to bytes.

ghost use Rattle.std.specs.Prelude.{◌≡◌, ◌≢◌, ◌<◌, ◌≤◌, ◌^◌, OnOk, IfErr};
ghost use Rattle.std.specs.Io.KnownBytes.{Appends};
ghost use Rattle.std.specs.List.Sorted.{IsStrictlyIncreasing};
ghost use Rattle.pesp_problem.specs.declared.limits.TheConstants.{MOST_STEPS};
ghost use Rattle.pesp_stream.specs.Counts.{FewerThan, HasWorked};
ghost use Rattle.pesp_check.specs.Devices.{over};
ghost use Rattle.pesp_runs.specs.Reading.{HasBase};
ghost use Rattle.pesp_tasks.specs.Solving.{Solves, SolveCause};
ghost use Rattle.pesp_tasks.specs.Outside.{WritesWorks, WorkCause};

use crate::TimesSearch;
use pesp_runs::{Fault, run_alone, run_on_base};
use pesp_search::Nobody;
use pesp_stream::{Sink, Source};
use pesp_tasks::{Solve, WorkTask};
use std::alloc::Global;

/// Reads an instance, searches for a best timetable by at most so many splits of a leaf, and writes a certificate of what was
/// found, as `Solve` says; nothing is written before the whole certificate stands.
pub fn run_solve<R: Source, W: Sink>(
    alloc: Global,
    reader: &mut R,
    writer: &mut W,
    period: u32,
    steps: u32,
) -> Result<(), Fault>
    requires steps { steps ≤ MOST_STEPS }
    requires reads_fit { FewerThan (2 ^ 62) (R.calls reader.old) }
    requires writes_fit { FewerThan (2 ^ 62) (W.calls writer.old) }
    ensures ok { OnOk result (Solves (R.remaining reader.old) (R.remaining reader.new) period steps
        (Appends (W.contents writer.old) (W.contents writer.new))) }
    ensures reads { OnOk result (HasWorked (R.calls reader.old) (R.calls reader.new)) }
    ensures reads_else { IfErr result (λ fault. fault ≢ Fault.Read → HasWorked (R.calls reader.old) (R.calls reader.new)) }
    ensures writes { OnOk result (HasWorked (W.calls writer.old) (W.calls writer.new)) }
    ensures cause { IfErr result
        (λ fault. SolveCause fault
        (over (R.remaining reader.old) (R.remaining reader.new)
        (R.calls reader.old) (R.calls reader.new))
        (over (W.contents writer.old) (W.contents writer.new)
        (W.calls writer.old) (W.calls writer.new)) period steps) }

    // Before the certificate stands the writer isn't called.
    ensures silent { IfErr result (λ fault. fault ≢ Fault.Write → writer.new ≡ writer.old) }
{
    let mut search = Solve {
        steps,
        finder: TimesSearch::new(alloc),
        observer: Nobody,
    };
    let run = run_alone(alloc, &mut search, reader, writer, period);
    drop(search);
    run
}

/// Reads an instance and then a certificate that is valid for it, works on its open leaves of these numbers, by at most so many
/// splits in all of leaves below the bound, where one is named, and writes a work for each, one behind the other; nothing is
/// written before all stand. `NoJob` where no more leaves than one of the numbers are open.
pub fn run_work<R: Source, B: Source, W: Sink>(
    alloc: Global,
    instance_reader: &mut R,
    base_reader: &mut B,
    writer: &mut W,
    period: u32,
    steps: u32,
    until: Option<u64>,
    jobs: &[u64],
) -> Result<(), Fault>
    requires steps { steps ≤ MOST_STEPS }
    requires rise { IsStrictlyIncreasing jobs.now }
    requires reads_fit { FewerThan (2 ^ 62) (R.calls instance_reader.old) }
    requires base_reads_fit { FewerThan (2 ^ 62) (B.calls base_reader.old) }
    requires writes_fit { FewerThan (2 ^ 62) (W.calls writer.old) }
    ensures ok { OnOk result
        (HasBase (R.remaining instance_reader.old) (R.remaining instance_reader.new)
        (B.remaining base_reader.old) (B.remaining base_reader.new) period
        (λ p base. WritesWorks p base jobs.now steps until
        (Appends (W.contents writer.old) (W.contents writer.new)))) }
    ensures reads { OnOk result
        (HasWorked (R.calls instance_reader.old) (R.calls instance_reader.new)) }
    ensures reads_else { IfErr result (λ fault. fault ≢ Fault.Read → HasWorked (R.calls instance_reader.old) (R.calls instance_reader.new)) }
    ensures base_reads { OnOk result
        (HasWorked (B.calls base_reader.old) (B.calls base_reader.new)) }
    ensures base_reads_else { IfErr result (λ fault. fault ≢ Fault.Read → HasWorked (B.calls base_reader.old) (B.calls base_reader.new)) }
    ensures writes { OnOk result (HasWorked (W.calls writer.old) (W.calls writer.new)) }
    ensures cause { IfErr result (λ fault. WorkCause fault
        (over (R.remaining instance_reader.old) (R.remaining instance_reader.new)
        (R.calls instance_reader.old) (R.calls instance_reader.new))
        (over (B.remaining base_reader.old) (B.remaining base_reader.new)
        (B.calls base_reader.old) (B.calls base_reader.new))
        (over (W.contents writer.old) (W.contents writer.new)
        (W.calls writer.old) (W.calls writer.new))
        period jobs.now steps until (base_reader.new ≡ base_reader.old)) }
    ensures silent { IfErr result (λ fault. fault ≢ Fault.Write → writer.new ≡ writer.old) }
{
    let mut work = WorkTask {
        steps,
        until,
        jobs,
        finder: TimesSearch::new(alloc),
    };
    let run = run_on_base(
        alloc,
        &mut work,
        instance_reader,
        base_reader,
        writer,
        period,
    );
    drop(work);
    run
}
