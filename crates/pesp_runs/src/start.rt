//! Times that a search starts with.

ghost use Rattle.std.specs.Prelude.{◌≢◌, ◌<◌, ◌^◌, ℕ, List, Option, OnOk, IfOk, IfErr};
ghost use Rattle.pesp_stream.specs.Counts.{FewerThan, HasWorked};
ghost use Rattle.pesp_problem.specs.Timetables.{Pesp, AreTimes, IsTimetable};
ghost use Rattle.pesp_check.specs.Devices.{Device, over};
ghost use Rattle.pesp_runs.specs.Causes.{RowCause};
ghost use Rattle.pesp_runs.specs.declared.fault.Fault.{Fault as AnyFault};

use crate::{Fault, read_whole_times};
use pesp_problem::{Instance, Score, score};
use pesp_report::ReportRefusal;
use pesp_stream::Source;
use std::alloc::Global;

/// How the times are read that a search starts with.
pub trait Start {
    // The bytes that were read give the instance these times.
    ghost reads: { Option (List ℕ) → Option (List ℕ) → Pesp → List ℕ → Type 0 };

    // Why there are none: what their text tells, or the reader's device.
    ghost refused: { AnyFault → Device → Pesp → Type 0 };

    /// Reads them. At most 1,073,741,824 bytes are read and judged.
    fn read<R: Source>(
        &mut self,
        alloc: Global,
        instance: &Instance,
        reader: &mut R,
    ) -> Result<Vec<u32>, Fault>
        requires fits { FewerThan (2 ^ 63) (R.calls reader.old) }
        ensures ok { IfOk result
            (λ times. reads (R.remaining reader.old) (R.remaining reader.new) instance.now
            times.items) }
        ensures counts { OnOk result (HasWorked (R.calls reader.old) (R.calls reader.new)) }
        ensures counts_else { IfErr result (λ fault. fault ≢ Fault.Read → HasWorked (R.calls reader.old) (R.calls reader.new)) }
        ensures cause { IfErr result
            (λ fault. refused fault
            (over (R.remaining reader.old) (R.remaining reader.new)
            (R.calls reader.old) (R.calls reader.new)) instance.now) };
}

/// Says that times are a timetable, or which row they violate first.
fn judge(instance: &Instance, times: &[u32]) -> Result<(), Fault>
    requires { AreTimes instance.now times.now }
    ensures timetable { OnOk result (IsTimetable instance.now times.now) }
    ensures cause { IfErr result (λ fault. RowCause fault instance.now times.now) }
{
    match score(instance, times) {
        Score::Feasible { .. } => Ok(()),
        Score::Violates { row, .. } => Err(Fault::Report(ReportRefusal::Violates { row })),
        Score::NotTimes => unreachable!(),
    }
}

/// Times that are a timetable: `Times` where their text is refused, and `Report` with the first row that they violate.
#[derive(Clone, Copy)]
pub struct FromTimetable;

impl Start for FromTimetable {
    ghost use Rattle.pesp_runs.specs.Reading.{GivesTimetable};
    ghost use Rattle.pesp_runs.specs.Causes.{TimetableCause};

    ghost reads = { GivesTimetable };

    ghost refused = { TimetableCause };

    fn read<R: Source>(
        &mut self,
        alloc: Global,
        instance: &Instance,
        reader: &mut R,
    ) -> Result<Vec<u32>, Fault> {
        let times = read_whole_times(alloc, instance, reader)?;
        judge(instance, &times)?;
        Ok(times)
    }
}
