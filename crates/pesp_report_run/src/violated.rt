//! The run that tells what times violate.

ghost use Rattle.std.specs.Prelude.{◌≡◌, ◌≢◌, ◌<◌, ◌≤◌, ◌^◌, option_copied, OnOk, IfOk, IfErr};
ghost use Rattle.std.specs.Io.KnownBytes.{Appends};
ghost use Rattle.pesp_stream.specs.Counts.{FewerThan, HasWorked};
ghost use Rattle.pesp_report.specs.Naming.{naming_of};
ghost use Rattle.pesp_check.specs.Devices.{over};
ghost use Rattle.pesp_report_run.specs.Violating.{ReadsForEvents, ViolationsCause, WritesViolations};

use pesp_report::{Names, violations};
use pesp_runs::{Fault, read_whole_instance, read_whole_times};
use pesp_stream::{Sink, Source};
use std::alloc::Global;

/// Reads an instance and then times for its events, and writes all activities that the times violate, with the names of
/// their events where these are told; tells how many they are.
/// The instance is judged before the times are read, and nothing is written before all of them are found.
pub fn run_violations<R: Source, T: Source, W: Sink>(
    alloc: Global,
    instance_reader: &mut R,
    times_reader: &mut T,
    writer: &mut W,
    period: u32,
    names: Option<&Names>,
) -> Result<usize, Fault>
    requires reads_fit { FewerThan (2 ^ 62) (R.calls instance_reader.old) }
    requires times_reads_fit { FewerThan (2 ^ 62) (T.calls times_reader.old) }
    requires writes_fit { FewerThan (2 ^ 62) (W.calls writer.old) }
    ensures ok { IfOk result (λ count.
        ReadsForEvents (R.remaining instance_reader.old) (R.remaining instance_reader.new)
        (T.remaining times_reader.old) (T.remaining times_reader.new) period
        (λ p times. WritesViolations p times (naming_of (option_copied names.entry)) count
        (Appends (W.contents writer.old) (W.contents writer.new)))) }
    ensures reads { OnOk result
        (HasWorked (R.calls instance_reader.old) (R.calls instance_reader.new)) }
    ensures reads_else { IfErr result (λ fault. fault ≢ Fault.Read → HasWorked (R.calls instance_reader.old) (R.calls instance_reader.new)) }
    ensures times_reads { OnOk result
        (HasWorked (T.calls times_reader.old) (T.calls times_reader.new)) }
    ensures times_reads_else { IfErr result (λ fault. fault ≢ Fault.Read → HasWorked (T.calls times_reader.old) (T.calls times_reader.new)) }
    ensures writes { OnOk result (HasWorked (W.calls writer.old) (W.calls writer.new)) }
    ensures cause { IfErr result (λ fault. ViolationsCause fault
        (over (R.remaining instance_reader.old) (R.remaining instance_reader.new)
        (R.calls instance_reader.old) (R.calls instance_reader.new))
        (over (T.remaining times_reader.old) (T.remaining times_reader.new)
        (T.calls times_reader.old) (T.calls times_reader.new))
        (over (W.contents writer.old) (W.contents writer.new)
        (W.calls writer.old) (W.calls writer.new))
        period (times_reader.new ≡ times_reader.old) (naming_of (option_copied names.entry))) }
    ensures silent { IfErr result (λ fault. fault ≢ Fault.Write → writer.new ≡ writer.old) }
{
    let instance = read_whole_instance(alloc, instance_reader, period)?;
    let times = read_whole_times(alloc, &instance, times_reader)?;
    let count = violations(alloc, &instance, &times, names, writer)?;
    Ok(count)
}
