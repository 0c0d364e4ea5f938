//! The run that fixes events of an instance.

ghost use Rattle.std.specs.Prelude.{◌≡◌, ◌≢◌, ◌<◌, ◌≤◌, ◌^◌, OnOk, IfOk, IfErr};
ghost use Rattle.std.specs.Io.KnownBytes.{Appends};
ghost use Rattle.pesp_stream.specs.Counts.{FewerThan, HasWorked};
ghost use Rattle.pesp_report_run.specs.Fixed.{IsText};
ghost use Rattle.pesp_check.specs.Devices.{over, HasFailed, GetsFront};
ghost use Rattle.pesp_runs.specs.Causes.{OutCause};
ghost use Rattle.pesp_report_run.specs.Reporting.{WritesSheet};
ghost use Rattle.pesp_report_run.specs.Violating.{ReadsForEvents};
ghost use Rattle.pesp_report_run.specs.Fixing.{FixCause, WritesFixed};

use crate::fixed::fixed_text;
use pesp_fixed::{FixRefusal, Wanted};
use pesp_problem::Instance;
use pesp_report::Names;
use pesp_runs::{Fault, read_whole_instance, read_whole_times};
use pesp_stream::{Bytes, Sink, Source, print_to};
use std::alloc::Global;

/// Writes an instance with what is wanted in front, or tells why it can't be had, and writes nothing.
fn write_fixed<W: Sink>(
    alloc: Global,
    instance: &Instance,
    times: &[u32],
    names: Option<&Names>,
    wanted: Wanted<'_>,
    writer: &mut W,
) -> Result<Option<FixRefusal>, Fault>
    requires fits { FewerThan (2 ^ 63) (W.calls writer.old) }
    ensures ok { IfOk result (λ refused. WritesFixed instance.now refused
        (Appends (W.contents writer.old) (W.contents writer.new))) }
    ensures counts { OnOk result (HasWorked (W.calls writer.old) (W.calls writer.new)) }
    ensures cause { IfErr result (λ fault. OutCause fault
        (HasFailed (over (W.contents writer.old) (W.contents writer.new)
        (W.calls writer.old) (W.calls writer.new))
        × WritesSheet (IsText instance.now) (GetsFront
        (over (W.contents writer.old) (W.contents writer.new)
        (W.calls writer.old) (W.calls writer.new))))) }
    ensures silent { IfErr result (λ fault. fault ≢ Fault.Write → writer.new ≡ writer.old) }
{
    match fixed_text(alloc, instance, times, names, wanted) {
        Ok(text) => {
            print_to(writer, &Bytes(text.as_bytes()))?;
            Ok(None)
        }
        Err(FixRefusal::Memory) => Err(Fault::Memory),
        Err(refusal) => Ok(Some(refusal)),
    }
}

/// Reads an instance and then times for its events, and writes the instance with activities in front that hold what is wanted at
/// times of a clock; or tells why that can't be had, and writes nothing. The instance is judged before the times are read.
pub fn run_fix<R: Source, T: Source, W: Sink>(
    alloc: Global,
    instance_reader: &mut R,
    times_reader: &mut T,
    writer: &mut W,
    period: u32,
    names: Option<&Names>,
    wanted: Wanted<'_>,
) -> Result<Option<FixRefusal>, Fault>
    requires reads_fit { FewerThan (2 ^ 62) (R.calls instance_reader.old) }
    requires times_reads_fit { FewerThan (2 ^ 62) (T.calls times_reader.old) }
    requires writes_fit { FewerThan (2 ^ 62) (W.calls writer.old) }
    ensures ok { IfOk result (λ refused.
        ReadsForEvents (R.remaining instance_reader.old) (R.remaining instance_reader.new)
        (T.remaining times_reader.old) (T.remaining times_reader.new) period
        (λ p times. WritesFixed p refused
        (Appends (W.contents writer.old) (W.contents writer.new)))) }
    ensures reads { OnOk result
        (HasWorked (R.calls instance_reader.old) (R.calls instance_reader.new)) }
    ensures reads_else { IfErr result (λ fault. fault ≢ Fault.Read → HasWorked (R.calls instance_reader.old) (R.calls instance_reader.new)) }
    ensures times_reads { OnOk result
        (HasWorked (T.calls times_reader.old) (T.calls times_reader.new)) }
    ensures times_reads_else { IfErr result (λ fault. fault ≢ Fault.Read → HasWorked (T.calls times_reader.old) (T.calls times_reader.new)) }
    ensures writes { OnOk result (HasWorked (W.calls writer.old) (W.calls writer.new)) }
    ensures cause { IfErr result (λ fault. FixCause fault
        (over (R.remaining instance_reader.old) (R.remaining instance_reader.new)
        (R.calls instance_reader.old) (R.calls instance_reader.new))
        (over (T.remaining times_reader.old) (T.remaining times_reader.new)
        (T.calls times_reader.old) (T.calls times_reader.new))
        (over (W.contents writer.old) (W.contents writer.new)
        (W.calls writer.old) (W.calls writer.new))
        period (times_reader.new ≡ times_reader.old)) }
    ensures silent { IfErr result (λ fault. fault ≢ Fault.Write → writer.new ≡ writer.old) }
{
    let instance = read_whole_instance(alloc, instance_reader, period)?;
    let times = read_whole_times(alloc, &instance, times_reader)?;
    let refused = write_fixed(alloc, &instance, &times, names, wanted, writer)?;
    Ok(refused)
}
