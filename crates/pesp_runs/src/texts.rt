//! The texts that several runs read.

ghost use Rattle.std.specs.Prelude.{◌≢◌, ◌<◌, ◌^◌, OnOk, IfOk, IfErr};
ghost use Rattle.pesp_stream.specs.Counts.{FewerThan, HasWorked};
ghost use Rattle.pesp_problem.specs.Timetables.{AreTimes};
ghost use Rattle.pesp_check.specs.Devices.{over};
ghost use Rattle.pesp_runs.specs.Reading.{ReadsInstance, ReadsTimes, ReadsBase};
ghost use Rattle.pesp_runs.specs.Causes.{InstanceCause, TimesCause, BaseCause};

use crate::fault::Fault;
use pesp_cert::{Certificate, parse};
use pesp_problem::Instance;
use pesp_report::read_times;
use pesp_stream::{Source, read_all};
use pesp_whole_check::{Verdict, check};
use std::alloc::Global;

/// How many bytes of a text behind the instance are read and judged.
pub const MOST_TEXT: usize = 1_073_741_824;

/// Reads an instance from all that the reader has; one byte more than the longest text is read, so that a longer one is
/// refused.
pub fn read_whole_instance<R: Source>(
    alloc: Global,
    reader: &mut R,
    period: u32,
) -> Result<Instance, Fault>
    requires fits { FewerThan (2 ^ 63) (R.calls reader.old) }
    ensures ok { IfOk result
        (ReadsInstance (R.remaining reader.old) (R.remaining reader.new) period) }
    ensures counts { OnOk result (HasWorked (R.calls reader.old) (R.calls reader.new)) }
    ensures counts_else { IfErr result (λ fault. fault ≢ Fault.Read → HasWorked (R.calls reader.old) (R.calls reader.new)) }
    ensures cause { IfErr result
        (λ fault. InstanceCause fault
        (over (R.remaining reader.old) (R.remaining reader.new)
        (R.calls reader.old) (R.calls reader.new)) period) }
{
    let instance = pesp_check::read_whole_instance(alloc, reader, period)?;
    Ok(instance)
}

/// Reads times for the events of an instance, from lines that tell them or from a certificate that shows them. At most
/// 1,073,741,824 bytes are read and judged.
pub fn read_whole_times<R: Source>(
    alloc: Global,
    instance: &Instance,
    reader: &mut R,
) -> Result<Vec<u32>, Fault>
    requires fits { FewerThan (2 ^ 63) (R.calls reader.old) }
    ensures ok { IfOk result
        (λ times. ReadsTimes (R.remaining reader.old) (R.remaining reader.new) instance.now
        times.items) }
    ensures times { IfOk result (λ times. AreTimes instance.now times.items) }
    ensures counts { OnOk result (HasWorked (R.calls reader.old) (R.calls reader.new)) }
    ensures counts_else { IfErr result (λ fault. fault ≢ Fault.Read → HasWorked (R.calls reader.old) (R.calls reader.new)) }
    ensures cause { IfErr result
        (λ fault. TimesCause fault
        (over (R.remaining reader.old) (R.remaining reader.new)
        (R.calls reader.old) (R.calls reader.new)) instance.now) }
{
    let text = read_all(alloc, reader, MOST_TEXT)?;
    let times = read_times(alloc, instance, &text)?;
    Ok(times)
}

/// Reads a certificate, which has to be valid for the instance: a base to work on. At most 1,073,741,824 bytes are read and
/// judged.
pub fn read_base<R: Source>(
    alloc: Global,
    instance: &Instance,
    reader: &mut R,
) -> Result<Certificate, Fault>
    requires fits { FewerThan (2 ^ 63) (R.calls reader.old) }
    ensures ok { IfOk result
        (ReadsBase (R.remaining reader.old) (R.remaining reader.new) instance.now) }
    ensures counts { OnOk result (HasWorked (R.calls reader.old) (R.calls reader.new)) }
    ensures counts_else { IfErr result (λ fault. fault ≢ Fault.Read → HasWorked (R.calls reader.old) (R.calls reader.new)) }
    ensures cause { IfErr result
        (λ fault. BaseCause fault
        (over (R.remaining reader.old) (R.remaining reader.new)
        (R.calls reader.old) (R.calls reader.new)) instance.now) }
{
    let text = read_all(alloc, reader, MOST_TEXT)?;
    let base = parse(alloc, &text)?;
    match check(alloc, instance, &base)? {
        Verdict::Accepted => Ok(base),
        Verdict::Refused(refusal) => Err(Fault::Base(refusal)),
    }
}
