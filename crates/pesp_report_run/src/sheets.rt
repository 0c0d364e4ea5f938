//! The runs that write something of a timetable.

ghost use Rattle.std.specs.Prelude.{◌≡◌, ◌≢◌, ◌<◌, ◌≤◌, ◌^◌, OnOk, IfErr};
ghost use Rattle.std.specs.Io.KnownBytes.{Appends};
ghost use Rattle.pesp_stream.specs.Counts.{FewerThan, HasWorked};
ghost use Rattle.pesp_report.specs.Report.{IsReport};
ghost use Rattle.pesp_check.specs.Devices.{over};
ghost use Rattle.pesp_runs.specs.Reading.{ReadsTimetable};
ghost use Rattle.pesp_report_run.specs.Reporting.{WritesSheet, SheetCause};

use crate::claimed::read_claimed;
use crate::sheet::{Report, Sheet};
use pesp_runs::{Fault, read_whole_instance};
use pesp_stream::{Sink, Source};
use std::alloc::Global;

/// Reads an instance and then times for its events, and writes a sheet of these times; the instance is judged before the times
/// are read, and nothing is written where they are no timetable.
pub fn run_sheet<P: Sheet, R: Source, T: Source, W: Sink>(
    alloc: Global,
    sheet: &P,
    instance_reader: &mut R,
    times_reader: &mut T,
    writer: &mut W,
    period: u32,
) -> Result<(), Fault>
    requires reads_fit { FewerThan (2 ^ 62) (R.calls instance_reader.old) }
    requires times_reads_fit { FewerThan (2 ^ 62) (T.calls times_reader.old) }
    requires writes_fit { FewerThan (2 ^ 62) (W.calls writer.old) }
    ensures ok { OnOk result
        (ReadsTimetable (R.remaining instance_reader.old) (R.remaining instance_reader.new)
        (T.remaining times_reader.old) (T.remaining times_reader.new) period
        (λ p times. WritesSheet (P.shows sheet.now p times)
        (Appends (W.contents writer.old) (W.contents writer.new)))) }
    ensures reads { OnOk result
        (HasWorked (R.calls instance_reader.old) (R.calls instance_reader.new)) }
    ensures reads_else { IfErr result (λ fault. fault ≢ Fault.Read → HasWorked (R.calls instance_reader.old) (R.calls instance_reader.new)) }
    ensures times_reads { OnOk result
        (HasWorked (T.calls times_reader.old) (T.calls times_reader.new)) }
    ensures times_reads_else { IfErr result (λ fault. fault ≢ Fault.Read → HasWorked (T.calls times_reader.old) (T.calls times_reader.new)) }
    ensures writes { OnOk result (HasWorked (W.calls writer.old) (W.calls writer.new)) }
    ensures cause { IfErr result (λ fault. SheetCause fault
        (over (R.remaining instance_reader.old) (R.remaining instance_reader.new)
        (R.calls instance_reader.old) (R.calls instance_reader.new))
        (over (T.remaining times_reader.old) (T.remaining times_reader.new)
        (T.calls times_reader.old) (T.calls times_reader.new))
        (over (W.contents writer.old) (W.contents writer.new)
        (W.calls writer.old) (W.calls writer.new))
        period (times_reader.new ≡ times_reader.old) (P.shows sheet.now)) }
    ensures silent { IfErr result (λ fault. fault ≢ Fault.Write → writer.new ≡ writer.old) }
{
    let instance = read_whole_instance(alloc, instance_reader, period)?;
    let claimed = read_claimed(alloc, &instance, times_reader)?;
    sheet.write(alloc, &instance, &claimed.times, claimed.claim, writer)?;
    Ok(())
}

/// Reads an instance and then times for its events, and writes the report of these times; the instance is judged before the
/// times are read, and nothing is written where they are no timetable.
pub fn run_report<R: Source, T: Source, W: Sink>(
    alloc: Global,
    instance_reader: &mut R,
    times_reader: &mut T,
    writer: &mut W,
    period: u32,
) -> Result<(), Fault>
    requires reads_fit { FewerThan (2 ^ 62) (R.calls instance_reader.old) }
    requires times_reads_fit { FewerThan (2 ^ 62) (T.calls times_reader.old) }
    requires writes_fit { FewerThan (2 ^ 62) (W.calls writer.old) }
    ensures ok { OnOk result
        (ReadsTimetable (R.remaining instance_reader.old) (R.remaining instance_reader.new)
        (T.remaining times_reader.old) (T.remaining times_reader.new) period
        (λ p times. WritesSheet (IsReport p times)
        (Appends (W.contents writer.old) (W.contents writer.new)))) }
    ensures reads { OnOk result
        (HasWorked (R.calls instance_reader.old) (R.calls instance_reader.new)) }
    ensures reads_else { IfErr result (λ fault. fault ≢ Fault.Read → HasWorked (R.calls instance_reader.old) (R.calls instance_reader.new)) }
    ensures times_reads { OnOk result
        (HasWorked (T.calls times_reader.old) (T.calls times_reader.new)) }
    ensures times_reads_else { IfErr result (λ fault. fault ≢ Fault.Read → HasWorked (T.calls times_reader.old) (T.calls times_reader.new)) }
    ensures writes { OnOk result (HasWorked (W.calls writer.old) (W.calls writer.new)) }
    ensures cause { IfErr result (λ fault. SheetCause fault
        (over (R.remaining instance_reader.old) (R.remaining instance_reader.new)
        (R.calls instance_reader.old) (R.calls instance_reader.new))
        (over (T.remaining times_reader.old) (T.remaining times_reader.new)
        (T.calls times_reader.old) (T.calls times_reader.new))
        (over (W.contents writer.old) (W.contents writer.new)
        (W.calls writer.old) (W.calls writer.new))
        period (times_reader.new ≡ times_reader.old) IsReport) }
    ensures silent { IfErr result (λ fault. fault ≢ Fault.Write → writer.new ≡ writer.old) }
{
    run_sheet(
        alloc,
        &Report,
        instance_reader,
        times_reader,
        writer,
        period,
    )
}
