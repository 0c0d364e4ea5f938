//! The report of a timetable with the names of the events.

ghost use Rattle.std.specs.Prelude.{◌≡◌, ◌<◌, ◌^◌, ℕ, List, IfOk, IfErr, OnOk};
ghost use Rattle.std.specs.Io.KnownBytes.{Appends};
ghost use Rattle.pesp_stream.specs.Counts.{FewerThan, HasWorked, DeviceFailed};
ghost use Rattle.pesp_stream.specs.Writing.{AppendsFront};
ghost use Rattle.pesp_problem.specs.Timetables.{AreTimes, IsTimetable, IsTimetableOfCost};
ghost use Rattle.pesp_report.specs.Naming.{name_of};
ghost use Rattle.pesp_report.specs.Named.{IsNamedReport};
ghost use Rattle.pesp_report.specs.Reporting.{IfBlamed, Refuses, UnlessBlamed};

use crate::line::{lines_by_cost, slack_sum};
use crate::named_records::named_text_of;
use crate::names::Names;
use crate::refusal::ReportRefusal;
use crate::timetable_cost::cost_of;
use pesp_problem::{Instance, Memory};
use pesp_stream::{Bytes, Sink, print_to};
use std::alloc::Global;

/// Writes the report of a timetable as `report` does, with the same refusals, and behind the fields of each activity the names
/// of its tail and its head, each empty where the event has none.
pub fn report_named<W: Sink>(
    alloc: Global,
    instance: &Instance,
    times: &[u32],
    names: &Names,
    sink: &mut W,
) -> Result<(), ReportRefusal>
    requires fits { FewerThan (2 ^ 63) (W.calls sink.old) }
    ensures timetable { OnOk result (IsTimetable instance.now times.now) }
    ensures refused { IfErr result (Refuses instance.now times.now) }

    // The whole report is written at Ok, a front of it where the writer failed, and else nothing.
    ensures text { OnOk result ((text : List ℕ) × IsNamedReport instance.now times.now (name_of names.now) text
        × Appends (W.contents sink.old) (W.contents sink.new) text) }
    ensures counts { OnOk result (HasWorked (W.calls sink.old) (W.calls sink.new)) }
    ensures front { IfErr result
        (λ e. IfBlamed e ((text : List ℕ) × IsNamedReport instance.now times.now (name_of names.now) text
        × AppendsFront (W.contents sink.old) (W.contents sink.new) text)) }
    ensures fault { IfErr result (λ e. IfBlamed e
        (DeviceFailed (W.calls sink.old) (W.calls sink.new))) }
    ensures silent { IfErr result (λ e. UnlessBlamed e (sink.new ≡ sink.old)) }
{
    let cost = cost_of(instance, times)?;
    let text = named_text_for(alloc, instance, times, names, cost)?;
    match print_to(sink, &Bytes(text.as_slice())) {
        Ok(()) => Ok(()),
        Err(_) => Err(ReportRefusal::Write),
    }
}

/// The text of the report of times of this cost.
fn named_text_for(
    alloc: Global,
    instance: &Instance,
    times: &[u32],
    names: &Names,
    cost: u64,
) -> Result<Vec<u8>, Memory>
    requires { IsTimetableOfCost instance.now times.now cost }
    ensures { IfOk result (λ text. IsNamedReport instance.now times.now (name_of names.now) text.items) }
{
    let lines = lines_by_cost(alloc, instance, times)?;
    named_text_of(alloc, names, &lines, slack_sum(instance, times), cost)
}
