//! The timetable.

ghost use Rattle.std.specs.Prelude.{◌≡◌, ◌<◌, ◌^◌, ℕ, List, IfOk, IfErr, OnOk};
ghost use Rattle.std.specs.Io.KnownBytes.{Appends};
ghost use Rattle.pesp_stream.specs.Counts.{FewerThan, HasWorked, DeviceFailed};
ghost use Rattle.pesp_stream.specs.Writing.{AppendsFront};
ghost use Rattle.pesp_problem.specs.Timetables.{AreTimes, IsTimetable};
ghost use Rattle.pesp_report.specs.Reporting.{IfBlamed, Refuses, UnlessBlamed};
ghost use Rattle.pesp_timetable.specs.Texts.{IsTimetableText};

use crate::entry::entries_in_order;
use crate::objects::json_of;
use crate::records::text_of;
use pesp_problem::{Instance, Memory};
use pesp_railway::{Told, told_of_events};
use pesp_report::{Names, ReportRefusal, cost_of};
use pesp_stream::{Bytes, Sink, print_to};
use std::alloc::Global;

/// Writes a timetable as records of csv: a header, and for each event a record with its label and its time, in the order of
/// the ways of trains, and along a way in the order of its stops. Beside these stand the line, the direction, the station and
/// the name, whether a train comes or leaves, the time as hours and minutes, which goes on along the way, and the changes. With
/// `json` the same is written as one array in JSON: an object for each event, whose keys are the columns of the records, with
/// ways, stops, events and times as numbers.
///
/// `NotTimes` where there isn't one time below the period for each event, and `Violates` with the first row that isn't
/// satisfied. An interrupted write is repeated, at most 1000 times in all. After `Write` a front of the timetable is written,
/// and after any other refusal nothing.
pub fn timetable<W: Sink>(
    alloc: Global,
    instance: &Instance,
    times: &[u32],
    names: Option<&Names>,
    json: bool,
    sink: &mut W,
) -> Result<(), ReportRefusal>
    requires fits { FewerThan (2 ^ 63) (W.calls sink.old) }
    ensures timetable { OnOk result (IsTimetable instance.now times.now) }
    ensures refused { IfErr result (Refuses instance.now times.now) }

    // All records are written at Ok, a front of them where the writer failed, and else nothing.
    ensures text { OnOk result ((text : List ℕ) × IsTimetableText json instance.now times.now text
        × Appends (W.contents sink.old) (W.contents sink.new) text) }
    ensures counts { OnOk result (HasWorked (W.calls sink.old) (W.calls sink.new)) }
    ensures front { IfErr result
        (λ e. IfBlamed e ((text : List ℕ) × IsTimetableText json instance.now times.now text
        × AppendsFront (W.contents sink.old) (W.contents sink.new) text)) }
    ensures fault { IfErr result (λ e. IfBlamed e
        (DeviceFailed (W.calls sink.old) (W.calls sink.new))) }
    ensures silent { IfErr result (λ e. UnlessBlamed e (sink.new ≡ sink.old)) }
{
    let _cost = cost_of(instance, times)?;
    let text = text_for(alloc, instance, times, names, json)?;
    match print_to(sink, &Bytes(text.as_slice())) {
        Ok(()) => Ok(()),
        Err(_) => Err(ReportRefusal::Write),
    }
}

/// The text of the timetable of these times.
fn text_for(
    alloc: Global,
    instance: &Instance,
    times: &[u32],
    names: Option<&Names>,
    json: bool,
) -> Result<Vec<u8>, Memory>
    requires { AreTimes instance.now times.now }
    ensures { IfOk result (λ text. IsTimetableText json instance.now times.now text.items) }
{
    let tolds = told_of_events(alloc, instance, times, names)?;
    let text = text_in_order(alloc, instance, times, &tolds, json);
    drop(tolds);
    text
}

/// The text of the timetable of these times, of whose events this is told.
fn text_in_order(
    alloc: Global,
    instance: &Instance,
    times: &[u32],
    tolds: &[Told],
    json: bool,
) -> Result<Vec<u8>, Memory>
    requires { AreTimes instance.now times.now }
    ensures { IfOk result (λ text. IsTimetableText json instance.now times.now text.items) }
{
    let entries = entries_in_order(alloc, instance, times, tolds)?;
    if json {
        json_of(alloc, tolds, &entries)
    } else {
        text_of(alloc, tolds, &entries)
    }
}
