//! The picture of a timetable.

ghost use Rattle.std.specs.Prelude.{◌≡◌, ◌<◌, ◌^◌, ℕ, List, IfErr, OnOk};
ghost use Rattle.std.specs.Io.KnownBytes.{Appends};
ghost use Rattle.pesp_stream.specs.Counts.{FewerThan, HasWorked, DeviceFailed};
ghost use Rattle.pesp_stream.specs.Writing.{AppendsFront};
ghost use Rattle.pesp_problem.specs.Timetables.{IsTimetable, AreTimes};
ghost use Rattle.pesp_report.specs.Reporting.{IfBlamed, Refuses, UnlessBlamed};

use crate::choice::ActivityFilter;
use crate::columns::Columns;
use crate::events::{EventTable, events_by_label, write_events};
use crate::frame::{front_of, write_activities_left, write_event_heading, write_headings};
use crate::front::write_front;
use crate::labels::Labels;
use crate::rows::{RowHeights, write_activities};
use crate::scale::write_scale;
use pesp_problem::Instance;
use pesp_report::{Line, Names, ReportRefusal, cost_of, lines_by_cost};
use pesp_stream::{Bytes, Sink, print_to};
use std::alloc::{AllocError, Global};

/// Writes a picture of a timetable in SVG: over one period, a row for each activity with a bar from its tail's time over
/// its least duration and on over its slack, and a thin line to its greatest duration, the dearest activity first; and a
/// table of all events by label, with their times. A bar that reaches the period's end goes on from 0, behind an arrow. Which
/// activities are drawn is chosen; how many are not is said in words. Events are called by their names where
/// these are given, and else by their labels.
///
/// `NotTimes` where there isn't one time below the period for each event, and `Violates` with the first row that isn't
/// satisfied; `Memory` where a growth was refused. An interrupted write is repeated, at most 1000 times in all. After `Write`
/// a front of the picture is written, and after any other refusal nothing.
pub fn draw<W: Sink>(
    alloc: Global,
    instance: &Instance,
    times: &[u32],
    choice: ActivityFilter,
    names: Option<&Names>,
    sink: &mut W,
) -> Result<(), ReportRefusal>
    requires fits { FewerThan (2 ^ 63) (W.calls sink.old) }
    ensures timetable { OnOk result (IsTimetable instance.now times.now) }
    ensures refused { IfErr result (Refuses instance.now times.now) }

    // Something is written at Ok, a front of it where the writer failed, and else nothing.
    ensures text { OnOk result
        ((text : List ℕ) × Appends (W.contents sink.old) (W.contents sink.new) text) }
    ensures counts { OnOk result (HasWorked (W.calls sink.old) (W.calls sink.new)) }
    ensures front { IfErr result (λ e. IfBlamed e
        ((text : List ℕ) × AppendsFront (W.contents sink.old) (W.contents sink.new) text)) }
    ensures fault { IfErr result (λ e. IfBlamed e
        (DeviceFailed (W.calls sink.old) (W.calls sink.new))) }
    ensures silent { IfErr result (λ e. UnlessBlamed e (sink.new ≡ sink.old)) }
{
    let cost = cost_of(instance, times)?;
    let Ok(text) = picture_of(alloc, instance, times, choice, Labels::of(names), cost) else {
        return Err(ReportRefusal::Memory);
    };
    match print_to(sink, &Bytes(text.as_bytes())) {
        Ok(()) => Ok(()),
        Err(_) => Err(ReportRefusal::Write),
    }
}

/// The picture of a timetable of this cost.
fn picture_of(
    alloc: Global,
    instance: &Instance,
    times: &[u32],
    choice: ActivityFilter,
    labels: Labels<'_>,
    cost: u64,
) -> Result<String, AllocError>
    requires { AreTimes instance.now times.now }
{
    let lines = lines_by_cost(alloc, instance, times)?;
    let drawn = choice.of_lines(&lines);
    let events = events_by_label(alloc, instance, times)?;
    let columns = Columns::of(drawn, instance.events(), labels);
    let table = EventTable::of(&columns, events.len());
    let heights = RowHeights::of(drawn.len(), table.rows);
    let mut text = String::new(alloc);
    let front = front_of(instance.period(), cost);
    write_front(&mut text, columns.edge, heights.bottom, front)?;
    write_drawn(
        &mut text, &columns, labels, &heights, instance, times, drawn,
    )?;
    write_activities_left(&mut text, &lines, drawn.len(), heights.activities_end)?;
    write_event_heading(&mut text, heights.events)?;
    write_events(&mut text, &columns, labels, &table, &events, heights.events)?;
    text.push_str("</svg>\n")?;
    Ok(text)
}

/// Writes the activities that are drawn, with their headings and the scale of the period.
fn write_drawn(
    text: &mut String,
    columns: &Columns,
    labels: Labels<'_>,
    heights: &RowHeights,
    instance: &Instance,
    times: &[u32],
    drawn: &[Line],
) -> Result<(), AllocError> {
    let RowHeights {
        activities,
        activities_end,
        ..
    } = *heights;
    write_headings(text, columns, activities)?;
    write_scale(text, columns, instance.period(), activities, activities_end)?;
    write_activities(text, columns, labels, instance, times, drawn, activities)
}
