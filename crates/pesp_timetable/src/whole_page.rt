//! The page of a timetable.

ghost use Rattle.std.specs.Prelude.{◌≡◌, ◌<◌, ◌^◌, ℕ, List, IfErr, OnOk};
ghost use Rattle.std.specs.Io.KnownBytes.{Appends};
ghost use Rattle.pesp_stream.specs.Counts.{FewerThan, HasWorked, DeviceFailed};
ghost use Rattle.pesp_stream.specs.Writing.{AppendsFront};
ghost use Rattle.pesp_problem.specs.Timetables.{IsTimetable, AreTimes};
ghost use Rattle.pesp_report.specs.Reporting.{IfBlamed, Refuses, UnlessBlamed};

use crate::entry::entries_in_order;
use crate::trains::write_trains;
use pesp_diagram::{
    Claim, count_tight, write_diagrams_section, write_found, write_page_end, write_page_front,
    write_slack,
};
use pesp_draw::Labels;
use pesp_problem::Instance;
use pesp_railway::told_of_events;
use pesp_report::{Names, ReportRefusal, cost_of, lines_by_cost};
use pesp_stream::{Bytes, Sink, print_to};
use std::alloc::{AllocError, Global};

/// Writes a page in HTML that needs nothing from elsewhere: the cost, what a certificate claims of it and what that means;
/// for each train its stops with their times and changes; the diagrams of the lines that the names tell; and a table of all
/// activities with their slack, which can be sorted and searched.
///
/// `NotTimes` where there isn't one time below the period for each event, and `Violates` with the first row that isn't
/// satisfied; `Memory` where a growth was refused. An interrupted write is repeated, at most 1000 times in all. After `Write`
/// a front of the page is written, and after any other refusal nothing.
pub fn page<W: Sink>(
    alloc: Global,
    instance: &Instance,
    times: &[u32],
    names: Option<&Names>,
    claim: Claim,
    sink: &mut W,
) -> Result<(), ReportRefusal>
    requires fits { FewerThan (2 ^ 63) (W.calls sink.old) }
    ensures timetable { OnOk result (IsTimetable instance.now times.now) }
    ensures refused { IfErr result (Refuses instance.now times.now) }

    // Something is written at Ok, a front of it where the writer failed, and else nothing.
    ensures text { OnOk result
        ((text : List ℕ) × Appends (W.contents sink.old) (W.contents sink.new) text) }
    ensures counts { OnOk result (HasWorked (W.calls sink.old) (W.calls sink.new)) }
    ensures front { IfErr result (λ e. IfBlamed e
        ((text : List ℕ) × AppendsFront (W.contents sink.old) (W.contents sink.new) text)) }
    ensures fault { IfErr result (λ e. IfBlamed e
        (DeviceFailed (W.calls sink.old) (W.calls sink.new))) }
    ensures silent { IfErr result (λ e. UnlessBlamed e (sink.new ≡ sink.old)) }
{
    let cost = cost_of(instance, times)?;
    let Ok(text) = text_of(alloc, instance, times, names, claim, cost) else {
        return Err(ReportRefusal::Memory);
    };
    match print_to(sink, &Bytes(text.as_bytes())) {
        Ok(()) => Ok(()),
        Err(_) => Err(ReportRefusal::Write),
    }
}

/// The page of a timetable of this cost.
fn text_of(
    alloc: Global,
    instance: &Instance,
    times: &[u32],
    names: Option<&Names>,
    claim: Claim,
    cost: u64,
) -> Result<String, AllocError>
    requires { AreTimes instance.now times.now }
{
    let lines = lines_by_cost(alloc, instance, times)?;
    let mut text = String::new(alloc);
    write_page_front(&mut text, instance.period(), cost)?;
    write_found(&mut text, instance, claim, cost, count_tight(&lines))?;
    write_all_trains(alloc, &mut text, instance, times, names)?;
    write_diagrams_section(alloc, &mut text, instance, times, names)?;
    write_slack(&mut text, Labels::of(names), &lines)?;
    write_page_end(&mut text)?;
    Ok(text)
}

/// Writes the timetable by line and station.
fn write_all_trains(
    alloc: Global,
    text: &mut String,
    instance: &Instance,
    times: &[u32],
    names: Option<&Names>,
) -> Result<(), AllocError>
    requires { AreTimes instance.now times.now }
{
    let tolds = told_of_events(alloc, instance, times, names)?;
    let entries = entries_in_order(alloc, instance, times, &tolds)?;
    write_trains(text, Labels::of(names), &tolds, &entries)
}
