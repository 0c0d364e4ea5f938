//! What is written of a timetable.

ghost use Rattle.std.specs.Prelude.{◌≡◌, ◌<◌, ◌^◌, ℕ, List, IfErr, OnOk};
ghost use Rattle.std.specs.Io.KnownBytes.{Appends};
ghost use Rattle.pesp_stream.specs.Counts.{FewerThan, HasWorked, DeviceFailed};
ghost use Rattle.pesp_stream.specs.Writing.{AppendsFront};
ghost use Rattle.pesp_problem.specs.Timetables.{Pesp, IsTimetable};
ghost use Rattle.pesp_report.specs.Reporting.{IfBlamed, Refuses, UnlessBlamed};

use pesp_diagram::{Claim, diagram};
use pesp_draw::{ActivityFilter, draw};
use pesp_problem::Instance;
use pesp_report::{Names, ReportRefusal, report, report_named};
use pesp_stream::Sink;
use pesp_timetable::{page, timetable};
use std::alloc::Global;

/// What is written of a timetable: a report, its records, a picture or a page.
pub trait Sheet {
    // What is said of the text that is written of these times of an instance.
    ghost shows: { Self → Pesp → List ℕ → List ℕ → Type 0 };

    /// Writes it, with what the text of the times claims of other timetables. `NotTimes` where there isn't one time below the period for each event, and `Violates` with the first row that
    /// isn't satisfied. After `Write` a front of the text is written, and after any other refusal nothing.
    fn write<W: Sink>(
        &self,
        alloc: Global,
        instance: &Instance,
        times: &[u32],
        claim: Claim,
        sink: &mut W,
    ) -> Result<(), ReportRefusal>
        requires fits { FewerThan (2 ^ 63) (W.calls sink.old) }
        ensures timetable { OnOk result (IsTimetable instance.now times.now) }
        ensures refused { IfErr result (Refuses instance.now times.now) }
        ensures text { OnOk result
            ((text : List ℕ) × shows self.now instance.now times.now text
            × Appends (W.contents sink.old) (W.contents sink.new) text) }
        ensures counts { OnOk result (HasWorked (W.calls sink.old) (W.calls sink.new)) }
        ensures front { IfErr result (λ e. IfBlamed e
            ((text : List ℕ) × shows self.now instance.now times.now text
            × AppendsFront (W.contents sink.old) (W.contents sink.new) text)) }
        ensures fault { IfErr result (λ e. IfBlamed e
            (DeviceFailed (W.calls sink.old) (W.calls sink.new))) }
        ensures silent { IfErr result (λ e. UnlessBlamed e (sink.new ≡ sink.old)) };
}

/// The report.
#[derive(Clone, Copy)]
pub struct Report;

impl Sheet for Report {
    ghost use Rattle.pesp_report.specs.Report.{IsReport};

    ghost shows = { λ _ p times text. IsReport p times text };

    fn write<W: Sink>(
        &self,
        alloc: Global,
        instance: &Instance,
        times: &[u32],
        _claim: Claim,
        sink: &mut W,
    ) -> Result<(), ReportRefusal> {
        report(alloc, instance, times, sink)
    }
}

/// The report, with the names of its two events behind the fields of each activity.
#[derive(Clone, Copy)]
pub struct NamedReport<'a>(pub &'a Names);

impl Sheet for NamedReport<'_> {
    ghost use Rattle.pesp_report.specs.Naming.{name_of};
    ghost use Rattle.pesp_report.specs.Named.{IsNamedReport};

    ghost shows = { λ s p times text. IsNamedReport p times (name_of s.0.now) text };

    fn write<W: Sink>(
        &self,
        alloc: Global,
        instance: &Instance,
        times: &[u32],
        _claim: Claim,
        sink: &mut W,
    ) -> Result<(), ReportRefusal> {
        report_named(alloc, instance, times, self.0, sink)
    }
}

/// A picture in SVG with at most `rows` activities, the dearest ones that cost something, and all events, called by these names
/// where there are any. What it shows is not promised.
#[derive(Clone, Copy)]
pub struct Picture<'a> {
    pub rows: u32,
    pub names: Option<&'a Names>,
}

impl Sheet for Picture<'_> {
    ghost use Rattle.std.specs.Prelude.{⊤};

    ghost shows = { λ _ _ _ _. ⊤ };

    fn write<W: Sink>(
        &self,
        alloc: Global,
        instance: &Instance,
        times: &[u32],
        _claim: Claim,
        sink: &mut W,
    ) -> Result<(), ReportRefusal> {
        let choice = ActivityFilter {
            most: self.rows,
            costless: false,
        };
        draw(alloc, instance, times, choice, self.names, sink)
    }
}

/// Time-distance diagrams in SVG, one for each line that the names tell, or one along stations that are named between commas. What
/// they show is not promised.
#[derive(Clone, Copy)]
pub struct Diagrams<'a> {
    pub names: &'a Names,
    pub along: Option<&'a str>,
}

impl Sheet for Diagrams<'_> {
    ghost use Rattle.std.specs.Prelude.{⊤};

    ghost shows = { λ _ _ _ _. ⊤ };

    fn write<W: Sink>(
        &self,
        alloc: Global,
        instance: &Instance,
        times: &[u32],
        _claim: Claim,
        sink: &mut W,
    ) -> Result<(), ReportRefusal> {
        diagram(alloc, instance, times, self.names, self.along, sink)
    }
}

/// The timetable: a record for each event, or an object of JSON, in the order of the ways of trains, with what names tell where
/// there are any.
#[derive(Clone, Copy)]
pub struct Timetable<'a> {
    pub names: Option<&'a Names>,
    pub json: bool,
}

impl Sheet for Timetable<'_> {
    ghost use Rattle.pesp_timetable.specs.Texts.{IsTimetableText};

    ghost shows = { λ s p times text. IsTimetableText s.json p times text };

    fn write<W: Sink>(
        &self,
        alloc: Global,
        instance: &Instance,
        times: &[u32],
        _claim: Claim,
        sink: &mut W,
    ) -> Result<(), ReportRefusal> {
        timetable(alloc, instance, times, self.names, self.json, sink)
    }
}

/// A page in HTML with what the text of the times claims, the timetable, the diagrams and the slack of each activity. What it
/// shows is not promised.
#[derive(Clone, Copy)]
pub struct HtmlPage<'a>(pub Option<&'a Names>);

impl Sheet for HtmlPage<'_> {
    ghost use Rattle.std.specs.Prelude.{⊤};

    ghost shows = { λ _ _ _ _. ⊤ };

    fn write<W: Sink>(
        &self,
        alloc: Global,
        instance: &Instance,
        times: &[u32],
        claim: Claim,
        sink: &mut W,
    ) -> Result<(), ReportRefusal> {
        page(alloc, instance, times, self.0, claim, sink)
    }
}
