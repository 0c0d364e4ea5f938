//! The diagrams of a timetable.

ghost use Rattle.std.specs.Prelude.{◌≡◌, ◌<◌, ◌^◌, ℕ, List, IfErr, OnOk};
ghost use Rattle.std.specs.Io.KnownBytes.{Appends};
ghost use Rattle.pesp_stream.specs.Counts.{FewerThan, HasWorked, DeviceFailed};
ghost use Rattle.pesp_stream.specs.Writing.{AppendsFront};
ghost use Rattle.pesp_problem.specs.Timetables.{IsTimetable};
ghost use Rattle.pesp_report.specs.Reporting.{IfBlamed, Refuses, UnlessBlamed};

use crate::frame::{
    PlotColumn, open_picture, open_plot, write_diagrams_front, write_left, write_left_words,
    write_legend, write_scale, write_stations,
};
use crate::heights::Heights;
use crate::layout::{Corner, Layout};
use crate::marks::MarkCounts;
use crate::pieces::{DrawnPiece, write_piece};
use crate::scene::Scene;
use pesp_problem::Instance;
use pesp_railway::{Line, RailwayNetwork};
use pesp_report::{Names, ReportRefusal, cost_of};
use pesp_stream::{Bytes, Sink, print_to};
use std::alloc::{AllocError, Global};

/// Writes time-distance diagrams of a timetable in SVG: for each line that the names tell, its stations below each other in the
/// order in which the names first name them, the time across one period, its trains as lines between stations, what stands at
/// a station as a line along it, and a mark at each change from or to another line, marks of one time and station above each
/// other. A train back stands a little lower at its stations than one out, so that neither lies on the other. Where there are
/// many lines their diagrams stand in columns side by side. What lies behind the period's end goes on from 0. What weighs nothing at
/// a station isn't drawn; how many events have no line or no station is said in words.
/// Where stations are named, between commas, there is one diagram: of these stations, with the trains of all lines, their minutes,
/// and what keeps them apart at a station. It is to scale where the names tell distances that rise or fall along these stations.
///
/// `NotTimes` where there isn't one time below the period for each event, and `Violates` with the first row that isn't
/// satisfied; `Memory` where a growth was refused. An interrupted write is repeated, at most 1000 times in all. After `Write`
/// a front of the picture is written, and after any other refusal nothing.
pub fn diagram<W: Sink>(
    alloc: Global,
    instance: &Instance,
    times: &[u32],
    names: &Names,
    along: Option<&str>,
    sink: &mut W,
) -> Result<(), ReportRefusal>
    requires fits { FewerThan (2 ^ 63) (W.calls sink.old) }
    ensures timetable { OnOk result (IsTimetable instance.now times.now) }
    ensures refused { IfErr result (Refuses instance.now times.now) }

    // Something is written at Ok, a front of it where the writer failed, and else nothing.
    ensures text { OnOk result
        ((text : List ℕ) × Appends (W.contents sink.old) (W.contents sink.new) text) }
    ensures counts { OnOk result (HasWorked (W.calls sink.old) (W.calls sink.new)) }
    ensures front { IfErr result (λ e. IfBlamed e
        ((text : List ℕ) × AppendsFront (W.contents sink.old) (W.contents sink.new) text)) }
    ensures fault { IfErr result (λ e. IfBlamed e
        (DeviceFailed (W.calls sink.old) (W.calls sink.new))) }
    ensures silent { IfErr result (λ e. UnlessBlamed e (sink.new ≡ sink.old)) }
{
    let cost = cost_of(instance, times)?;
    let Ok(text) = picture_of(alloc, instance, times, names, along, cost) else {
        return Err(ReportRefusal::Memory);
    };
    match print_to(sink, &Bytes(text.as_bytes())) {
        Ok(()) => Ok(()),
        Err(_) => Err(ReportRefusal::Write),
    }
}

/// The picture of a timetable of this cost.
fn picture_of(
    alloc: Global,
    instance: &Instance,
    times: &[u32],
    names: &Names,
    along: Option<&str>,
    cost: u64,
) -> Result<String, AllocError> {
    let mut text = String::new(alloc);
    write_diagrams(alloc, &mut text, instance, times, names, along, cost)?;
    Ok(text)
}

/// Writes the picture of a timetable of this cost behind a text, of the lines or along stations.
fn write_diagrams(
    alloc: Global,
    text: &mut String,
    instance: &Instance,
    times: &[u32],
    names: &Names,
    along: Option<&str>,
    cost: u64,
) -> Result<(), AllocError> {
    let network = match along {
        Some(stations) => RailwayNetwork::along(alloc, instance, names, stations)?,
        None => RailwayNetwork::of(alloc, instance, names)?,
    };
    let scene = Scene::of(alloc, instance, times, network)?;
    let column = PlotColumn::of(&scene.network.lines);
    let layout = Layout::of(alloc, &scene.heights, column.width)?;
    write_diagrams_front(
        text,
        column,
        &layout,
        &scene.network,
        instance.period(),
        cost,
    )?;
    write_lines(alloc, text, &scene, column, &layout)?;
    write_left(text, &scene.network, layout.end)?;
    text.push_str("</svg>\n")
}

/// Writes the diagrams of all lines, each at its corner.
fn write_lines(
    alloc: Global,
    text: &mut String,
    scene: &Scene<'_, '_, '_>,
    column: PlotColumn,
    layout: &Layout,
) -> Result<(), AllocError> {
    for (count, line) in scene.network.lines.iter().enumerate() {
        let corner = layout.corners.get(count).copied();
        let (Some(Corner { x, y }), Some(heights)) = (corner, scene.heights.get(count)) else {
            continue;
        };
        writeln!(text, "<g transform=\"translate({x} {y})\">")?;
        write_line(alloc, text, scene, column, line, heights, count)?;
        text.push_str("</g>\n")?;
    }
    Ok(())
}

/// Writes the diagram of a line, which has a number.
fn write_line(
    alloc: Global,
    text: &mut String,
    scene: &Scene<'_, '_, '_>,
    column: PlotColumn,
    line: &Line<'_>,
    heights: &Heights,
    count: usize,
) -> Result<(), AllocError> {
    write_stations(text, column, line, heights, scene.network.is_corridor)?;
    write_scale(text, column, heights, scene.instance.period())?;
    open_plot(text, column, heights)?;
    let mut marks = MarkCounts::none(alloc, line.stations.len())?;
    for row in scene.instance.rows() {
        if let Some(piece) = DrawnPiece::of(scene, count, row) {
            write_piece(text, scene, heights, &mut marks, &piece)?;
        }
    }
    text.push_str("</svg>\n")
}

/// Writes a picture for each line behind a text of HTML, with what the lines and marks mean in front.
pub fn write_pictures(
    alloc: Global,
    text: &mut String,
    instance: &Instance,
    times: &[u32],
    names: &Names,
) -> Result<(), AllocError> {
    let network = RailwayNetwork::of(alloc, instance, names)?;
    let scene = Scene::of(alloc, instance, times, network)?;
    let column = PlotColumn::of(&scene.network.lines);
    write_legend(text)?;
    for (count, line) in scene.network.lines.iter().enumerate() {
        let Some(heights) = scene.heights.get(count) else {
            continue;
        };
        open_picture(text, column, line, heights)?;
        write_line(alloc, text, &scene, column, line, heights, count)?;
        text.push_str("</svg></div>\n")?;
    }
    write_left_words(text, &scene.network)
}
