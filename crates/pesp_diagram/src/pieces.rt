//! What is drawn of an activity.

use crate::heights::Heights;
use crate::marks::{MarkCounts, Spot};
use crate::places::Across;
use crate::scene::Scene;
use pesp_draw::Escaped;
use pesp_problem::{Instance, Row};
use pesp_railway::{ActivityKind, RailwayNetwork, StationPlace, duration_of, kind_on};
use std::alloc::AllocError;

/// How often a stretch of time is drawn at most: once for each period into which it reaches.
const MOST_PERIODS: i64 = 20;

/// How much lower a train back stands at a station than one out, in pixels.
const LOWER: u32 = 4;

/// An activity in the diagram of a line, from its time at its tail on.
#[derive(Clone, Copy)]
pub struct DrawnPiece<'a> {
    kind: ActivityKind,
    row: &'a Row,
    tail: StationPlace,
    head: StationPlace,
    time: i64,
    duration: i64,
}

impl<'a> DrawnPiece<'a> {
    /// What is drawn of an activity in the diagram of a line.
    pub fn of(scene: &Scene<'_, '_, '_>, line: usize, row: &'a Row) -> Option<DrawnPiece<'a>> {
        let (instance, times, network) = (scene.instance, scene.times, &scene.network);
        let tail = network.at(row.tail)?;
        let head = network.at(row.head)?;
        let kind = kind_on(network, line, instance.period(), row, tail, head)?;
        let time = i64::from(times.get(row.tail as usize).copied()?);
        Some(DrawnPiece {
            kind,
            row,
            tail,
            head,
            time,
            duration: duration_of(instance, times, row)?,
        })
    }

    /// When it ends, as a time of the period.
    fn end(&self, period: u32) -> i64 {
        let end = self.time.saturating_add(self.duration);
        end.rem_euclid(i64::from(period.max(1)))
    }

    /// Whether it is drawn as a mark.
    fn is_mark(&self) -> bool {
        self.kind == ActivityKind::Leave || self.kind == ActivityKind::Join
    }
}

/// Writes all that is known of an activity.
fn write_title(
    text: &mut String,
    network: &RailwayNetwork<'_>,
    instance: &Instance,
    piece: &DrawnPiece<'_>,
) -> Result<(), AllocError> {
    let Row {
        label,
        lower,
        upper,
        weight,
        ..
    } = *piece.row;
    let (first, from) = (
        Escaped(network.line_of_event(piece.row.tail)),
        Escaped(network.station(piece.tail)),
    );
    let (second, to) = (
        Escaped(network.line_of_event(piece.row.head)),
        Escaped(network.station(piece.head)),
    );
    let DrawnPiece { time, duration, .. } = *piece;
    let end = piece.end(instance.period());
    write!(
        text,
        "<title>Activity {label}: {first} {from} at {time}, {second} {to} at {end}; lasts {duration} of {lower} to {upper}, weight {weight}</title>"
    )
}

/// Writes a stretch of time between two heights, once for each period into which it reaches.
fn write_stretch(
    text: &mut String,
    period: u32,
    from: i64,
    to: i64,
    first: u32,
    second: u32,
) -> Result<(), AllocError> {
    let length = i64::from(period.max(1));
    let begin = from.min(to).div_euclid(length);
    let end = from
        .max(to)
        .div_euclid(length)
        .min(begin.saturating_add(MOST_PERIODS));
    for count in begin..end.saturating_add(1) {
        let back = count.saturating_mul(length);
        let left = Across::of(period, from.saturating_sub(back));
        let right = Across::of(period, to.saturating_sub(back));
        write!(text, "M{left} {first}L{right} {second}")?;
    }
    Ok(())
}

/// How far below its station a piece stands, in pixels: 0 but for a train that goes back and stands there.
fn lowered(scene: &Scene<'_, '_, '_>, piece: &DrawnPiece<'_>) -> u32 {
    if piece.kind == ActivityKind::Stand && scene.backs.has(piece.row) {
        LOWER
    } else {
        0
    }
}

/// From when to when a piece is drawn: what keeps two trains apart between those that are nearer to each other.
fn stretch_of(period: u32, piece: &DrawnPiece<'_>) -> (i64, i64) {
    let length = i64::from(period.max(1));
    let to = piece.time.saturating_add(piece.duration);
    let rest = piece.duration.saturating_neg().rem_euclid(length);
    if piece.kind == ActivityKind::Apart && rest < length.saturating_sub(rest) {
        (to, to.saturating_add(rest))
    } else {
        (piece.time, to)
    }
}

/// Writes a train between two stations, or at one of them.
fn write_train(
    text: &mut String,
    scene: &Scene<'_, '_, '_>,
    heights: &Heights,
    piece: &DrawnPiece<'_>,
) -> Result<(), AllocError> {
    let class = match piece.kind {
        ActivityKind::Run if piece.tail.station > piece.head.station => "back",
        ActivityKind::Run => "run",
        ActivityKind::Wait => "wait",
        ActivityKind::Apart => "apart",
        _ => "stand",
    };
    let period = scene.instance.period();
    let (from, to) = stretch_of(period, piece);
    let lower = lowered(scene, piece);
    let first = heights.at(piece.tail.station).saturating_add(lower);
    let second = heights.at(piece.head.station).saturating_add(lower);
    write!(text, "<path class=\"{class}\" d=\"")?;
    write_stretch(text, period, from, to, first, second)?;
    text.push_str("\"/>")
}

/// Writes when a train leaves a station, with its line, and when it comes to the next one: beside its ends, within the period.
fn write_minutes(
    text: &mut String,
    network: &RailwayNetwork<'_>,
    heights: &Heights,
    period: u32,
    piece: &DrawnPiece<'_>,
) -> Result<(), AllocError> {
    let end = piece.end(period);
    let (x, to) = (Across::of(period, piece.time), Across::of(period, end));
    let is_back = piece.tail.station > piece.head.station;
    let (behind, before) = if is_back { (0, 17) } else { (17, 0) };
    let y = heights
        .at(piece.tail.station)
        .saturating_add(behind)
        .saturating_sub(5);
    let below = heights
        .at(piece.head.station)
        .saturating_add(before)
        .saturating_sub(5);
    let time = piece.time;
    let line = Escaped(network.line_of_event(piece.row.tail));
    write!(
        text,
        "<text class=\"minute\" x=\"{x}\" y=\"{y}\">{time} ({line})</text><text class=\"minute end\" x=\"{to}\" y=\"{below}\">{end}</text>\n"
    )
}

/// Writes a mark where passengers leave the line or join it.
fn write_mark(
    text: &mut String,
    heights: &Heights,
    period: u32,
    marks: &mut MarkCounts,
    piece: &DrawnPiece<'_>,
) -> Result<(), AllocError> {
    let end = piece.end(period);
    let (class, radius, time, place) = if piece.kind == ActivityKind::Leave {
        ("leave", 3_u32, piece.time, piece.tail)
    } else {
        ("join", 4_u32, end, piece.head)
    };
    let Spot { x, y } = marks.next_spot(heights, place.station, Across::of(period, time));
    write!(
        text,
        "<circle class=\"{class}\" cx=\"{x}\" cy=\"{y}\" r=\"{radius}\"/>"
    )
}

/// Writes what is drawn of an activity, in a diagram with these heights.
pub fn write_piece(
    text: &mut String,
    scene: &Scene<'_, '_, '_>,
    heights: &Heights,
    marks: &mut MarkCounts,
    piece: &DrawnPiece<'_>,
) -> Result<(), AllocError> {
    let (instance, network) = (scene.instance, &scene.network);
    text.push_str("<g>")?;
    write_title(text, network, instance, piece)?;
    if piece.is_mark() {
        write_mark(text, heights, instance.period(), marks, piece)?;
    } else {
        write_train(text, scene, heights, piece)?;
    }
    text.push_str("</g>\n")?;
    if network.is_corridor && piece.kind == ActivityKind::Run {
        write_minutes(text, network, heights, instance.period(), piece)?;
    }
    Ok(())
}
