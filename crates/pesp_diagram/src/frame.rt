//! What stands round the trains.

use crate::heights::Heights;
use crate::layout::Layout;
use crate::places::{Across, PLOT};
use pesp_draw::{Escaped, PictureFront, Shortened, open_svg, step_for, write_front};
use pesp_railway::{Line, RailwayNetwork};
use std::alloc::AllocError;

/// The fewest pixels for the names of stations.
const LEAST_NAMES: u32 = 64;

/// How many pixels stand round the picture.
const MARGIN: u32 = 14;

/// How many pixels the title and what the lines and marks mean take.
pub const FRONT: u32 = 64;

/// How many pixels the name of a line and the scale take above its plot.
const HEADING: u32 = 44;

/// How many pixels lie below a plot.
const BELOW: u32 = 30;

/// The classes of lines, marks and texts.
const STYLE: &str =
    "<style>.run{stroke:#1f5a94;stroke-width:2}.back{stroke:#8a3b00;stroke-width:2;stroke-dasharray:9 3}.stand{stroke:#f58518;stroke-width:4}.wait{stroke:#a02c2c;stroke-dasharray:2 3}.apart{stroke:#777;stroke-width:3;stroke-dasharray:1 4}.run,.back,.stand,.wait,.apart{fill:none}.minute{font-size:9px;paint-order:stroke;stroke:#fff;stroke-width:2px}.leave{fill:#fff;stroke:#a02c2c;stroke-width:2}\
.join{fill:#a02c2c}.grid{stroke:#ddd}.station{stroke:#bbb}.end{text-anchor:end}.middle{text-anchor:middle}.time{fill:#666}.heading{font-weight:bold}</style>";

/// What the lines and marks mean.
const LEGEND: &str =
    "<g transform=\"translate(14 36)\"><path class=\"run\" d=\"M0 6h24\"/><text x=\"30\" y=\"10\">train out</text>\
<path class=\"back\" d=\"M104 6h24\"/><text x=\"134\" y=\"10\">train back</text>\
<path class=\"stand\" d=\"M216 6h24\"/><text x=\"246\" y=\"10\">train at a station</text>\
<path class=\"wait\" d=\"M366 6h24\"/><text x=\"396\" y=\"10\">change on the line</text>\
<circle class=\"leave\" cx=\"528\" cy=\"6\" r=\"3\"/><text x=\"538\" y=\"10\">change to another line</text>\
<circle class=\"join\" cx=\"696\" cy=\"6\" r=\"4\"/><text x=\"706\" y=\"10\">change from another line</text></g>";

/// What the lines of a corridor mean.
const CORRIDOR: &str =
    "<g transform=\"translate(14 36)\"><path class=\"run\" d=\"M0 6h24\"/><text x=\"30\" y=\"10\">train out</text>\
<path class=\"back\" d=\"M104 6h24\"/><text x=\"134\" y=\"10\">train back</text>\
<path class=\"stand\" d=\"M216 6h24\"/><text x=\"246\" y=\"10\">train at a station</text>\
<path class=\"wait\" d=\"M366 6h24\"/><text x=\"396\" y=\"10\">change</text>\
<path class=\"apart\" d=\"M458 6h24\"/><text x=\"488\" y=\"10\">kept apart</text></g>";

/// How large a diagram is, in pixels: where its plot begins from the left, and how wide it is with what stands beside it.
#[derive(Clone, Copy)]
pub struct PlotColumn {
    left: u32,
    pub width: u32,
}

/// How many pixels a character takes at most.
fn width_of(sign: char) -> u32 {
    match sign {
        'm' | 'w' | 'M' | 'W' | '@' | '%' => 12,
        'A'..='Z' => 10,
        ' '..='~' => 8,
        _ => 12,
    }
}

/// How many pixels the name of a station takes at most.
fn width_of_name(name: &str) -> u32 {
    let shown = Shortened(name).characters() as usize;
    let mut width: u32 = 0;
    for sign in name.chars().take(shown) {
        width = width.saturating_add(width_of(sign));
    }
    width
}

/// The most pixels of a line's stations.
fn widest_of(line: &Line<'_>) -> u32 {
    let mut most: u32 = 0;
    for station in &line.stations {
        most = most.max(width_of_name(station));
    }
    most
}

/// How many pixels a line takes with its heading.
pub fn line_height(heights: &Heights) -> u32 {
    heights.plot().saturating_add(HEADING + BELOW)
}

impl PlotColumn {
    /// The column of diagrams of these lines.
    pub fn of(lines: &[Line<'_>]) -> PlotColumn {
        let mut widest = LEAST_NAMES;
        for line in lines {
            widest = widest.max(widest_of(line));
        }
        let left = widest.saturating_add(2 * MARGIN);
        PlotColumn {
            left,
            width: left.saturating_add(PLOT + 3 * MARGIN),
        }
    }
}

/// Writes the picture's beginning: its size, its style, its title and what the lines and marks mean.
pub fn write_diagrams_front(
    text: &mut String,
    column: PlotColumn,
    layout: &Layout,
    network: &RailwayNetwork<'_>,
    period: u32,
    cost: u64,
) -> Result<(), AllocError> {
    let width = column.width.saturating_mul(layout.columns);
    let height = layout.end.saturating_add(BELOW);
    let front = PictureFront {
        shown: "Trains",
        period,
        cost,
        style: STYLE,
        legend: if network.is_corridor {
            CORRIDOR
        } else {
            LEGEND
        },
    };
    write_front(text, width, height, front)
}

/// Writes a picture of what the lines and marks mean, with their style.
pub fn write_legend(text: &mut String) -> Result<(), AllocError> {
    text.push_str("<div class=\"picture\" aria-hidden=\"true\">")?;
    open_svg(text, 880, FRONT)?;
    text.push_str(STYLE)?;
    text.push_str(LEGEND)?;
    text.push_str("</svg></div>\n")
}

/// Opens the picture of a line.
pub fn open_picture(
    text: &mut String,
    column: PlotColumn,
    line: &Line<'_>,
    heights: &Heights,
) -> Result<(), AllocError> {
    let name = Escaped(line.name);
    write!(
        text,
        "<div class=\"picture\" role=\"img\" aria-label=\"Time-distance diagram of line {name}\">"
    )?;
    open_svg(text, column.width, line_height(heights))
}

/// Which events stand in no diagram.
fn words_for_left(network: &RailwayNetwork<'_>) -> &'static str {
    if network.is_corridor {
        "Events at no station of these"
    } else {
        "Events without a line and a station"
    }
}

/// Writes how many events stand in no diagram, below a height.
pub fn write_left(
    text: &mut String,
    network: &RailwayNetwork<'_>,
    y: u32,
) -> Result<(), AllocError> {
    let (left, which) = (network.left, words_for_left(network));
    if left == 0 {
        return Ok(());
    }
    writeln!(
        text,
        "<text x=\"14\" y=\"{y}\">{which}, not drawn: {left}</text>"
    )
}

/// Writes how many events stand in no diagram, as a sentence of HTML.
pub fn write_left_words(text: &mut String, network: &RailwayNetwork<'_>) -> Result<(), AllocError> {
    let (left, which) = (network.left, words_for_left(network));
    if left == 0 {
        return Ok(());
    }
    writeln!(text, "<p>{which}, not drawn: {left}</p>")
}

/// Writes the whole name of a station whose name is cut, for where the pointer rests on it.
fn write_whole_name(text: &mut String, station: &str) -> Result<(), AllocError> {
    if !Shortened(station).is_cut() {
        return Ok(());
    }
    let name = Escaped(station);
    write!(text, "<title>{name}</title>")
}

/// Writes the name of a line and its stations.
pub fn write_stations(
    text: &mut String,
    column: PlotColumn,
    line: &Line<'_>,
    heights: &Heights,
    is_corridor: bool,
) -> Result<(), AllocError> {
    let word = if is_corridor { "Along" } else { "Line" };
    let name = Escaped(line.name);
    writeln!(
        text,
        "<text class=\"heading\" x=\"14\" y=\"16\">{word} {name}</text>"
    )?;
    let left = column.left;
    let right = left.saturating_add(PLOT);
    let before = left.saturating_sub(8);
    for (count, station) in line.stations.iter().enumerate() {
        let at = heights.at(count).saturating_add(HEADING);
        let below = at.saturating_add(4);
        let name = Shortened(station);
        write!(
            text,
            "<line class=\"station\" x1=\"{left}\" y1=\"{at}\" x2=\"{right}\" y2=\"{at}\"/><text class=\"end\" x=\"{before}\" y=\"{below}\">{name}"
        )?;
        write_whole_name(text, station)?;
        text.push_str("</text>\n")?;
    }
    Ok(())
}

/// Opens the plot of a line: a part of the picture in which what lies before 0 or behind the period's end isn't seen.
pub fn open_plot(
    text: &mut String,
    column: PlotColumn,
    heights: &Heights,
) -> Result<(), AllocError> {
    let left = column.left;
    let height = heights.plot();
    writeln!(
        text,
        "<svg x=\"{left}\" y=\"{HEADING}\" width=\"{PLOT}\" height=\"{height}\">"
    )
}

/// Writes a line at a time of the period, with the time above.
fn write_time(text: &mut String, period: u32, time: u32, height: u32) -> Result<(), AllocError> {
    let x = Across::of(period, i64::from(time));
    write!(
        text,
        "<line class=\"grid\" x1=\"{x}\" y1=\"0\" x2=\"{x}\" y2=\"{height}\"/><text class=\"time middle\" x=\"{x}\" y=\"-6\">{time}</text>"
    )
}

/// Whether a time stands far enough before the period's end that both can be labelled.
fn has_room(period: u32, step: u32, time: u32) -> bool {
    period.saturating_sub(time) >= step.min(period / 16 + 1)
}

/// Writes a line for each step of the period and for its end, with its time above.
pub fn write_scale(
    text: &mut String,
    column: PlotColumn,
    heights: &Heights,
    period: u32,
) -> Result<(), AllocError> {
    let left = column.left;
    let height = heights.plot();
    let step = step_for(period);
    write!(text, "<g transform=\"translate({left} {HEADING})\">")?;
    for place in 0..18_u32 {
        let time = step.saturating_mul(place);
        if time < period && has_room(period, step, time) {
            write_time(text, period, time, height)?;
        }
    }
    write_time(text, period, period, height)?;
    writeln!(text, "</g>")
}
