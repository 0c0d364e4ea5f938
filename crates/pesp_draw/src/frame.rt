//! What stands round the rows.

use crate::columns::Columns;
use crate::front::PictureFront;
use pesp_report::Line;
use std::alloc::AllocError;

/// The classes of rectangles, lines and texts, and the hatching of slack that costs nothing.
const STYLE: &str =
    "<style>.least{fill:#4c78a8}.slack{fill:#f58518}.costless{fill:url(#hatching)}.back{fill:#b8cbe0}.room,.arrow{fill:#333}.mark{stroke:#333;stroke-width:2}\
.grid{stroke:#ddd}.end{text-anchor:end}.middle{text-anchor:middle}.time,.label{fill:#666}.heading{font-weight:bold}</style>\
<defs><pattern id=\"hatching\" width=\"1\" height=\"0.25\" patternContentUnits=\"objectBoundingBox\">\
<rect width=\"1\" height=\"0.25\" fill=\"#faf3ea\"/><rect width=\"1\" height=\"0.09\" fill=\"#d9b98f\"/></pattern></defs>";

/// What the colours and marks mean.
const LEGEND: &str =
    "<g transform=\"translate(14 30)\"><rect class=\"least\" width=\"24\" height=\"12\"/><text x=\"30\" y=\"10\">least duration</text>\
<rect class=\"slack\" width=\"24\" height=\"12\" x=\"130\"/><text x=\"160\" y=\"10\">slack</text>\
<rect class=\"costless\" width=\"24\" height=\"12\" x=\"212\"/><text x=\"242\" y=\"10\">slack that costs nothing</text>\
<rect class=\"room\" width=\"24\" height=\"2\" x=\"396\" y=\"5\"/><path class=\"mark\" d=\"M420 0v12\"/><text x=\"428\" y=\"10\">up to the greatest duration</text>\
<path class=\"arrow\" d=\"M632 1l8 5l-8 5z\"/><text x=\"646\" y=\"10\">goes on from the end of the row</text></g>";

/// What stands at the beginning of a picture of a timetable of this cost.
pub fn front_of(period: u32, cost: u64) -> PictureFront<'static> {
    PictureFront {
        shown: "Timetable",
        period,
        cost,
        style: STYLE,
        legend: LEGEND,
    }
}

/// Writes the headings of the activities' columns.
pub fn write_headings(text: &mut String, columns: &Columns, y: u32) -> Result<(), AllocError> {
    let Columns {
        label,
        tail,
        head,
        ..
    } = *columns;
    let y = y.saturating_sub(6);
    write!(
        text,
        "<g class=\"heading\" transform=\"translate(0 {y})\"><text class=\"end\" x=\"{label}\">activity</text><text class=\"end\" x=\"{tail}\">from</text><text x=\"{head}\">to</text>"
    )?;
    let Columns {
        duration,
        slack,
        cost,
        ..
    } = *columns;
    writeln!(
        text,
        "<text class=\"end\" x=\"{duration}\">duration</text><text class=\"end\" x=\"{slack}\">slack</text><text class=\"end\" x=\"{cost}\">cost</text></g>"
    )
}

/// Writes the heading of the table of events.
pub fn write_event_heading(text: &mut String, y: u32) -> Result<(), AllocError> {
    let y = y.saturating_sub(8);
    writeln!(
        text,
        "<text class=\"heading\" x=\"14\" y=\"{y}\">Events by label, and their times</text>"
    )
}

/// How many activities aren't drawn: those that cost something with what they cost together, and those that cost nothing.
#[derive(Clone, Copy)]
struct LeftOut {
    costly: u32,
    cost: u64,
    costless: u32,
}

/// Counts the activities behind the first ones.
fn count_behind(lines: &[Line], first: usize) -> LeftOut {
    let mut left = LeftOut {
        costly: 0,
        cost: 0,
        costless: 0,
    };
    for line in lines.iter().skip(first) {
        if line.weighted == 0 {
            left.costless = left.costless.saturating_add(1);
        } else {
            left.costly = left.costly.saturating_add(1);
            left.cost = left.cost.saturating_add(line.weighted);
        }
    }
    left
}

/// Writes how many activities aren't drawn, and what they cost together, below a height.
pub fn write_activities_left(
    text: &mut String,
    lines: &[Line],
    drawn: usize,
    end: u32,
) -> Result<(), AllocError> {
    let LeftOut {
        costly,
        cost,
        costless,
    } = count_behind(lines, drawn);
    let mut y = end.saturating_add(18);
    if costly > 0 {
        writeln!(
            text,
            "<text x=\"14\" y=\"{y}\">Activities not drawn: {costly}, with a cost of {cost} together</text>"
        )?;
        y = y.saturating_add(18);
    }
    if costless > 0 {
        writeln!(
            text,
            "<text x=\"14\" y=\"{y}\">Activities of cost 0, not drawn: {costless}</text>"
        )?;
    }
    Ok(())
}
