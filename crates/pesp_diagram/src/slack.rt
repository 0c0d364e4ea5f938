//! The slack of each activity.

use pesp_draw::Labels;
use pesp_report::Line;
use std::alloc::AllocError;

/// What is said of a column of numbers.
const NUMBERS: &str = " class=\"n\"";

/// What is said of the column by which the table is sorted at first.
const FALLING: &str = " class=\"n\" aria-sort=\"descending\"";

/// The columns, and what is said of each.
const COLUMNS: [(&str, &str); 8] = [
    ("Row", NUMBERS),
    ("Label", NUMBERS),
    ("From", ""),
    ("To", ""),
    ("Duration", NUMBERS),
    ("Slack", NUMBERS),
    ("Weight", NUMBERS),
    ("Cost", FALLING),
];

/// How many activities stand in each part of the table. A browser lays a part out when it comes into sight.
const PART: usize = 100;

/// Writes the headings of the columns, which sort where they are pressed.
fn write_headings(text: &mut String) -> Result<(), AllocError> {
    text.push_str("<thead><tr>")?;
    for (heading, said) in &COLUMNS {
        write!(
            text,
            "<th scope=\"col\"{said}><span role=\"button\" tabindex=\"0\">{heading}</span></th>"
        )?;
    }
    text.push_str("</tr></thead>\n")
}

/// Writes an activity.
fn write_line(text: &mut String, labels: Labels<'_>, line: &Line) -> Result<(), AllocError> {
    let Line {
        row,
        label,
        duration,
        slack,
        weight,
        weighted,
        ..
    } = *line;
    let (tail, head) = (labels.named(line.tail), labels.named(line.head));
    writeln!(
        text,
        "<tr><th scope=\"row\" class=\"n\">{row}<td class=\"n\">{label}<td>{tail}<td>{head}<td class=\"n\">{duration}<td class=\"n\">{slack}<td class=\"n\">{weight}<td class=\"n\">{weighted}"
    )
}

/// Writes a part of the table.
fn write_part(text: &mut String, labels: Labels<'_>, lines: &[Line]) -> Result<(), AllocError> {
    text.push_str("<tbody>\n")?;
    for line in lines {
        write_line(text, labels, line)?;
    }
    text.push_str("</tbody>\n")
}

/// Writes the table of all activities with what sorts and searches it. The lines come with the dearest one first. The error is a
/// growth that was refused.
pub fn write_slack(
    text: &mut String,
    labels: Labels<'_>,
    lines: &[Line],
) -> Result<(), AllocError> {
    let count = lines.len();
    text.push_str("<section id=\"slack\"><h2>Slack by activity</h2>\n")?;
    text.push_str(
        "<p>The slack is the time beyond the least duration, and the cost is the weight times the slack. The dearest activity stands first.</p>\n",
    )?;
    writeln!(
        text,
        "<p class=\"tools\"><label>Search <input id=\"search\" type=\"search\"></label> <span id=\"count\" role=\"status\">{count} of {count} activities</span></p>"
    )?;
    text.push_str("<div class=\"all\"><table id=\"activities\"><caption>Activities</caption>\n")?;
    write_headings(text)?;
    for part in lines.chunks(PART) {
        write_part(text, labels, part)?;
    }
    text.push_str("</table></div></section>\n")
}

/// How many of these activities have no slack.
pub fn count_tight(lines: &[Line]) -> u32 {
    let mut count: u32 = 0;
    for line in lines {
        if line.slack == 0 {
            count = count.saturating_add(1);
        }
    }
    count
}
