//! The rows of activities.

ghost use Rattle.std.specs.Prelude.{◌≤◌};

use crate::columns::{Columns, PLOT};
use crate::labels::Labels;
use crate::stretch::{Shade, Stretch, time_of};
use pesp_problem::Instance;
use pesp_report::Line;
use std::alloc::AllocError;

/// An activity as it is drawn: its line of the report, its greatest duration, whether every slack is allowed to it, and the
/// time of its tail.
#[derive(Clone, Copy)]
pub struct DrawnActivity<'a> {
    line: &'a Line,
    greatest: i64,
    free: bool,
    tail_time: u32,
}

impl<'a> DrawnActivity<'a> {
    /// The activity of a line.
    pub fn of(instance: &Instance, times: &[u32], line: &'a Line) -> DrawnActivity<'a> {
        let place = (line.row as usize).saturating_sub(1);
        match instance.rows().get(place) {
            Some(row) => {
                let allowed = row.upper.saturating_sub(row.lower);
                DrawnActivity {
                    line,
                    greatest: row.upper,
                    free: allowed.saturating_add(1) >= i64::from(instance.period()),
                    tail_time: times.get(row.tail as usize).copied().unwrap_or(0),
                }
            }
            None => DrawnActivity {
                line,
                greatest: line.duration,
                free: true,
                tail_time: 0,
            },
        }
    }

    /// The least duration.
    fn least(&self) -> i64 {
        self.line
            .duration
            .saturating_sub(i64::from(self.line.slack))
    }

    /// The shade of its least duration.
    fn least_shade(&self) -> Shade {
        if self.least() < 0 {
            Shade::Back
        } else {
            Shade::Least
        }
    }

    /// The shade of its slack.
    fn slack_shade(&self) -> Shade {
        if self.line.weight == 0 {
            Shade::Costless
        } else {
            Shade::Slack
        }
    }

    /// What its slack may still grow by; 0 where every slack is allowed.
    fn room(&self) -> i64 {
        if self.free {
            0
        } else {
            self.greatest.saturating_sub(self.line.duration)
        }
    }

    /// Whether its bars go on from 0 behind the period's end.
    fn goes_on(&self, period: u32) -> bool {
        let tail = i64::from(self.tail_time);
        let begin = tail.saturating_add(self.least().min(0));
        let end = tail.saturating_add(self.line.duration.max(0));
        (begin < 0 && end > 0) || end > i64::from(period)
    }
}

/// Writes the cells of a row: where it comes from and goes to, and its duration, slack and cost.
fn write_cells(
    text: &mut String,
    columns: &Columns,
    labels: Labels<'_>,
    line: &Line,
) -> Result<(), AllocError> {
    let Line {
        label,
        tail,
        head,
        ..
    } = *line;
    let (tail, head) = (labels.called(tail), labels.called(head));
    let Columns {
        label: first,
        tail: second,
        head: third,
        ..
    } = *columns;
    write!(
        text,
        "<text class=\"end\" x=\"{first}\" y=\"10\">{label}</text><text class=\"end\" x=\"{second}\" y=\"10\">{tail} →</text><text x=\"{third}\" y=\"10\">{head}</text>"
    )?;
    let Line {
        duration,
        slack,
        weighted,
        ..
    } = *line;
    let Columns {
        duration: fourth,
        slack: fifth,
        cost: sixth,
        ..
    } = *columns;
    write!(
        text,
        "<text class=\"end\" x=\"{fourth}\" y=\"10\">{duration}</text><text class=\"end\" x=\"{fifth}\" y=\"10\">{slack}</text><text class=\"end\" x=\"{sixth}\" y=\"10\">{weighted}</text>"
    )
}

/// Writes the bars of a row: from its tail's time over its least duration, from there over its slack, and a thin one on to its
/// greatest duration, where not every slack is allowed.
fn write_bars(
    text: &mut String,
    columns: &Columns,
    period: u32,
    activity: &DrawnActivity<'_>,
) -> Result<(), AllocError>
    requires { 1 ≤ period }
{
    let left = columns.left;
    let from = i64::from(activity.tail_time);
    let least = activity.least();
    let first = Stretch::over(period, activity.least_shade(), from, least);
    let slack = i64::from(activity.line.slack);
    let begin = from.saturating_add(least);
    let second = Stretch::over(period, activity.slack_shade(), begin, slack);
    let end = from.saturating_add(activity.line.duration);
    let third = Stretch::over(period, Shade::Room, end, activity.room());
    write!(
        text,
        "<svg x=\"{left}\" width=\"{PLOT}\" height=\"12\" viewBox=\"0 0 {period} 12\" preserveAspectRatio=\"none\">{first}{second}{third}</svg>"
    )
}

/// Writes an arrow where the bars go on from 0, and a mark at the greatest duration, where not every slack is allowed. Where
/// that ends with the period the mark stands there and not at 0.
fn write_marks(
    text: &mut String,
    columns: &Columns,
    period: u32,
    activity: &DrawnActivity<'_>,
) -> Result<(), AllocError>
    requires { 1 ≤ period }
{
    if activity.goes_on(period) {
        let x = columns.left.saturating_sub(10);
        write!(text, "<path class=\"arrow\" d=\"M{x} 1l8 5l-8 5z\"/>")?;
    }
    if activity.free {
        return Ok(());
    }
    let end = i64::from(activity.tail_time).saturating_add(activity.greatest);
    let last = time_of(period, end.saturating_sub(1));
    let x = columns.at(period, last.saturating_add(1));
    write!(text, "<path class=\"mark\" d=\"M{x} 0v12\"/>")
}

/// Writes the row of an activity, with all that is known of it as a title.
pub fn write_activity(
    text: &mut String,
    columns: &Columns,
    labels: Labels<'_>,
    period: u32,
    activity: &DrawnActivity<'_>,
    y: u32,
) -> Result<(), AllocError>
    requires { 1 ≤ period }
{
    let Line {
        row,
        label,
        tail,
        head,
        duration,
        slack,
        weight,
        weighted,
    } = *activity.line;
    let (tail, head) = (labels.whole(tail), labels.whole(head));
    let least = activity.least();
    let DrawnActivity {
        greatest,
        tail_time,
        ..
    } = *activity;
    write!(
        text,
        "<g transform=\"translate(0 {y})\"><title>Activity {label} (row {row}) from {tail} to {head}: begins at {tail_time}, lasts {duration} of {least} to {greatest} with slack {slack}; weight {weight}, cost {weighted}</title>"
    )?;
    write_cells(text, columns, labels, activity.line)?;
    write_bars(text, columns, period, activity)?;
    write_marks(text, columns, period, activity)?;
    writeln!(text, "</g>")
}
