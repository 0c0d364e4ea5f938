//! The rows of a picture, and where they stand.

use crate::activities::{DrawnActivity, write_activity};
use crate::columns::Columns;
use crate::labels::Labels;
use pesp_problem::Instance;
use pesp_report::Line;
use std::alloc::AllocError;

/// How many pixels a row is high.
pub const ROW: u32 = 18;

/// Where the rows of activities begin and end, where those of events begin, and the picture's end, in pixels from the top.
#[derive(Clone, Copy)]
pub struct RowHeights {
    pub activities: u32,
    pub activities_end: u32,
    pub events: u32,
    pub bottom: u32,
}

impl RowHeights {
    /// The heights of so many rows.
    pub fn of(activities: usize, events: u32) -> RowHeights {
        let first = 84;
        let first_end = below(first, u32::try_from(activities).unwrap_or(u32::MAX));
        let second = first_end.saturating_add(84);
        RowHeights {
            activities: first,
            activities_end: first_end,
            events: second,
            bottom: below(second, events).saturating_add(30),
        }
    }
}

/// The height that is so many rows below another.
fn below(from: u32, rows: u32) -> u32 {
    from.saturating_add(rows.saturating_mul(ROW))
}

/// Writes the rows of these activities, from a height on.
pub fn write_activities(
    text: &mut String,
    columns: &Columns,
    labels: Labels<'_>,
    instance: &Instance,
    times: &[u32],
    lines: &[Line],
    from: u32,
) -> Result<(), AllocError> {
    let period = instance.period();
    let mut y = from;
    for line in lines {
        let activity = DrawnActivity::of(instance, times, line);
        write_activity(text, columns, labels, period, &activity, y)?;
        y = y.saturating_add(ROW);
    }
    Ok(())
}
