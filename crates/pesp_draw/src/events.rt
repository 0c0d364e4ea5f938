//! The table of events.

use crate::columns::{Columns, TIME};
use crate::labels::Labels;
use crate::rows::ROW;
use pesp_problem::Instance;
use std::alloc::{AllocError, Global};

/// An event's label and its time.
#[derive(Clone, Copy)]
pub struct EventTime {
    label: i64,
    time: u32,
}

/// The events with their times, by rising labels. The error is a growth that was refused.
pub fn events_by_label(
    alloc: Global,
    instance: &Instance,
    times: &[u32],
) -> Result<Vec<EventTime>, AllocError> {
    let mut events = Vec::new(alloc);
    for (label, time) in instance.events().iter().zip(times) {
        events.push(EventTime {
            label: *label,
            time: *time,
        })?;
    }
    events.sort_unstable_by_key(|event| event.label);
    Ok(events)
}

/// How a table of events is laid out: how many stand below each other, and the pixels from one column of them to the next.
#[derive(Clone, Copy)]
pub struct EventTable {
    pub rows: u32,
    width: u32,
}

impl EventTable {
    /// The table of so many events, as wide as the picture.
    pub fn of(columns: &Columns, events: usize) -> EventTable {
        let width = columns.event.saturating_add(TIME);
        let across = columns.edge.checked_div(width).unwrap_or(1).max(1);
        let events = u32::try_from(events).unwrap_or(u32::MAX);
        let rows = events
            .saturating_add(across.saturating_sub(1))
            .checked_div(across)
            .unwrap_or(events);
        EventTable { rows, width }
    }
}

/// Writes an event's label and its time, from a place on.
fn write_event(
    text: &mut String,
    columns: &Columns,
    labels: Labels<'_>,
    event: &EventTime,
    x: u32,
    y: u32,
) -> Result<(), AllocError> {
    let EventTime { label, time } = *event;
    let called = labels.called(label);
    let first = x.saturating_add(columns.event);
    let second = first.saturating_add(TIME);
    writeln!(
        text,
        "<text class=\"end label\" x=\"{first}\" y=\"{y}\">{called}</text><text class=\"end\" x=\"{second}\" y=\"{y}\">{time}</text>"
    )
}

/// Writes these events below each other, column by column, from a height on.
pub fn write_events(
    text: &mut String,
    columns: &Columns,
    labels: Labels<'_>,
    table: &EventTable,
    events: &[EventTime],
    from: u32,
) -> Result<(), AllocError> {
    let mut row: u32 = 0;
    let mut x: u32 = 0;
    for event in events {
        let y = from
            .saturating_add(row.saturating_mul(ROW))
            .saturating_add(10);
        write_event(text, columns, labels, event, x, y)?;
        row = row.saturating_add(1);
        if row >= table.rows {
            row = 0;
            x = x.saturating_add(table.width);
        }
    }
    Ok(())
}
