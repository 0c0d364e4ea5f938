//! The text of an instance, with activities in front that hold events.

use crate::fixed_events::FixedEvent;
use pesp_problem::{Instance, Row};
use std::alloc::{AllocError, Global};

/// The label of an event.
fn label_at(instance: &Instance, event: u32) -> i64 {
    instance.events().get(event as usize).copied().unwrap_or(0)
}

/// Writes the activities that hold events at times of a clock.
fn write_held(text: &mut String, clock: i64, held: &[FixedEvent]) -> Result<(), AllocError> {
    for it in held {
        let FixedEvent { event, time } = *it;
        writeln!(text, "0;{clock};{event};{time};{time};0")?;
    }
    Ok(())
}

/// Writes an activity.
fn write_row(text: &mut String, instance: &Instance, row: &Row) -> Result<(), AllocError> {
    let (tail, head) = (label_at(instance, row.tail), label_at(instance, row.head));
    let Row {
        label,
        lower,
        upper,
        weight,
        ..
    } = *row;
    writeln!(text, "{label};{tail};{head};{lower};{upper};{weight}")
}

/// Writes the activities of an instance.
fn write_rows(text: &mut String, instance: &Instance) -> Result<(), AllocError> {
    for row in instance.rows() {
        write_row(text, instance, row)?;
    }
    Ok(())
}

/// The text of an instance, with activities in front that hold events at times of a clock, and a heading.
pub fn text_with(
    alloc: Global,
    instance: &Instance,
    clock: i64,
    held: &[FixedEvent],
) -> Result<String, AllocError> {
    let mut text = String::from_str(alloc, "label;tail;head;lower;upper;weight\n")?;
    write_held(&mut text, clock, held)?;
    write_rows(&mut text, instance)?;
    Ok(text)
}
