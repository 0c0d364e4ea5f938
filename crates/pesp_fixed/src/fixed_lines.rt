//! Lines that keep their times.

use crate::fix_refusal::FixRefusal;
use crate::fixed_events::FixedEvent;
use pesp_problem::Instance;
use pesp_report::Names;

/// Whether names put an event on a line.
fn is_on(names: &Names, event: i64, line: &str) -> bool {
    match names.find(event) {
        Some(name) => name.line.as_str() == line,
        None => false,
    }
}

/// Adds the events of a line, each at its time.
fn add_line(
    held: &mut Vec<FixedEvent>,
    instance: &Instance,
    times: &[u32],
    names: &Names,
    line: &str,
    at: u32,
) -> Result<(), FixRefusal> {
    let before = held.len();
    for (event, time) in instance.events().iter().zip(times) {
        if is_on(names, *event, line) {
            held.push(FixedEvent {
                event: *event,
                time: *time,
            })?;
        }
    }
    if held.len() == before {
        return Err(FixRefusal::NoLine { at });
    }
    Ok(())
}

/// Adds the events of the lines between commas, each at its time.
pub fn add_lines(
    held: &mut Vec<FixedEvent>,
    instance: &Instance,
    times: &[u32],
    names: Option<&Names>,
    lines: &str,
) -> Result<(), FixRefusal> {
    if lines.trim().is_empty() {
        return Ok(());
    }
    let Some(names) = names else {
        return Err(FixRefusal::NoLine { at: 1 });
    };
    let mut at: u32 = 0;
    for line in lines.split(',') {
        at = at.saturating_add(1);
        add_line(held, instance, times, names, line.trim(), at)?;
    }
    Ok(())
}
