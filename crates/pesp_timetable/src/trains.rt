//! The timetable by line and station.

use crate::entry::Entry;
use crate::stops::{Stop, open_way, write_stop};
use pesp_draw::{Escaped, Labels};
use pesp_railway::Told;
use std::alloc::AllocError;

/// Where the writing of the trains stands: the way that is open, its line, and the stop that isn't written yet.
#[derive(Clone, Copy)]
struct OpenWay<'a> {
    way: u32,
    line: &'a str,
    stop: Option<Stop<'a>>,
}

/// Writes the stop that isn't written yet, if there is one.
fn write_last(text: &mut String, open: OpenWay<'_>) -> Result<(), AllocError> {
    match open.stop {
        Some(stop) => write_stop(text, stop),
        None => Ok(()),
    }
}

/// Closes the table that is open, if one is.
fn close_way(text: &mut String, open: OpenWay<'_>) -> Result<(), AllocError> {
    if open.way == 0 {
        return Ok(());
    }
    write_last(text, open)?;
    text.push_str("</tbody></table></div>\n")
}

/// Writes the heading of a line, where it isn't the one that is open.
fn write_heading(text: &mut String, open: OpenWay<'_>, line: &str) -> Result<(), AllocError> {
    if open.line == line {
        return Ok(());
    }
    let name = Escaped(line);
    writeln!(text, "<h3>Line {name}</h3>")
}

/// Writes an event that stands on a way.
fn write_event<'a>(
    text: &mut String,
    open: OpenWay<'a>,
    told: &'a Told,
    entry: &'a Entry,
) -> Result<OpenWay<'a>, AllocError> {
    let alone = Some(Stop::of(told, entry));
    if open.way != entry.way {
        close_way(text, open)?;
        write_heading(text, open, told.line.as_str())?;
        open_way(text, told, entry.way)?;
        return Ok(OpenWay {
            way: entry.way,
            line: told.line.as_str(),
            stop: alone,
        });
    }
    let joined = match open.stop {
        Some(stop) => stop.with(told, entry),
        None => None,
    };
    if joined.is_some() {
        return Ok(OpenWay {
            stop: joined,
            ..open
        });
    }
    write_last(text, open)?;
    Ok(OpenWay {
        stop: alone,
        ..open
    })
}

/// What is told of an event that has a line and a station.
fn on_way<'a>(tolds: &'a [Told], entry: &Entry) -> Option<&'a Told> {
    let told = tolds.get(entry.event as usize)?;
    if told.line.is_empty() || told.station.is_empty() {
        return None;
    }
    Some(told)
}

/// Writes the trains of all lines, one table for each.
fn write_ways<'a>(
    text: &mut String,
    tolds: &'a [Told],
    entries: &'a [Entry],
) -> Result<(), AllocError> {
    let mut open = OpenWay {
        way: 0,
        line: "",
        stop: None,
    };
    for entry in entries {
        if let Some(told) = on_way(tolds, entry) {
            open = write_event(text, open, told, entry)?;
        }
    }
    close_way(text, open)
}

/// Writes an event that has no line or no station.
fn write_other(text: &mut String, labels: Labels<'_>, entry: &Entry) -> Result<(), AllocError> {
    let called = labels.named(entry.label);
    let time = entry.time;
    writeln!(
        text,
        "<tr><th scope=\"row\">{called}</th><td class=\"n\">{time}"
    )
}

/// Writes the events that have no line or no station.
fn write_others(
    text: &mut String,
    labels: Labels<'_>,
    tolds: &[Told],
    entries: &[Entry],
) -> Result<(), AllocError> {
    let mut count: u32 = 0;
    for entry in entries {
        if on_way(tolds, entry).is_some() {
            continue;
        }
        if count == 0 {
            text.push_str(
                "<table><caption>Events without a line and a station</caption><thead><tr><th scope=\"col\">Event<th scope=\"col\" class=\"n\">Time</tr></thead><tbody>\n",
            )?;
        }
        count = count.saturating_add(1);
        write_other(text, labels, entry)?;
    }
    if count == 0 {
        return Ok(());
    }
    text.push_str("</tbody></table>\n")
}

/// Writes the timetable: for each train a table of its stops, in the order of its way, and the events that belong to none.
pub fn write_trains<'a>(
    text: &mut String,
    labels: Labels<'_>,
    tolds: &'a [Told],
    entries: &'a [Entry],
) -> Result<(), AllocError> {
    text.push_str(
        "<section id=\"trains\"><h2>Trains</h2>\n<p>Beside each time within the period stands the time as hours and minutes, which goes on along the way. Trains out go in the order in which the names first name the stations, and trains back against it.</p>\n<div class=\"ways\">\n",
    )?;
    write_ways(text, tolds, entries)?;
    write_others(text, labels, tolds, entries)?;
    text.push_str("</div></section>\n")
}
