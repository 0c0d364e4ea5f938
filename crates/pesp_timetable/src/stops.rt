//! The stops of a train, as rows of a table.

use crate::clock::Clock;
use crate::entry::Entry;
use pesp_draw::Escaped;
use pesp_railway::{Direction, Halt, Told};
use std::alloc::AllocError;
use std::fmt;

/// When a train comes or leaves: the time within the period, and behind it hours and minutes along the way; nothing where it
/// doesn't.
#[derive(Clone, Copy)]
struct At<'a>(Option<&'a Entry>);

impl fmt::Display for At<'_> {
    fn fmt<W: fmt::Write>(&self, f: &mut fmt::Formatter<W>) -> fmt::Result {
        match self.0 {
            Some(entry) => {
                let time = entry.time;
                let clock = Clock(entry.running);
                write!(f, "{time}<td class=\"n\">{clock}")
            }
            None => f.write_str("<td>"),
        }
    }
}

/// A stop at a station: the train comes, or leaves, or both.
#[derive(Clone, Copy)]
pub struct Stop<'a> {
    station: &'a str,
    arrival: Option<&'a Entry>,
    departure: Option<&'a Entry>,
    to: &'a str,
    from: &'a str,
}

impl<'a> Stop<'a> {
    /// The stop at which an event stands alone.
    pub fn of(told: &'a Told, entry: &'a Entry) -> Stop<'a> {
        let changes = told.changes.as_str();
        let station = told.station.as_str();
        if told.step.halt == Halt::Departure {
            Stop {
                station,
                arrival: None,
                departure: Some(entry),
                to: "",
                from: changes,
            }
        } else {
            Stop {
                station,
                arrival: Some(entry),
                departure: None,
                to: changes,
                from: "",
            }
        }
    }

    /// The stop with a departure behind its arrival, where an event is one at this station.
    pub fn with(self, told: &'a Told, entry: &'a Entry) -> Option<Stop<'a>> {
        let leaves = told.step.halt == Halt::Departure;
        if !leaves || self.departure.is_some() || told.station.as_str() != self.station {
            return None;
        }
        Some(Stop {
            departure: Some(entry),
            from: told.changes.as_str(),
            ..self
        })
    }
}

/// Writes the changes at a stop, those to other trains first.
fn write_changes(text: &mut String, stop: Stop<'_>) -> Result<(), AllocError> {
    let (to, from) = (Escaped(stop.to), Escaped(stop.from));
    let between = if stop.to.is_empty() || stop.from.is_empty() {
        ""
    } else {
        "<br>"
    };
    write!(text, "<td>{to}{between}{from}")
}

/// Writes a stop.
pub fn write_stop(text: &mut String, stop: Stop<'_>) -> Result<(), AllocError> {
    let station = Escaped(stop.station);
    let (arrival, departure) = (At(stop.arrival), At(stop.departure));
    write!(
        text,
        "<tr><th scope=\"row\">{station}</th><td class=\"n\">{arrival}<td class=\"n\">{departure}"
    )?;
    write_changes(text, stop)?;
    text.push('\n')
}

/// The class, the mark and the words for a direction.
fn words_for(direction: Direction) -> (&'static str, &'static str, &'static str) {
    match direction {
        Direction::Out => ("out", "\u{25b6} ", ", out"),
        Direction::Back => ("back", "\u{25c0} ", ", back"),
        Direction::Nowhere => ("nowhere", "", ""),
    }
}

/// Opens the table of a train that goes in a direction of a line.
pub fn open_way(text: &mut String, told: &Told, way: u32) -> Result<(), AllocError> {
    let line = Escaped(told.line.as_str());
    let (class, mark, words) = words_for(told.step.direction);
    write!(
        text,
        "<div class=\"way\"><table class=\"{class}\"><caption><span aria-hidden=\"true\">{mark}</span>Line {line}{words}, train {way}</caption>"
    )?;
    text.push_str(
        "<thead><tr><th scope=\"col\">Station<th scope=\"col\" colspan=\"2\">Arrives<th scope=\"col\" colspan=\"2\">Leaves<th scope=\"col\">Changes</tr></thead><tbody>\n",
    )
}
