//! Changes of passengers, as they are told where they begin and where they end.

use crate::duration::duration_of;
use crate::kind::is_change;
use crate::network::RailwayNetwork;
use crate::step::Direction;
use crate::told::Told;
use pesp_problem::{Instance, Row};
use std::alloc::AllocError;
use std::fmt;

/// A change as it is told at one of its ends: to or from which line, in which direction, at which time, and how long it lasts.
#[derive(Clone, Copy)]
struct Transfer<'a> {
    word: &'a str,
    line: &'a str,
    direction: Direction,
    time: u32,
    lasts: i64,
}

impl fmt::Display for Transfer<'_> {
    fn fmt<W: fmt::Write>(&self, f: &mut fmt::Formatter<W>) -> fmt::Result {
        let Transfer {
            word,
            line,
            direction,
            time,
            lasts,
        } = *self;
        write!(f, "{word} {line}")?;
        if direction != Direction::Nowhere {
            let direction = direction.word();
            write!(f, " {direction}")?;
        }
        write!(f, " at {time} in {lasts}")
    }
}

/// In which direction the train of an event goes.
fn direction_at(tolds: &[Told], event: u32) -> Direction {
    match tolds.get(event as usize) {
        Some(told) => told.step.direction,
        None => Direction::Nowhere,
    }
}

/// A change as it is told at one end, where the train at the other end stands at an event.
fn change_at<'a>(
    tolds: &[Told],
    times: &[u32],
    network: &RailwayNetwork<'a>,
    word: &'a str,
    other: u32,
    lasts: i64,
) -> Option<Transfer<'a>> {
    Some(Transfer {
        word,
        line: network.line_of_event(other),
        direction: direction_at(tolds, other),
        time: times.get(other as usize).copied()?,
        lasts,
    })
}

/// Adds a change to what is told of an event.
fn add_change(
    tolds: &mut [Told],
    event: u32,
    change: Option<Transfer<'_>>,
) -> Result<(), AllocError> {
    let (Some(told), Some(change)) = (tolds.get_mut(event as usize), change) else {
        return Ok(());
    };
    if !told.changes.is_empty() {
        told.changes.push_str("; ")?;
    }
    write!(told.changes, "{change}")
}

/// Adds an activity at both of its ends, where it is a change.
fn add_row(
    tolds: &mut [Told],
    instance: &Instance,
    times: &[u32],
    network: &RailwayNetwork<'_>,
    row: &Row,
) -> Result<(), AllocError> {
    let Some(lasts) = duration_of(instance, times, row) else {
        return Ok(());
    };
    if !is_change(network, instance.period(), row) {
        return Ok(());
    }
    let to = change_at(tolds, times, network, "to", row.head, lasts);
    add_change(tolds, row.tail, to)?;
    let from = change_at(tolds, times, network, "from", row.tail, lasts);
    add_change(tolds, row.head, from)
}

/// Adds all changes, in the order of the activities.
pub fn add_changes(
    tolds: &mut [Told],
    instance: &Instance,
    times: &[u32],
    network: &RailwayNetwork<'_>,
) -> Result<(), AllocError> {
    for row in instance.rows() {
        add_row(tolds, instance, times, network, row)?;
    }
    Ok(())
}
