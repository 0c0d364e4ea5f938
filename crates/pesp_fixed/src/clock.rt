//! The clock: the event from which others are held.

use crate::fixed_events::FixedEvent;
use pesp_problem::{Instance, Row};

/// Whether an activity holds its head at a time of an event.
fn holds_from(row: &Row, place: u32) -> bool {
    row.tail == place && row.head != place && row.lower == row.upper && row.weight == 0
}

/// Whether all activities at an event hold others at times of it, so that it is a clock already.
fn is_clock(instance: &Instance, place: u32) -> bool {
    instance.rows().iter().all(|row| (row.tail != place && row.head != place)
        || holds_from(row, place))
}

/// The least label of the events, or 0 where that is less.
fn least_label(instance: &Instance) -> i64 {
    let mut least: i64 = 0;
    for label in instance.events() {
        least = least.min(*label);
    }
    least
}

/// Whether an event is held.
fn is_held(held: &[FixedEvent], event: i64) -> bool {
    held.iter().any(|it| it.event == event)
}

/// The label of the clock: that of the first event where it is a clock already, and isn't held itself; 0 where no event has that
/// label, and else one below all labels.
pub fn clock_of(instance: &Instance, held: &[FixedEvent]) -> i64 {
    let events = instance.events();
    if let Some(first) = events.first() {
        if is_clock(instance, 0) && !is_held(held, *first) {
            return *first;
        }
    }
    if events.contains(&0) {
        least_label(instance).saturating_sub(1)
    } else {
        0
    }
}
