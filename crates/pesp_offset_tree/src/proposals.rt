//! Times near a point, which may be a timetable.

use pesp_forest::{Frame, RowForest};
use pesp_inequalities::forest_by;
use pesp_network::NetRow;
use pesp_sharp_nodes::UNIT;
use std::alloc::{AllocError, Global};

/// The key by which a row is taken into the forest: the less, the nearer its slack is to an end of its span.
fn key_of(row: &NetRow, slack: i64) -> i64 {
    let span = i64::from(row.span);
    let left = span.wrapping_mul(UNIT).wrapping_sub(slack);
    slack.min(left).wrapping_add(span)
}

/// The keys of all rows.
fn keys_of(alloc: Global, frame: &Frame, slacks: &[i64]) -> Result<Vec<i64>, AllocError> {
    let mut keys = Vec::with_capacity(alloc, slacks.len())?;
    for (place, row) in frame.rows().iter().enumerate() {
        if let Some(slack) = slacks.get(place) {
            keys.push(key_of(row, *slack))?;
        }
    }
    Ok(keys)
}

/// The time of an event that hangs by a row, from that of the event above it.
fn time_of(
    frame: &Frame,
    forest: &RowForest,
    slacks: &[i64],
    times: &[u32],
    event: u32,
) -> Option<u32> {
    let place = forest.tree().place(event)?;
    let row = frame.row(place.by)?;
    let slack = slacks.get(place.by as usize)?.wrapping_add(UNIT / 2) >> 16;
    let duration = row.lower.wrapping_add(slack);
    let above = i64::from(*times.get(place.up as usize)?);
    let time = if row.head == event {
        above.wrapping_add(duration)
    } else {
        above.wrapping_sub(duration)
    };
    let wrapped = time.checked_rem_euclid(i64::from(frame.period()))?;
    u32::try_from(wrapped).ok()
}

/// Times along a forest, with the slacks of its rows rounded.
fn times_along(
    alloc: Global,
    frame: &Frame,
    forest: &RowForest,
    slacks: &[i64],
) -> Result<Vec<u32>, AllocError> {
    let mut times = vec![in alloc; 0u32; frame.events()]?;
    for event in forest.downwards(alloc)? {
        let time = time_of(frame, forest, slacks, &times, event).unwrap_or(0);
        if let Some(slot) = times.get_mut(event as usize) {
            *slot = time;
        }
    }
    Ok(times)
}

/// Times near slacks in 1/65536, along a forest that trusts the rows most whose slacks are near an end of their span.
pub fn times_near(
    alloc: Global,
    frame: &Frame,
    slacks: &[i64],
) -> Result<Option<Vec<u32>>, AllocError> {
    let keys = keys_of(alloc, frame, slacks)?;
    let numbers = forest_by(alloc, frame, &keys)?;
    let Some(forest) = RowForest::new(alloc, frame, &numbers)? else {
        return Ok(None);
    };
    let times = times_along(alloc, frame, &forest, slacks);
    drop(forest);
    Ok(Some(times?))
}
